//! How the code is cut into pieces.

ghost use Rattle.std.specs.Prelude.{◌≡◌, ◌+◌, ◌*◌, ◌≤◌, ◌<◌, IfOk, Some, length};
ghost use Rattle.rv_guard.specs.Patterns.{word_count};
ghost use Rattle.rv_guard.specs.Cutting.{AreCut};
ghost use Rattle.fy_audit.specs.Words.{IsHeadCount, setting};

use crate::conditions::piece_at;
use crate::find::far_jump;
use fy_base::OutOfMemory;
use rv_guard::Piece;
use rv_insn::Insn;
use std::alloc::Global;

// How many words a piece has.
pub fn size(piece: Piece) -> usize
    ensures { result ≡ word_count piece }
{
    match piece {
        Piece::FarJump { .. } => 2,
        Piece::StackCheck { .. } => 8,
        Piece::NearCheck { .. } => 5,
        Piece::TableCheck { .. } => 6,
        Piece::Entry { .. } => 7,
        Piece::ServiceCall { .. } => 2,
        Piece::FaultCall { .. } => 5,
        Piece::Single(_) => 1,
    }
}

// With how many far jumps the code begins.
pub fn head_count(code: &[Insn]) -> usize
    requires { length code.now ≤ 4194304 }
    ensures { IsHeadCount result code.now }
{
    let mut heads: usize = 0;
    while 2 * heads < code.len() {
        match far_jump(&code[2 * heads..]) {
            None => return heads,
            Some(_) => heads += 1,
        }
    }
    heads
}

// The pieces of the code.
pub fn cut(
    alloc: Global,
    code: &[Insn],
    table_words: usize,
    places: usize,
) -> Result<Vec<Piece>, OutOfMemory>
    requires few { length code.now ≤ 4194304 }
    requires words { table_words ≤ 1048576 }
    ensures { IfOk result (λ pieces. AreCut (setting code.now table_words places) code.now pieces.items) }
{
    let heads = head_count(code);
    let mut pieces = Vec::new(alloc);
    let mut k: usize = 0;
    while k < code.len() {
        let piece = piece_at(code, k, heads, table_words, places);
        pieces.push(piece)?;
        k += size(piece);
    }
    Ok(pieces)
}
