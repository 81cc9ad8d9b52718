//! Where pieces begin, and where they jump.

ghost use Rattle.std.specs.Prelude.{◌≡◌, ℕ, ◌+◌, ◌*◌, ◌%◌, ◌≤◌, ◌<◌, ◌||◌, nat_eq, IfOk, length, slice_index_or, false};
ghost use Rattle.rv_guard.specs.Rules.{address_of, is_at, target_of, branch_target, is_start, is_target};
ghost use Rattle.rv_guard.specs.Joining.{total_words};
ghost use Rattle.fy_audit.specs.Words.{AreMarks};
ghost use Rattle.rv_insn.specs.Operations.{upper_value};
ghost use Rattle.rv_insn.specs.Step.{displaced};

use crate::cutting::size;
use fy_base::OutOfMemory;
use rv_guard::Piece;
use rv_insn::Insn;
use std::alloc::Global;

// An address and a sign-extended number.
fn displace(address: u64, offset: i64) -> u64
    ensures { result ≡ displaced address offset }
{
    address.wrapping_add(offset.cast_unsigned())
}

// What AUIPC adds.
fn upper(high: u32) -> u64
    ensures { result ≡ upper_value high }
{
    let low = (high % 1_048_576) as u64 * 4096;
    if low < 2_147_483_648 {
        low
    } else {
        low + 0xffff_ffff_0000_0000
    }
}

fn branch_to(address: u64, offset: i64) -> Option<u64>
    ensures { result ≡ branch_target address offset }
{
    if offset == 0 {
        None
    } else {
        Some(displace(address, offset))
    }
}

// The address of a word.
fn address(k: usize) -> u64
    requires { k ≤ 4194304 }
    ensures { result ≡ address_of k }
{
    65536 + 4 * k as u64
}

// The address to which the piece at word k jumps.
pub fn target(k: usize, piece: Piece) -> Option<u64>
    requires { k ≤ 4194304 }
    ensures { result ≡ target_of k piece }
{
    match piece {
        Piece::FarJump { high, low, .. } => {
            Some(displace(address(k).wrapping_add(upper(high)), low as i64))
        }
        Piece::Single(Insn::Jal { offset, .. }) => Some(displace(address(k), offset as i64)),
        Piece::Single(Insn::Branch { offset, .. }) => branch_to(address(k), offset as i64),
        _ => None,
    }
}

// Marks the word at an address, if it is one of these.
fn mark(marks: &mut [bool], address: u64)
    requires { length marks.old ≤ 4194304 }
    ensures count { length marks.new ≡ length marks.old }
    ensures each { (j : ℕ) → j < length marks.old → slice_index_or marks.new j false ≡ (slice_index_or marks.old j false || nat_eq address (address_of j)) }
{
    if address >= 65536 && address % 4 == 0 {
        let k = (address - 65536) / 4;
        if k < marks.len() as u64 {
            marks[k as usize] = true;
        }
    }
}

// Marks the word at an address, if there is one.
fn mark_if(marks: &mut [bool], address: Option<u64>)
    requires { length marks.old ≤ 4194304 }
    ensures count { length marks.new ≡ length marks.old }
    ensures each { (j : ℕ) → j < length marks.old → slice_index_or marks.new j false ≡ (slice_index_or marks.old j false || is_at (address_of j) address) }
{
    if let Some(to) = address {
        mark(marks, to);
    }
}

/// The words at which pieces begin, and those to which they jump.
#[derive(Drop)]
pub struct Marks {
    pub starts: Vec<bool>,
    pub targets: Vec<bool>,
}

// Both, of all pieces.
pub fn marks_of(alloc: Global, pieces: &[Piece], words: usize) -> Result<Marks, OutOfMemory>
    requires few { words ≤ 4194304 }
    requires words { total_words pieces.now ≤ words }
    ensures starts { IfOk result (λ marks. AreMarks (λ address. is_start address 0 pieces.now) words marks.starts.items) }
    ensures targets { IfOk result (λ marks. AreMarks (λ address. is_target address 0 pieces.now) words marks.targets.items) }
{
    let mut starts = Vec::from_elem(alloc, false, words)?;
    let mut targets = Vec::from_elem(alloc, false, words)?;
    let mut k: usize = 0;
    for piece in pieces {
        mark(&mut starts, address(k));
        mark_if(&mut targets, target(k, *piece));
        k += size(*piece);
    }
    Ok(Marks { starts, targets })
}
