//! The rules, piece by piece from left to right.

ghost use Rattle.std.specs.Prelude.{◌≡◌, ℕ, ◌+◌, ◌≤◌, ◌<◌, [], Err, OnOk, length};
ghost use Rattle.rv_guard.specs.Rules.{is_start, is_target, windows_at, KeepRules, BreaksFirstAt};
ghost use Rattle.rv_guard.specs.Joining.{total_words};
ghost use Rattle.fy_audit.specs.Words.{AreMarks, HaveValues};

use crate::cutting::size;
use crate::error::AuditError;
use crate::rules::is_allowed;
use crate::targets::Marks;
use crate::windows::behind;
use rv_guard::{Piece, Window};
use std::alloc::Global;

// The windows at word k, by those behind the piece before.
fn windows_here(
    alloc: Global,
    pieces: &[Piece],
    targets: &[bool],
    k: usize,
    windows: Vec<Window>,
) -> Vec<Window>
    requires here { k < length targets.now }
    requires targets { AreMarks (λ a. is_target a 0 pieces.now) (length targets.now) targets.now }
    ensures { result.items ≡ windows_at pieces.now k windows.items }
{
    if targets[k] { Vec::new(alloc) } else { windows }
}

// The rules, for all pieces.
pub fn judge(alloc: Global, pieces: &[Piece], marks: &Marks) -> Result<(), AuditError>
    requires words { total_words pieces.now ≤ length marks.now.starts.items }
    requires few { length marks.now.starts.items ≤ 4194304 }
    requires starts { AreMarks (λ a. is_start a 0 pieces.now) (length marks.now.starts.items) marks.now.starts.items }
    requires targets { AreMarks (λ a. is_target a 0 pieces.now) (length marks.now.starts.items) marks.now.targets.items }
    requires good { HaveValues pieces.now }
    ensures ok { OnOk result (KeepRules pieces.now 0 [] pieces.now) }
    ensures err { (broken : ℕ) → result ≡ Err (AuditError.Unguarded broken) → BreaksFirstAt broken pieces.now 0 [] pieces.now }
{
    let mut windows: Vec<Window> = Vec::new(alloc);
    let mut k: usize = 0;
    for (i, piece) in pieces.iter().enumerate() {
        windows = windows_here(alloc, pieces, &marks.targets, k, windows);
        if !is_allowed(pieces, k, &windows, *piece, &pieces[i + 1..], &marks.starts) {
            return Err(AuditError::Unguarded(k as u32));
        }
        windows = behind(alloc, *piece, &windows)?;
        k += size(*piece);
    }
    Ok(())
}
