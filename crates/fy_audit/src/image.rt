//! Whether an image is guarded.

ghost use Rattle.std.specs.Prelude.{◌≡◌, ℕ, ◌≤◌, Err, IfOk, OnOk, length};
ghost use Rattle.fy_image.specs.Ranges.{IsImage};
ghost use Rattle.rv_guard.specs.Guarded.{AreWordsOf, IsGuarded, IsUnguardedAt, IsIllegalAt};

use crate::cutting::cut;
use crate::error::AuditError;
use crate::judge::judge;
use crate::targets::marks_of;
use fy_image::Image;
use rv_insn::{Insn, decode};
use std::alloc::Global;

// The instruction of each word.
fn read_code(alloc: Global, words: &[u32]) -> Result<Vec<Insn>, AuditError>
    requires { length words.now ≤ 4194304 }
    ensures ok { IfOk result (λ code. AreWordsOf code.items words.now) }
    ensures err { (k : ℕ) → result ≡ Err (AuditError.Unguarded k) → IsIllegalAt words.now k }
{
    let mut code = Vec::with_capacity(alloc, words.len())?;
    for (k, word) in words.iter().enumerate() {
        match decode(*word) {
            None => return Err(AuditError::Unguarded(k as u32)),
            Some(insn) => code.push(insn)?,
        }
    }
    Ok(code)
}

/// Judges an image without its source: whoever wrote it, the machine of a guarded image never traps.
///
/// # Errors
///
/// `Unguarded(k)` where the image isn't guarded: k is the first word that is no instruction's, or
/// else the first word of the first piece that breaks a rule. By `images_are_judged_one_way` of
/// `rv_guard` no other word is, and no guarded image has one.
pub fn audit(alloc: Global, image: &Image) -> Result<(), AuditError>
    requires { IsImage image.now }
    ensures ok { OnOk result (IsGuarded image.now) }
    ensures err { (k : ℕ) → result ≡ Err (AuditError.Unguarded k) → IsUnguardedAt image.now k }
{
    let code = read_code(alloc, image.code.as_slice())?;
    let pieces = cut(alloc, &code, image.table.len(), image.places.len())?;
    let marks = marks_of(alloc, &pieces, code.len())?;
    judge(alloc, &pieces, &marks)
}
