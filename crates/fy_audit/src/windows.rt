//! The windows behind a piece.

ghost use Rattle.std.specs.Prelude.{◌≡◌, ℕ, ◌+◌, ◌*◌, ◌^◌, ◌<◌, ◌++◌, IfOk};
ghost use Rattle.rv_guard.specs.Windows.{is_ended, is_checked, register_of, moved_windows, kept_windows, given_windows, windows_behind};
ghost use Rattle.fy_audit.specs.Words.{AreNear, IsNearWindow, moved_window, HasValue};
ghost use Rattle.rv_guard.specs.declared.pieces.Piece.{Piece};

use crate::conditions::{below_of, value_of};
use crate::rules::{changes, is_multiple_of};
use fy_base::OutOfMemory;
use rv_guard::{Piece, Window};
use rv_insn::{ImmOp, Insn};
use std::alloc::Global;

// The register of a window.
fn register_of(window: Window) -> u8
    ensures { result ≡ register_of window }
{
    match window {
        Window::InStack { register, .. } => register,
        Window::InTable { register } => register,
    }
}

// Whether the window of a register ends at a piece.
fn ends(q: u8, piece: Piece) -> bool
    ensures { result ≡ is_ended q piece }
{
    changes(q, piece) || checks(q, piece)
}

// Whether a piece checks a register.
fn checks(q: u8, piece: Piece) -> bool
    ensures { result ≡ is_checked q piece }
{
    match piece {
        Piece::StackCheck { register, .. } => register == q,
        Piece::NearCheck { register, .. } => register == q,
        Piece::TableCheck { register, .. } => register == q,
        _ => false,
    }
}

// The windows that a piece keeps, behind others.
fn keep(kept_ones: &mut Vec<Window>, piece: Piece, windows: &[Window]) -> Result<(), OutOfMemory>
    ensures { IfOk result (λ done. kept_ones.new.items ≡ kept_ones.old.items ++ kept_windows piece windows.now) }
{
    for window in windows {
        if !ends(register_of(*window), piece) {
            kept_ones.push(*window)?;
        }
    }
    Ok(())
}

// The window that `addi a, r, k` gives a for one.
fn moved_one(window: Window, a: u8, r: u8, k: i16) -> Option<Window>
    requires { IsNearWindow (2 ^ 60) window }
    ensures { result ≡ moved_window a r k window }
{
    match window {
        Window::InStack { register, from, to } => {
            if register != r {
                return None;
            }
            Some(Window::InStack {
                register: a,
                from: from - k as i64,
                to: to - k as i64,
            })
        }
        Window::InTable { .. } => None,
    }
}

// The windows that `addi a, r, k` gives a.
fn move_all(
    alloc: Global,
    a: u8,
    r: u8,
    k: i16,
    windows: &[Window],
) -> Result<Vec<Window>, OutOfMemory>
    requires near { AreNear (2 ^ 60) windows.now }
    ensures items { IfOk result (λ now. now.items ≡ moved_windows a r k windows.now) }
    ensures near { (n : ℕ) → AreNear n windows.now → IfOk result (λ now. AreNear (n + 2 ^ 32) now.items) }
{
    let mut now = Vec::new(alloc);
    for window in windows {
        if let Some(given) = moved_one(*window, a, r, k) {
            now.push(given)?;
        }
    }
    Ok(now)
}

// The windows that a piece gives.
fn gives(alloc: Global, piece: Piece, windows: &[Window]) -> Result<Vec<Window>, OutOfMemory>
    requires near { AreNear (2 ^ 60) windows.now }
    requires good { HasValue piece }
    ensures items { IfOk result (λ now. now.items ≡ given_windows piece windows.now) }
    ensures near { (n : ℕ) → AreNear n windows.now → IfOk result (λ now. AreNear (n + 2 ^ 32) now.items) }
{
    let mut now = Vec::new(alloc);
    match piece {
        Piece::StackCheck {
            register,
            high,
            low,
        } => {
            now.push(Window::InStack {
                register,
                from: 0,
                to: value_of(high, low) as i64,
            })?;
            Ok(now)
        }
        Piece::NearCheck { register, low } => {
            now.push(Window::InStack {
                register,
                from: 0,
                to: below_of(low) as i64,
            })?;
            Ok(now)
        }
        Piece::TableCheck { register, .. } => {
            now.push(Window::InTable { register })?;
            Ok(now)
        }
        Piece::Single(insn) => gives_single(alloc, insn, windows),
        _ => Ok(now),
    }
}

// The windows that one instruction gives.
fn gives_single(alloc: Global, insn: Insn, windows: &[Window]) -> Result<Vec<Window>, OutOfMemory>
    requires near { AreNear (2 ^ 60) windows.now }
    ensures items { IfOk result (λ now. now.items ≡ given_windows (Piece.Single insn) windows.now) }
    ensures near { (n : ℕ) → AreNear n windows.now → IfOk result (λ now. AreNear (n + 2 ^ 32) now.items) }
{
    match insn {
        Insn::Imm {
            op: ImmOp::Addi,
            rd,
            rs1,
            imm,
        } => {
            if rd != 0 && is_multiple_of(8, imm) {
                move_all(alloc, rd, rs1, imm, windows)
            } else {
                Ok(Vec::new(alloc))
            }
        }
        _ => Ok(Vec::new(alloc)),
    }
}

// The windows behind a piece.
pub fn behind(alloc: Global, piece: Piece, windows: &[Window]) -> Result<Vec<Window>, OutOfMemory>
    requires near { AreNear (2 ^ 60) windows.now }
    requires good { HasValue piece }
    ensures items { IfOk result (λ now. now.items ≡ windows_behind piece windows.now) }
    ensures near { (n : ℕ) → AreNear n windows.now → IfOk result (λ now. AreNear (n + 2 ^ 32) now.items) }
{
    let mut now = gives(alloc, piece, windows)?;
    keep(&mut now, piece, windows)?;
    Ok(now)
}
