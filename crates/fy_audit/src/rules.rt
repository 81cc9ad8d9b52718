//! The rules for one piece, but for the windows that it gives.

ghost use Rattle.std.specs.Prelude.{◌≡◌, ◌+◌, ◌*◌, ◌%◌, ◌≤◌, ◌<◌, ◌||◌, ◌↔◌, ◌⊎◌, IsTrue, Some, length, false, true};
ghost use Rattle.rv_insn.specs.Memory.{load_size, store_size};
ghost use Rattle.rv_guard.specs.Windows.{is_changed, written_by, is_multiple, HasWindow, CoversStack, CoversTable};
ghost use Rattle.rv_guard.specs.Rules.{is_start, KeepsBounds, IsPlain, JumpsToStart, HasAccess, Closes, IsInForm, IsAllowed};
ghost use Rattle.rv_guard.specs.Joining.{total_words};
ghost use Rattle.fy_audit.specs.Words.{AreMarks};
ghost use Rattle.rv_guard.specs.declared.pieces.Piece.{Piece};

use crate::targets::target;
use rv_guard::{Piece, Window};
use rv_insn::{Insn, LoadOp, StoreOp};

// The register that an instruction writes, or x0.
fn written(insn: Insn) -> u8
    ensures { result ≡ written_by insn }
{
    match insn {
        Insn::Reg { rd, .. } => rd,
        Insn::Imm { rd, .. } => rd,
        Insn::Shift { rd, .. } => rd,
        Insn::Load { rd, .. } => rd,
        Insn::Lui { rd, .. } => rd,
        Insn::Auipc { rd, .. } => rd,
        Insn::Jal { rd, .. } => rd,
        Insn::Jalr { rd, .. } => rd,
        _ => 0,
    }
}

// Whether a piece writes a register.
pub fn changes(r: u8, piece: Piece) -> bool
    ensures { result ≡ is_changed r piece }
{
    match piece {
        Piece::FarJump { link, .. } => r == 31 || r == link,
        Piece::StackCheck { .. } => r == 0 || r == 31,
        Piece::NearCheck { .. } => r == 0 || r == 31,
        Piece::TableCheck { .. } => r == 0 || r == 31,
        Piece::Entry { .. } => r == 0 || r == 30 || r == 31,
        Piece::ServiceCall { number } => r == 0 || r == 17 || (number == 2 && r == 10),
        Piece::FaultCall { .. } => r == 0 || r == 10 || r == 11 || r == 17,
        Piece::Single(insn) => r == written(insn),
    }
}

fn is_plain(piece: Piece) -> bool
    ensures { IsTrue result ↔ IsPlain piece }
{
    match piece {
        Piece::Single(Insn::Jalr { .. }) => false,
        Piece::Single(Insn::Ecall) => false,
        _ => true,
    }
}

fn closes(piece: Piece) -> bool
    ensures { IsTrue result ↔ Closes piece }
{
    match piece {
        Piece::FarJump { .. } => true,
        Piece::Entry { .. } => true,
        Piece::ServiceCall { number } => number == 0 || number == 4,
        Piece::FaultCall { .. } => true,
        Piece::Single(Insn::Jal { .. }) => true,
        _ => false,
    }
}

pub fn is_multiple_of(n: u16, imm: i16) -> bool
    requires small { 0 < n }
    ensures { result ≡ is_multiple n imm }
{
    imm.unsigned_abs() % n == 0
}

fn load_bytes(op: LoadOp) -> u16
    ensures size { result ≡ load_size op }
    ensures some { 0 < result }
{
    match op {
        LoadOp::Lb => 1,
        LoadOp::Lh => 2,
        LoadOp::Lw => 4,
        LoadOp::Ld => 8,
        LoadOp::Lbu => 1,
        LoadOp::Lhu => 2,
        LoadOp::Lwu => 4,
    }
}

fn store_bytes(op: StoreOp) -> u16
    ensures size { result ≡ store_size op }
    ensures some { 0 < result }
{
    match op {
        StoreOp::Sb => 1,
        StoreOp::Sh => 2,
        StoreOp::Sw => 4,
        StoreOp::Sd => 8,
    }
}

fn covers_stack(windows: &[Window], r: u8, imm: i16, s: u16) -> bool
    ensures { IsTrue result ↔ HasWindow (CoversStack r imm s) windows.now }
{
    for window in windows {
        if is_stack_cover(*window, r, imm, s) {
            return true;
        }
    }
    false
}

fn is_stack_cover(window: Window, r: u8, imm: i16, s: u16) -> bool
    ensures { IsTrue result ↔ CoversStack r imm s window }
{
    match window {
        Window::InStack { register, from, to } => {
            if register != r || from > imm as i64 {
                return false;
            }
            imm as i64 + s as i64 <= to
        }
        Window::InTable { .. } => false,
    }
}

fn is_table_cover(window: Window, r: u8, imm: i16, s: u16) -> bool
    ensures { IsTrue result ↔ CoversTable r imm s window }
{
    match window {
        Window::InStack { .. } => false,
        Window::InTable { register } => register == r && imm >= 0 && imm as i64 + s as i64 <= 8,
    }
}

fn covers_table(windows: &[Window], r: u8, imm: i16, s: u16) -> bool
    ensures { IsTrue result ↔ HasWindow (CoversTable r imm s) windows.now }
{
    for window in windows {
        if is_table_cover(*window, r, imm, s) {
            return true;
        }
    }
    false
}

// Whether so many bytes at `imm(r)` may be loaded.
fn load_access(windows: &[Window], r: u8, imm: i16, loaded: u16) -> bool
    requires { 0 < loaded }
    ensures { IsTrue result ↔ ((is_multiple loaded imm ≡ true) × (HasWindow (CoversStack r imm loaded) windows.now ⊎ HasWindow (CoversTable r imm loaded) windows.now)) }
{
    if !is_multiple_of(loaded, imm) {
        return false;
    }
    if covers_stack(windows, r, imm, loaded) {
        return true;
    }
    covers_table(windows, r, imm, loaded)
}

// Whether so many bytes at `imm(r)` may be stored.
fn store_access(windows: &[Window], r: u8, imm: i16, stored: u16) -> bool
    requires { 0 < stored }
    ensures { IsTrue result ↔ ((is_multiple stored imm ≡ true) × HasWindow (CoversStack r imm stored) windows.now) }
{
    if !is_multiple_of(stored, imm) {
        return false;
    }
    covers_stack(windows, r, imm, stored)
}

fn insn_access(windows: &[Window], insn: Insn) -> bool
    ensures { IsTrue result ↔ HasAccess windows.now (Piece.Single insn) }
{
    match insn {
        Insn::Load { op, base, imm, .. } => load_access(windows, base, imm, load_bytes(op)),
        Insn::Store { op, base, imm, .. } => store_access(windows, base, imm, store_bytes(op)),
        _ => true,
    }
}

fn has_access(windows: &[Window], piece: Piece) -> bool
    ensures { IsTrue result ↔ HasAccess windows.now piece }
{
    match piece {
        Piece::Single(insn) => insn_access(windows, insn),
        _ => true,
    }
}

// Whether a piece begins at an address.
fn is_start_at(pieces: &[Piece], starts: &[bool], address: u64) -> bool
    requires words { total_words pieces.now ≤ length starts.now }
    requires few { length starts.now ≤ 4194304 }
    requires starts { AreMarks (λ a. is_start a 0 pieces.now) (length starts.now) starts.now }
    ensures { result ≡ is_start address 0 pieces.now }
{
    if address < 65536 || address % 4 != 0 {
        return false;
    }
    let k = (address - 65536) / 4;
    if k >= starts.len() as u64 {
        return false;
    }
    starts[k as usize]
}

// Whether the piece at word k jumps only to where a piece begins.
fn jumps_to_start(k: usize, piece: Piece, pieces: &[Piece], starts: &[bool]) -> bool
    requires here { k ≤ 4194304 }
    requires words { total_words pieces.now ≤ length starts.now }
    requires few { length starts.now ≤ 4194304 }
    requires starts { AreMarks (λ a. is_start a 0 pieces.now) (length starts.now) starts.now }
    ensures { IsTrue result ↔ JumpsToStart pieces.now k piece }
{
    match target(k, piece) {
        None => true,
        Some(to) => is_start_at(pieces, starts, to),
    }
}

// Whether the piece leaves the registers that hold the bounds of the regions.
fn keeps_bounds(piece: Piece) -> bool
    ensures { IsTrue result ↔ KeepsBounds piece }
{
    !changes(2, piece) && !changes(3, piece) && !changes(4, piece)
}

fn is_in_form(k: usize, windows: &[Window], piece: Piece, pieces: &[Piece], starts: &[bool]) -> bool
    requires here { k ≤ 4194304 }
    requires words { total_words pieces.now ≤ length starts.now }
    requires few { length starts.now ≤ 4194304 }
    requires starts { AreMarks (λ a. is_start a 0 pieces.now) (length starts.now) starts.now }
    ensures { IsTrue result ↔ IsInForm pieces.now k windows.now piece }
{
    keeps_bounds(piece)
        && is_plain(piece)
        && jumps_to_start(k, piece, pieces, starts)
        && has_access(windows, piece)
}

// Whether the piece at word k keeps the rules; `rest` are the pieces behind it.
pub fn is_allowed(
    pieces: &[Piece],
    k: usize,
    windows: &[Window],
    piece: Piece,
    rest: &[Piece],
    starts: &[bool],
) -> bool
    requires here { k ≤ 4194304 }
    requires words { total_words pieces.now ≤ length starts.now }
    requires few { length starts.now ≤ 4194304 }
    requires starts { AreMarks (λ a. is_start a 0 pieces.now) (length starts.now) starts.now }
    ensures { IsTrue result ↔ IsAllowed pieces.now k windows.now piece rest.now }
{
    is_in_form(k, windows, piece, pieces, starts) && (!rest.is_empty() || closes(piece))
}
