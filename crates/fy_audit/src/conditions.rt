//! Whether the operands of a pattern fit, and which piece is cut off.

ghost use Rattle.std.specs.Prelude.{◌≡◌, ◌+◌, ◌^◌, ◌<◌, ◌≤◌, ◌↔◌, IsTrue, length, drop};
ghost use Rattle.rv_guard.specs.Patterns.{IsNatural, IsCheckable, IsStackCheck, IsNearCheck, IsTableCheck, IsEntry, IsFaultCall, IsPattern, value, below};
ghost use Rattle.rv_guard.specs.Cutting.{Begins, IsCutBy};
ghost use Rattle.fy_audit.specs.Words.{IsHeadCount, setting};

use crate::find::shape;
use rv_guard::Piece;
use rv_insn::Insn;

// Whether the two halves make no number below 0.
fn is_natural(high: u32, low: i16) -> bool
    ensures { IsTrue result ↔ IsNatural high low }
{
    high < 524_288 && 4096 * high as i64 + low as i64 >= 0
}

// The number that the two halves make.
pub fn value_of(high: u32, low: i16) -> u64
    requires { IsNatural high low }
    ensures value { result ≡ value high low }
    ensures small { result < 2 ^ 32 }
{
    (4096 * high as i64 + low as i64) as u64
}

// Whether a check can speak of a register.
fn is_checkable(register: u8) -> bool
    ensures { IsTrue result ↔ IsCheckable register }
{
    !matches!(register, 0 | 2 | 3 | 4 | 31)
}

fn is_stack_check(register: u8, v: u64) -> bool
    ensures { IsTrue result ↔ IsStackCheck register v }
{
    is_checkable(register) && v >= 8 && v <= 32768
}

// How far a number lies below 0, or 0.
pub fn below_of(low: i16) -> u64
    ensures value { result ≡ below low }
    ensures small { result < 2 ^ 32 }
{
    if low < 0 {
        low.unsigned_abs() as u64
    } else {
        0
    }
}

fn is_near_check(register: u8, low: i16) -> bool
    ensures { IsTrue result ↔ IsNearCheck register low }
{
    let v = below_of(low);
    is_checkable(register) && v >= 8 && v <= 2048
}

fn is_table_check(register: u8, v: u64, code: &[Insn], table_words: usize, places: usize) -> bool
    requires { table_words ≤ 1048576 }
    ensures { IsTrue result ↔ IsTableCheck (setting code.now table_words places) register v }
{
    is_checkable(register)
        && table_words >= 1
        && v >= 536_870_912
        && v <= 536_870_904 + 8 * table_words as u64
}

fn is_entry(v: u64, code: &[Insn], heads: usize, table_words: usize, places: usize) -> bool
    requires { IsHeadCount heads code.now }
    ensures { IsTrue result ↔ IsEntry (setting code.now table_words places) v }
{
    v % 8 == 0 && v >= 8 && v / 8 <= heads as u64
}

fn is_fault_call(kind: u16, v: u64, code: &[Insn], table_words: usize, places: usize) -> bool
    ensures { IsTrue result ↔ IsFaultCall (setting code.now table_words places) kind v }
{
    kind >= 1 && kind <= 3 && v < places as u64
}

// Whether the piece is a pattern whose operands fit.
fn is_pattern(piece: Piece, code: &[Insn], heads: usize, table_words: usize, places: usize) -> bool
    requires words { table_words ≤ 1048576 }
    requires heads { IsHeadCount heads code.now }
    ensures { IsTrue result ↔ IsPattern (setting code.now table_words places) piece }
{
    match piece {
        Piece::FarJump { .. } => true,
        Piece::StackCheck {
            register,
            high,
            low,
        } => { is_natural(high, low) && is_stack_check(register, value_of(high, low)) }
        Piece::NearCheck { register, low } => is_near_check(register, low),
        Piece::TableCheck {
            register,
            high,
            low,
        } => {
            is_natural(high, low)
                && is_table_check(register, value_of(high, low), code, table_words, places)
        }
        Piece::Entry { high, low, .. } => {
            is_natural(high, low) && is_entry(value_of(high, low), code, heads, table_words, places)
        }
        Piece::ServiceCall { number } => matches!(number, 0 | 1 | 2 | 4),
        Piece::FaultCall { kind, high, low } => {
            is_natural(high, low)
                && is_fault_call(kind, value_of(high, low), code, table_words, places)
        }
        Piece::Single(_) => false,
    }
}

// The piece that is cut off at word k.
pub fn piece_at(code: &[Insn], k: usize, heads: usize, table_words: usize, places: usize) -> Piece
    requires within { k < length code.now }
    requires words { table_words ≤ 1048576 }
    requires heads { IsHeadCount heads code.now }
    ensures cut { IsCutBy (setting code.now table_words places) (drop k code.now) result }
    ensures begins { Begins result (drop k code.now) }
{
    let insns = &code[k..];
    if let Some(piece) = shape(insns) {
        if is_pattern(piece, code, heads, table_words, places) {
            return piece;
        }
    }
    Piece::Single(code[k])
}
