//! Arithmetic on data, and the text that output writes of them.

ghost use Rattle.std.specs.Prelude.{◌≡◌, IfOk};
ghost use Rattle.std.specs.Option.{option_map};
ghost use Rattle.fy_base.specs.Arithmetic.{unary_result, binary_result, int_result, char_result, bool_result, int_if_some, written_text};

use crate::data::{BinOp, Datum, FaultKind, PutKind, UnOp};
use crate::error::OutOfMemory;
use crate::list::Text;
use std::alloc::Global;

/// What an operator makes of data.
#[derive(Clone, Copy, PartialEq, Eq, Debug)]
pub enum Applied {
    Gives(Datum),
    Faults(FaultKind),
    /// The data have other types than the operator takes.
    NoSense,
}

// A number, or the fault where 64 bits don't hold it.
fn int_or_overflow(number: Option<i64>) -> Applied
    ensures { result ≡ int_if_some number }
{
    match number {
        Some(number) => Applied::Gives(Datum::Int(number)),
        None => Applied::Faults(FaultKind::Overflow),
    }
}

/// Applies an operator to one datum.
pub fn apply_unary(op: UnOp, a: Datum) -> Applied
    ensures { result ≡ unary_result op a }
{
    match (op, a) {
        (UnOp::Neg, Datum::Int(x)) => int_or_overflow(x.checked_neg()),
        (UnOp::Not, Datum::Bool(b)) => Applied::Gives(Datum::Bool(!b)),
        (UnOp::Ord, Datum::Char(c)) => Applied::Gives(Datum::Int(i64::from(c))),
        (UnOp::Chr, Datum::Int(x)) => match u8::try_from(x) {
            Ok(c) => Applied::Gives(Datum::Char(c)),
            Err(_) => Applied::Faults(FaultKind::Range),
        },
        _ => Applied::NoSense,
    }
}

fn quotient_of(x: i64, y: i64) -> Applied
    ensures { result ≡ int_result BinOp.Div x y }
{
    if y == 0 {
        return Applied::Faults(FaultKind::Zero);
    }
    int_or_overflow(x.checked_div(y))
}

fn remainder_of(x: i64, y: i64) -> Applied
    ensures { result ≡ int_result BinOp.Rem x y }
{
    if y == 0 {
        return Applied::Faults(FaultKind::Zero);
    }
    // The least number has no quotient by -1, but its remainder is 0.
    if y == -1 {
        return Applied::Gives(Datum::Int(0));
    }
    Applied::Gives(Datum::Int(x % y))
}

fn apply_to_ints(op: BinOp, x: i64, y: i64) -> Applied
    ensures { result ≡ int_result op x y }
{
    let truth = match op {
        BinOp::Add => return int_or_overflow(x.checked_add(y)),
        BinOp::Sub => return int_or_overflow(x.checked_sub(y)),
        BinOp::Mul => return int_or_overflow(x.checked_mul(y)),
        BinOp::Div => return quotient_of(x, y),
        BinOp::Rem => return remainder_of(x, y),
        BinOp::Eq => x == y,
        BinOp::Ne => x != y,
        BinOp::Lt => x < y,
        BinOp::Le => x <= y,
        BinOp::Gt => x > y,
        BinOp::Ge => x >= y,
        BinOp::And | BinOp::Or => return Applied::NoSense,
    };
    Applied::Gives(Datum::Bool(truth))
}

fn apply_to_chars(op: BinOp, x: u8, y: u8) -> Applied
    ensures { result ≡ char_result op x y }
{
    let truth = match op {
        BinOp::Eq => x == y,
        BinOp::Ne => x != y,
        BinOp::Lt => x < y,
        BinOp::Le => x <= y,
        BinOp::Gt => x > y,
        BinOp::Ge => x >= y,
        _ => return Applied::NoSense,
    };
    Applied::Gives(Datum::Bool(truth))
}

fn apply_to_bools(op: BinOp, x: bool, y: bool) -> Applied
    ensures { result ≡ bool_result op x y }
{
    let truth = match op {
        BinOp::Eq => x == y,
        BinOp::Ne => x != y,
        BinOp::And => x && y,
        BinOp::Or => x || y,
        _ => return Applied::NoSense,
    };
    Applied::Gives(Datum::Bool(truth))
}

/// Applies an operator to two data.
pub fn apply_binary(op: BinOp, a: Datum, b: Datum) -> Applied
    ensures { result ≡ binary_result op a b }
{
    match (a, b) {
        (Datum::Int(x), Datum::Int(y)) => apply_to_ints(op, x, y),
        (Datum::Char(x), Datum::Char(y)) => apply_to_chars(op, x, y),
        (Datum::Bool(x), Datum::Bool(y)) => apply_to_bools(op, x, y),
        _ => Applied::NoSense,
    }
}

fn copied(alloc: Global, bytes: &[u8]) -> Result<Option<Text>, OutOfMemory>
    ensures { IfOk result (λ text. text ≡ Some bytes.now) }
{
    let bytes = Vec::from_slice(alloc, bytes)?;
    Ok(Some(Text::from_vec(bytes)))
}

/// The text that an output statement of a kind writes of a datum, or `None` exactly where the datum
/// isn't of the kind: an integer's decimal digits, after `-` for a negative one; one byte for a
/// character; `true` or `false`.
pub fn put_text(alloc: Global, kind: PutKind, a: Datum) -> Result<Option<Text>, OutOfMemory>
    ensures { IfOk result (λ text. text ≡ written_text kind a) }
{
    match (kind, a) {
        (PutKind::Int, Datum::Int(x)) => copied(alloc, itoa::Buffer::new().format(x).as_bytes()),
        (PutKind::Char, Datum::Char(c)) => copied(alloc, &[c]),
        (PutKind::Bool, Datum::Bool(true)) => copied(alloc, b"true"),
        (PutKind::Bool, Datum::Bool(false)) => copied(alloc, b"false"),
        _ => Ok(None),
    }
}
