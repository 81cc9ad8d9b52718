//! The texts and the levels of data and of operators.

ghost use Rattle.std.specs.Prelude.{◌≡◌, ◌<◌, ◌++◌, OnOk};
ghost use Rattle.fy_short.specs.DataTexts.{
  data_word as data_word_of,
  datum_level as datum_level_of,
  datum_text,
  element_text,
  elements_text,
  int_text,
  left_level as left_level_of,
  letter_text,
  operator_level as operator_level_of,
  put_word as put_word_of,
  string_text,
};
ghost use Rattle.fy_syntax.specs.Print.{hex_digit as hex_digit_of};

use crate::bytes::put;
use fy_base::{BinOp, Datum, OutOfMemory, PutKind};
use fy_phrase::DataTy;

const DOUBLE_QUOTE: u8 = 34;

const SINGLE_QUOTE: u8 = 39;

/// Puts the datum behind the text.
pub fn put_datum(text: &mut Vec<u8>, value: Datum) -> Result<(), OutOfMemory>
    ensures { OnOk result (text.new.items ≡ text.old.items ++ datum_text value) }
{
    match value {
        Datum::Int(number) => put_int(text, number),
        Datum::Bool(true) => put(text, b"true"),
        Datum::Bool(false) => put(text, b"false"),
        Datum::Char(byte) => put_letter(text, byte),
    }
}

fn put_int(text: &mut Vec<u8>, number: i64) -> Result<(), OutOfMemory>
    ensures { OnOk result (text.new.items ≡ text.old.items ++ int_text number) }
{
    if number == i64::MIN {
        return put(text, b"-9223372036854775807 - 1");
    }
    put(text, itoa::Buffer::new().format(number).as_bytes())
}

fn put_letter(text: &mut Vec<u8>, byte: u8) -> Result<(), OutOfMemory>
    ensures { OnOk result (text.new.items ≡ text.old.items ++ letter_text byte) }
{
    put(text, b"'")?;
    put_element(text, SINGLE_QUOTE, byte)?;
    put(text, b"'")
}

/// Puts a string with these characters behind the text.
pub fn put_string(text: &mut Vec<u8>, bytes: &[u8]) -> Result<(), OutOfMemory>
    ensures { OnOk result (text.new.items ≡ text.old.items ++ string_text bytes.now) }
{
    put(text, b"\"")?;
    put_elements(text, bytes)?;
    put(text, b"\"")
}

fn put_elements(text: &mut Vec<u8>, bytes: &[u8]) -> Result<(), OutOfMemory>
    ensures { OnOk result (text.new.items ≡ text.old.items ++ elements_text 34 bytes.now) }
{
    for byte in bytes {
        put_element(text, DOUBLE_QUOTE, *byte)?;
    }
    Ok(())
}

// A byte between such quotes.
fn put_element(text: &mut Vec<u8>, quote: u8, byte: u8) -> Result<(), OutOfMemory>
    ensures { OnOk result (text.new.items ≡ text.old.items ++ element_text quote byte) }
{
    if byte == b'\n' {
        put(text, b"\\n")
    } else if byte == b'\t' {
        put(text, b"\\t")
    } else if byte == b'\\' {
        put(text, b"\\\\")
    } else if byte == quote {
        put(text, &[b'\\', quote])
    } else if 32 <= byte && byte <= 126 {
        put(text, &[byte])
    } else {
        put(
            text,
            &[b'\\', b'x', hex_digit(byte / 16), hex_digit(byte % 16)],
        )
    }
}

fn hex_digit(digit: u8) -> u8
    requires { digit < 16 }
    ensures { result ≡ hex_digit_of digit }
{
    if digit < 10 { 48 + digit } else { 87 + digit }
}

/// The level at which the datum stands.
pub fn datum_level(value: Datum) -> u8
    ensures { result ≡ datum_level_of value }
{
    match value {
        Datum::Int(number) => {
            if number == i64::MIN {
                7
            } else if number < 0 {
                9
            } else {
                12
            }
        }
        Datum::Bool(_) | Datum::Char(_) => 12,
    }
}

/// The level of the operator.
pub fn operator_level(op: BinOp) -> u8
    ensures level { result ≡ operator_level_of op }
    ensures bound { result < 9 }
{
    match op {
        BinOp::Or => 4,
        BinOp::And => 5,
        BinOp::Eq | BinOp::Ne | BinOp::Lt | BinOp::Le | BinOp::Gt | BinOp::Ge => 6,
        BinOp::Add | BinOp::Sub => 7,
        BinOp::Mul | BinOp::Div | BinOp::Rem => 8,
    }
}

/// The level of what stands on the operator's left.
pub fn left_level(op: BinOp) -> u8
    ensures { result ≡ left_level_of op }
{
    let level = operator_level(op);
    if level == 6 { 7 } else { level }
}

/// The name of the data type.
pub fn data_word(ty: DataTy) -> &'static [u8]
    ensures { result.now ≡ data_word_of ty }
{
    match ty {
        DataTy::Int => b"int",
        DataTy::Bool => b"bool",
        DataTy::Char => b"char",
    }
}

/// The name that the prelude has for output of the kind.
pub fn put_word(kind: PutKind) -> &'static [u8]
    ensures { result.now ≡ put_word_of kind }
{
    match kind {
        PutKind::Int => b"putint",
        PutKind::Char => b"putchar",
        PutKind::Bool => b"putbool",
    }
}
