//! Texts for LaTeX.

ghost use Rattle.std.specs.Prelude.{◌≡◌, ◌++◌, OnOk};
ghost use Rattle.fy_types.specs.Words.{is_digit as is_digit_of, is_letter as is_letter_of};
ghost use Rattle.fy_tree.specs.Lines.{added_fy, escaped, fy, is_joined as is_joined_of, is_one_of as is_one_of_these, is_plain as is_plain_of, letter};

use fy_base::OutOfMemory;
use fy_short::{put, put_number};

const PLAIN_SIGNS: &[u8] = b" ()+-*/=:;,.!?|<>'\"[]@`";

const JOINED_SIGNS: &[u8] = b"-<>";

fn is_letter(byte: u8) -> bool
    ensures { result ≡ is_letter_of byte }
{
    matches!(byte, b'A'..=b'Z' | b'a'..=b'z')
}

fn is_digit(byte: u8) -> bool
    ensures { result ≡ is_digit_of byte }
{
    matches!(byte, b'0'..=b'9')
}

fn is_one_of(signs: &[u8], byte: u8) -> bool
    ensures { result ≡ is_one_of_these signs.now byte }
{
    for sign in signs {
        if byte == *sign {
            return true;
        }
    }
    false
}

// Whether the byte stands for itself.
fn is_plain(byte: u8) -> bool
    ensures { result ≡ is_plain_of byte }
{
    is_letter(byte) || is_digit(byte) || is_one_of(PLAIN_SIGNS, byte)
}

// Whether LaTeX would make one sign of two such bytes.
fn is_joined(last: u8, byte: u8) -> bool
    ensures { result ≡ is_joined_of last byte }
{
    byte == last && is_one_of(JOINED_SIGNS, byte)
}

fn put_letter(text: &mut Vec<u8>, byte: u8) -> Result<(), OutOfMemory>
    ensures { OnOk result (text.new.items ≡ text.old.items ++ letter byte) }
{
    if is_plain(byte) {
        return put(text, &[byte]);
    }
    put(text, b"\\char")?;
    put_number(text, byte as usize)?;
    put(text, b"{}")
}

fn put_escaped(text: &mut Vec<u8>, bytes: &[u8]) -> Result<(), OutOfMemory>
    ensures { OnOk result (text.new.items ≡ text.old.items ++ escaped 0 bytes.now) }
{
    let mut last = 0;
    for byte in bytes {
        if is_joined(last, *byte) {
            put(text, b"{}")?;
        }
        put_letter(text, *byte)?;
        last = *byte;
    }
    Ok(())
}

/// Puts `\fy{..}` with the bytes behind the text.
pub(crate) fn put_fy(text: &mut Vec<u8>, bytes: &[u8]) -> Result<(), OutOfMemory>
    ensures { OnOk result (text.new.items ≡ text.old.items ++ fy bytes.now) }
{
    put(text, b"\\fy{")?;
    put_escaped(text, bytes)?;
    put(text, b"}")
}

/// Puts what a premise adds, if it adds a name, behind the text.
pub(crate) fn put_added_fy(text: &mut Vec<u8>, added: &[u8]) -> Result<(), OutOfMemory>
    ensures { OnOk result (text.new.items ≡ text.old.items ++ added_fy added.now) }
{
    if added.is_empty() {
        return Ok(());
    }
    put_fy(text, added)?;
    put(text, b"\\vdash ")
}
