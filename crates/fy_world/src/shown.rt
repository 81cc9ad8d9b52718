//! Words of code as they are shown in a trace and in a listing.

ghost use Rattle.std.specs.Prelude.{◌≡◌, ◌<◌, [], ◌∷◌, ◌++◌, IfOk, Option};
ghost use Rattle.fy_world.specs.Shown.{hex_digit, hex_text, word_text};
ghost use Rattle.rv_insn.specs.Encoding.{IsReadingOf};
ghost use Rattle.rv_insn.specs.declared.instructions.Insn.{Insn};

use fy_base::OutOfMemory;
use rv_insn::{decode, print_insn};
use rv_machine::Fetched;
use std::alloc::Global;

// A hexadecimal digit, in small letters.
fn hex_digit(digit: u8) -> u8
    requires { digit < 16 }
    ensures { result ≡ hex_digit digit }
{
    if digit < 10 {
        b'0' + digit
    } else {
        b'a' + (digit - 10)
    }
}

// The eight lowest hexadecimal digits of a number, the highest of them first.
fn hex_text(number: u64) -> [u8; 8]
    ensures { result ≡ hex_text number }
{
    [
        hex_digit((number / 0x1000_0000 % 16) as u8),
        hex_digit((number / 0x100_0000 % 16) as u8),
        hex_digit((number / 0x10_0000 % 16) as u8),
        hex_digit((number / 0x1_0000 % 16) as u8),
        hex_digit((number / 0x1000 % 16) as u8),
        hex_digit((number / 0x100 % 16) as u8),
        hex_digit((number / 0x10 % 16) as u8),
        hex_digit((number % 16) as u8),
    ]
}

/// A fetched word as `PC WORD TEXT` and byte 10: eight hexadecimal digits for each of the address
/// and the word, and the word's print, or `illegal` where it belongs to no instruction.
pub fn line_of(alloc: Global, fetched: Fetched) -> Result<Vec<u8>, OutOfMemory>
    ensures { IfOk result (λ line. (insn : Option Insn) × IsReadingOf fetched.word insn × (line.items ≡ word_text fetched insn ++ 10 ∷ [])) }
{
    let mut line = Vec::with_capacity(alloc, 64)?;
    line.extend_from_slice(&hex_text(fetched.pc))?;
    line.push(b' ')?;
    line.extend_from_slice(&hex_text(fetched.word.into()))?;
    line.push(b' ')?;
    match decode(fetched.word) {
        Some(insn) => line.extend_from_slice(print_insn(alloc, &insn)?.as_slice())?,
        None => line.extend_from_slice(b"illegal")?,
    }
    line.push(b'\n')?;
    Ok(line)
}
