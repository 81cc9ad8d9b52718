//! The text of units put together.

ghost use Rattle.std.specs.Prelude.{◌≡◌, ◌==◌, ◌&&◌, ◌+◌, ◌++◌, ◌<◌, ◌≤◌, ◌^◌, IfOk, IfSome, IsSome, OnOk, codes, length, map};
ghost use Rattle.fy_base.specs.Outside.{Bytes};
ghost use Rattle.fy_lexer.specs.Spot.{past_byte};
ghost use Rattle.fy_link.specs.Joined.{IsTail, joined_text};
ghost use Rattle.fy_link.specs.Read.{plain_part};

use fy_base::{OutOfMemory, Place};
use std::alloc::Global;

/// A unit's name, and the bytes behind its header's `==`.
#[derive(Clone, Copy, Debug)]
pub(crate) struct Part<'a> {
    pub name: &'a [u8],
    pub tail: &'a [u8],
}

fn is_same(a: Place, b: Place) -> bool
    ensures { result ≡ ((a.line == b.line) && (a.col == b.col)) }
{
    a.line == b.line && a.col == b.col
}

// The place behind a byte.
fn behind(at: Place, byte: u8) -> Place
    requires line { at.line < 2 ^ 31 }
    requires col { at.col < 2 ^ 31 }
    ensures place { result ≡ past_byte at byte }
    ensures line { result.line ≤ at.line + 1 }
    ensures col { result.col ≤ at.col + 1 }
{
    if byte == b'\n' {
        at.next_line()
    } else {
        at.columns_on(1)
    }
}

/// The bytes behind the two of the `==` at that place of a text, if it has that place.
pub(crate) fn tail(text: &[u8], at: Place) -> Option<&[u8]>
    requires short { length text.now < 2 ^ 31 }
    requires tail { (rest : Bytes) × IsTail text.now at rest }
    ensures tail { IfSome result (λ rest. IsTail text.now at rest.now) }
    ensures some { IsSome result }
{
    let mut here = Place::first();
    for i in 0..text.len() {
        if is_same(here, at) {
            return Some(&text[i + 2..]);
        }
        here = behind(here, text[i]);
    }
    None
}

fn put(text: &mut Vec<u8>, bytes: &[u8]) -> Result<(), OutOfMemory>
    ensures { OnOk result (text.new.items ≡ text.old.items ++ bytes.now) }
{
    text.extend_from_slice(bytes)?;
    Ok(())
}

// `let NAME == (..) in `
fn put_definition(text: &mut Vec<u8>, part: &Part<'_>) -> Result<(), OutOfMemory>
    ensures { OnOk result (text.new.items ≡ text.old.items ++ (codes "let " ++ (part.now.name.now ++ (codes " == (" ++ (part.now.tail.now ++ codes ") in "))))) }
{
    put(text, b"let ")?;
    put(text, part.name)?;
    put(text, b" == (")?;
    put(text, part.tail)?;
    put(text, b") in ")
}

/// `let NAME == (..) in ` for each part but the last, and `(..)` for the last.
pub(crate) fn joined_text(alloc: Global, parts: &[Part<'_>]) -> Result<Vec<u8>, OutOfMemory>
    ensures { IfOk result (λ text. text.items ≡ joined_text (map plain_part parts.now)) }
{
    let mut text = Vec::new(alloc);
    let [definitions @ .., last] = parts else {
        return Ok(text);
    };
    for part in definitions {
        put_definition(&mut text, part)?;
    }
    put(&mut text, b"(")?;
    put(&mut text, last.tail)?;
    put(&mut text, b")")?;
    Ok(text)
}
