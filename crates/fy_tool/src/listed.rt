//! Lists of units: files with the name of a file on each line.

ghost use Rattle.std.specs.Prelude.{◌≡◌, ◌==◌, IfOk, map};
ghost use Rattle.std.specs.List.{slice_split};
ghost use Rattle.fy_tool.specs.Working.{AreTexts, IsList};

use fy_base::OutOfMemory;
use std::alloc::{AllocError, Global};

// The most bytes of a list.
const MOST_LIST: usize = 65_536;

// The most names on a list.
const MOST_UNITS: usize = 64;

// Whether the byte ends a line.
fn ends_line(byte: &u8) -> bool
    ensures { result ≡ (byte.now == 10) }
{
    *byte == b'\n'
}

// What stands between bytes 10.
fn lines_in<'a>(alloc: Global, bytes: &'a [u8]) -> Result<Vec<&'a [u8]>, AllocError>
    ensures { IfOk result (λ lines. map (λ line. line.now) lines.items ≡ slice_split (λ b. b == 10) bytes.now) }
{
    bytes.split(|byte| ends_line(byte)).collect(alloc)
}

// The lines as texts, if each is one of a byte or more.
fn names_in<'a>(alloc: Global, lines: &[&'a [u8]]) -> Result<Option<Vec<&'a str>>, OutOfMemory>
    ensures { IfOk result (AreTexts (map (λ line. line.now) lines.now)) }
{
    let mut names = Vec::new(alloc);
    for line in lines {
        if line.is_empty() {
            return Ok(None);
        }
        match str::from_utf8(line) {
            Ok(name) => names.push(name)?,
            Err(_) => return Ok(None),
        }
    }
    Ok(Some(names))
}

/// The names on a list of units, if the bytes are one: 1 to 64 names, each of which ends with byte 10.
pub(crate) fn names_on<'a>(
    alloc: Global,
    bytes: &'a [u8],
) -> Result<Option<Vec<&'a str>>, OutOfMemory>
    ensures { IfOk result (IsList bytes.now) }
{
    if bytes.len() > MOST_LIST {
        return Ok(None);
    }
    let Some(text) = bytes.strip_suffix(b"\n") else {
        return Ok(None);
    };
    let lines = lines_in(alloc, text)?;
    let lines = lines.as_slice();
    if lines.len() > MOST_UNITS {
        return Ok(None);
    }
    names_in(alloc, lines)
}
