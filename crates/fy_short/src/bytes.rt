//! Bytes put behind a text.

ghost use Rattle.std.specs.Prelude.{◌≡◌, ◌≤◌, ◌++◌, decimal, length, take, OnOk};
ghost use Rattle.std.specs.Str.{bytes_eq};
ghost use Rattle.fy_short.specs.Cut.{cut, without_blanks};

use fy_base::OutOfMemory;

/// Puts the bytes behind the text.
pub fn put(text: &mut Vec<u8>, bytes: &[u8]) -> Result<(), OutOfMemory>
    ensures { OnOk result (text.new.items ≡ text.old.items ++ bytes.now) }
{
    text.extend_from_slice(bytes)?;
    Ok(())
}

/// Puts the bytes behind the text, cut to so many: where there are more, the first of them without the blanks at their end,
/// and then ` ..`.
pub fn put_cut(text: &mut Vec<u8>, limit: usize, bytes: &[u8]) -> Result<(), OutOfMemory>
    ensures { OnOk result (text.new.items ≡ text.old.items ++ cut limit bytes.now) }
{
    if bytes.len() <= limit {
        return put(text, bytes);
    }
    let first = &bytes[..limit.saturating_sub(3)];
    put(text, &first[..end_of(first)])?;
    put(text, b" ..")
}

// Where the blanks at the end begin.
#[tactic(auto, using(crate::proofs::BlankLemmas::blanks))]
fn end_of(bytes: &[u8]) -> usize
    ensures within { result ≤ length bytes.now }
    ensures blanks { take result bytes.now ≡ without_blanks bytes.now }
{
    let mut i = bytes.len();
    while i > 0 {
        if bytes[i - 1] != b' ' {
            return i;
        }
        i -= 1;
    }
    0
}

/// Whether the texts are equal.
pub fn is_same(a: &[u8], b: &[u8]) -> bool
    ensures { result ≡ bytes_eq a.now b.now }
{
    a == b
}

/// Puts the number in decimal behind the text.
pub fn put_number(text: &mut Vec<u8>, number: usize) -> Result<(), OutOfMemory>
    ensures { OnOk result (text.new.items ≡ text.old.items ++ decimal number) }
{
    put(text, itoa::Buffer::new().format(number).as_bytes())
}
