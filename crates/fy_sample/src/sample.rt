//! The text of a sample, statement by statement, and the summary of its run.

ghost use Rattle.std.specs.Prelude.{◌≡◌, ◌++◌, OnOk, IfOk};
ghost use Rattle.std.specs.List.{flat_map};
ghost use Rattle.fy_sample.specs.Sample.{next, statement, sample_text, summary};

use arrayvec::ArrayString;
use fy_base::{OutOfMemory, Text};
use std::alloc::Global;

/// The text of a summary.
pub type SummaryText = ArrayString<48>;

// The number that follows.
fn next(x: u32) -> u32
    ensures { result ≡ next x }
{
    x.wrapping_mul(1_664_525).wrapping_add(1_013_904_223)
}

// Adds the pieces, one after another.
fn push_pieces(text: &mut Vec<u8>, pieces: &[&str]) -> Result<(), OutOfMemory>
    ensures { OnOk result (text.new.items ≡ text.old.items ++ flat_map (λ piece. piece.now) pieces.now) }
{
    for piece in pieces {
        text.extend_from_slice(piece.as_bytes())?;
    }
    Ok(())
}

// Adds the statement that the number tells.
fn push_statement(text: &mut Vec<u8>, x: u32) -> Result<(), OutOfMemory>
    ensures { OnOk result (text.new.items ≡ text.old.items ++ statement x) }
{
    let u = x / 65_536;
    let mut digits = itoa::Buffer::new();
    let k = digits.format(u / 4 % 100);
    match u % 4 {
        0 => push_pieces(text, &["a := f (b + ", k, ")"]),
        1 => push_pieces(text, &["b := (a * 3 + ", k, ") rem 1000"]),
        2 => push_pieces(text, &["if a < b then a := a + ", k, " else b := b + ", k]),
        _ => push_pieces(
            text,
            &[
                "new i:int := 0 in while i < ",
                k,
                " do (a := f a; i := i + 1)",
            ],
        ),
    }
}

/// The text of the sample with this number and so many statements.
pub fn sample_text(alloc: Global, number: u32, size: u32) -> Result<Text, OutOfMemory>
    ensures { IfOk result (λ text. text ≡ sample_text number size) }
{
    let mut text = Vec::from_slice(
        alloc,
        b"new a:int := 0 in new b:int := 0 in let f == \\x: int | intvar. x + 1 in (",
    )?;
    let mut x = number;
    for _ in 0..size {
        x = next(x);
        push_statement(&mut text, x)?;
        text.extend_from_slice(b"; ")?;
    }
    text.extend_from_slice(b"putint a; putchar ' '; putint b)")?;
    Ok(Text::from_vec(text))
}

/// What is written behind the output of a sample's run: its status, and how many bytes the program
/// wrote. It takes no memory.
pub fn summary(status: u8, bytes: u64) -> SummaryText
    ensures { result.bytes ≡ summary status bytes }
{
    let mut text = ArrayString::new();
    text.push_str("\nstatus ");
    text.push_str(itoa::Buffer::new().format(status));
    text.push_str(" bytes ");
    text.push_str(itoa::Buffer::new().format(bytes));
    text.push_str("\n");
    text
}
