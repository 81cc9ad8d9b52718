//! The text of a derivation.

ghost use Rattle.std.specs.Prelude.{◌≡◌, ◌++◌, IfOk, OnOk, decimal};
ghost use Rattle.fy_derive.specs.Print.{derivation_text, derivations_text, line, type_line};
ghost use Rattle.fy_types.specs.Reading.{plain_type};
ghost use Rattle.fy_derive.specs.Reading.{plain_derivation, plain_derivations};

use crate::derivation::{Derivation, DerivationList};
use fy_base::{OutOfMemory, Text};
use fy_types::{Names, Ty, print_ty};
use std::alloc::Global;

/// The text of the derivation, in preorder: each node's own parts stand on one line with one blank
/// between them, and each line ends with byte 10. A name past the list's end gives no byte.
pub fn print_derivation(alloc: Global, names: &Names, d: &Derivation) -> Result<Text, OutOfMemory>
    ensures { IfOk result (λ text. text ≡ derivation_text names.now (plain_derivation d.now)) }
{
    let mut text = Text::new(alloc);
    put_derivation(alloc, &mut text, names, d)?;
    Ok(text)
}

#[cycle(print)]
fn put_derivation(
    alloc: Global,
    text: &mut Text,
    names: &Names,
    d: &Derivation,
) -> Result<(), OutOfMemory>
    ensures { OnOk result (text.new ≡ text.old ++ derivation_text names.now (plain_derivation d.now)) }
{
    match d {
        Derivation::Ns => put(text, b"ns\n"),
        Derivation::Sub(ty, inner) => {
            put_type(alloc, text, names, ty)?;
            put_derivation(alloc, text, names, inner)
        }
        Derivation::Meet(list) => {
            put_count(text, b"meet ", list.len())?;
            put_derivations(alloc, text, names, list)
        }
        Derivation::Alt(index, inner) => {
            put_count(text, b"alt ", *index as usize)?;
            put_derivation(alloc, text, names, inner)
        }
        Derivation::Left(inner) => {
            put(text, b"left\n")?;
            put_derivation(alloc, text, names, inner)
        }
        Derivation::Right(inner) => {
            put(text, b"right\n")?;
            put_derivation(alloc, text, names, inner)
        }
        Derivation::Rule(list) => {
            put_count(text, b"rule ", list.len())?;
            put_derivations(alloc, text, names, list)
        }
    }
}

#[cycle(print)]
fn put_derivations(
    alloc: Global,
    text: &mut Text,
    names: &Names,
    list: &DerivationList,
) -> Result<(), OutOfMemory>
    ensures { OnOk result (text.new ≡ text.old ++ derivations_text names.now (plain_derivations list.now)) }
{
    for d in list.as_slice() {
        put_derivation(alloc, text, names, d)?;
    }
    Ok(())
}

fn put_type(alloc: Global, text: &mut Text, names: &Names, ty: &Ty) -> Result<(), OutOfMemory>
    ensures { OnOk result (text.new ≡ text.old ++ type_line names.now (plain_type ty.now)) }
{
    let written = print_ty(alloc, names, ty)?;
    put(text, b"sub [")?;
    put(text, written.as_slice())?;
    put(text, b"]\n")
}

fn put_count(text: &mut Text, word: &[u8], count: usize) -> Result<(), OutOfMemory>
    ensures { OnOk result (text.new ≡ text.old ++ line (word.now ++ decimal count)) }
{
    put(text, word)?;
    put(text, itoa::Buffer::new().format(count).as_bytes())?;
    put(text, b"\n")
}

fn put(text: &mut Text, bytes: &[u8]) -> Result<(), OutOfMemory>
    ensures { OnOk result (text.new ≡ text.old ++ bytes.now) }
{
    for byte in bytes {
        text.push(*byte)?;
    }
    Ok(())
}
