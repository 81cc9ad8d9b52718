//! The text of a type.

ghost use Rattle.std.specs.Prelude.{◌≡◌, ◌++◌, IfOk, OnOk};
ghost use Rattle.fy_types.specs.Reading.{plain_type, plain_types};
ghost use Rattle.fy_types.specs.Print.{atom_text, name_text, is_bare, enclosed, type_text, members_text, separator_text};

use crate::names::{Name, Names};
use crate::types::{Atom, Ty, TyList};
use fy_base::{OutOfMemory, Text};
use std::alloc::Global;

/// The text of the type, as `(int -> int) & (len : int)`: ` -> `, ` & ` and ` : ` have one blank on
/// each side, and each direct part that isn't an atom or `ns` stands in parentheses. A name past
/// the list's end gives no byte.
pub fn print_ty(alloc: Global, names: &Names, ty: &Ty) -> Result<Text, OutOfMemory>
    ensures { IfOk result (λ text. text ≡ type_text names.now (plain_type ty.now)) }
{
    let mut text = Text::new(alloc);
    put_ty(&mut text, names, ty)?;
    Ok(text)
}

#[cycle(print)]
fn put_ty(text: &mut Text, names: &Names, ty: &Ty) -> Result<(), OutOfMemory>
    ensures { OnOk result (text.new ≡ text.old ++ type_text names.now (plain_type ty.now)) }
{
    match ty {
        Ty::Ns => put(text, b"ns"),
        Ty::Atom(atom) => put(text, word_of(*atom)),
        Ty::Arrow(domain, rest) => {
            put_part(text, names, domain)?;
            put(text, b" -> ")?;
            put_part(text, names, rest)
        }
        Ty::Field(name, part) => {
            put_name(text, names, *name)?;
            put(text, b" : ")?;
            put_part(text, names, part)
        }
        Ty::Meet(all) => put_members(text, names, all),
    }
}

#[cycle(print)]
fn put_part(text: &mut Text, names: &Names, ty: &Ty) -> Result<(), OutOfMemory>
    ensures { OnOk result (text.new
        ≡ text.old ++ enclosed (plain_type ty.now) (type_text names.now (plain_type ty.now))) }
{
    if is_bare_ty(ty) {
        return put_ty(text, names, ty);
    }
    put(text, b"(")?;
    put_ty(text, names, ty)?;
    put(text, b")")
}

#[cycle(print)]
fn put_members(text: &mut Text, names: &Names, all: &TyList) -> Result<(), OutOfMemory>
    ensures { OnOk result (text.new ≡ text.old ++ members_text names.now (plain_types all.now)) }
{
    let list = all.as_slice();
    for i in 0..list.len() {
        put(text, separator(i))?;
        put_part(text, names, &list[i])?;
    }
    Ok(())
}

fn is_bare_ty(ty: &Ty) -> bool
    ensures { result ≡ is_bare (plain_type ty.now) }
{
    matches!(ty, Ty::Ns | Ty::Atom(_))
}

fn separator(i: usize) -> &'static [u8]
    ensures { result.now ≡ separator_text i }
{
    if i == 0 { b"" } else { b" & " }
}

fn word_of(atom: Atom) -> &'static [u8]
    ensures { result.now ≡ atom_text atom }
{
    match atom {
        Atom::Int => b"int",
        Atom::Bool => b"bool",
        Atom::Char => b"char",
        Atom::Comm => b"comm",
        Atom::Compl => b"compl",
        Atom::IntAcc => b"intacc",
        Atom::BoolAcc => b"boolacc",
        Atom::CharAcc => b"characc",
    }
}

fn put_name(text: &mut Text, names: &Names, name: Name) -> Result<(), OutOfMemory>
    ensures { OnOk result (text.new ≡ text.old ++ name_text names.now name) }
{
    match names.text(name) {
        Some(bytes) => put(text, bytes),
        None => Ok(()),
    }
}

fn put(text: &mut Text, bytes: &[u8]) -> Result<(), OutOfMemory>
    ensures { OnOk result (text.new ≡ text.old ++ bytes.now) }
{
    for byte in bytes {
        text.push(*byte)?;
    }
    Ok(())
}
