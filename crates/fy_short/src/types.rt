//! The short text of a type.

ghost use Rattle.std.specs.Prelude.{◌≡◌, [], ◌++◌, IfOk, OnOk, option_copied};
ghost use Rattle.fy_types.specs.Print.{atom_text, name_text};
ghost use Rattle.fy_types.specs.Types.{atom as atom_type};
ghost use Rattle.fy_types.specs.Reading.{plain_type, plain_types};
ghost use Rattle.fy_short.specs.ShortTypes.{
  alternatives_text,
  in_parentheses_unless,
  is_arrow as is_arrow_type,
  is_int as is_int_type,
  is_length as is_length_type,
  is_short as is_short_type,
  meet_name as meet_name_of,
  predefined_name as predefined_name_of,
  sequence_name as sequence_name_of,
  short_members,
  short_type,
  variable_name as variable_name_of,
};

use crate::bytes::put;
use fy_base::{OutOfMemory, Text};
use fy_types::{Atom, Name, Names, Ty, TyList};
use std::alloc::Global;

/// The short text of the type, as `int -> intvar -> comm`: the six predefined names stand for just their types, a field is
/// `i: A`, and an arrow stands behind `->` without parentheses. A name past the list's end gives no byte.
pub fn print_short_type(alloc: Global, names: &Names, ty: &Ty) -> Result<Text, OutOfMemory>
    ensures { IfOk result (λ text. text ≡ short_type names.now (plain_type ty.now)) }
{
    let mut text = Vec::new(alloc);
    put_type(&mut text, names, ty)?;
    Ok(Text::from_vec(text))
}

/// Puts the short text of the type behind the text.
#[cycle(types)]
pub fn put_type(text: &mut Vec<u8>, names: &Names, ty: &Ty) -> Result<(), OutOfMemory>
    ensures { OnOk result (text.new.items ≡ text.old.items ++ short_type names.now (plain_type ty.now)) }
{
    match ty {
        Ty::Ns => put(text, b"ns"),
        Ty::Atom(atom) => put(text, word_of(*atom)),
        Ty::Arrow(domain, rest) => {
            put_unless(text, names, is_short(domain), domain)?;
            put(text, b" -> ")?;
            put_unless(text, names, is_arrow(rest) || is_short(rest), rest)
        }
        Ty::Field(name, part) => {
            put_name(text, names, *name)?;
            put(text, b": ")?;
            put_unless(text, names, is_short(part), part)
        }
        Ty::Meet(all) => match predefined_name(all) {
            Some(name) => put(text, name),
            None => put_members(text, names, all),
        },
    }
}

// A part, in parentheses unless it stands without.
#[cycle(types)]
fn put_unless(text: &mut Vec<u8>, names: &Names, bare: bool, ty: &Ty) -> Result<(), OutOfMemory>
    ensures { OnOk result (text.new.items
        ≡ text.old.items ++ in_parentheses_unless bare (short_type names.now (plain_type ty.now))) }
{
    if bare {
        return put_type(text, names, ty);
    }
    put(text, b"(")?;
    put_type(text, names, ty)?;
    put(text, b")")
}

#[cycle(types)]
fn put_members(text: &mut Vec<u8>, names: &Names, all: &TyList) -> Result<(), OutOfMemory>
    ensures { OnOk result (text.new.items ≡ text.old.items ++ short_members names.now [] (plain_types all.now)) }
{
    let mut lead: &[u8] = b"";
    for ty in all.as_slice() {
        put(text, lead)?;
        put_unless(text, names, is_short(ty), ty)?;
        lead = b" & ";
    }
    Ok(())
}

/// Puts the alternatives of an abstraction behind the text.
pub fn put_alternatives(
    text: &mut Vec<u8>,
    names: &Names,
    alternatives: &TyList,
) -> Result<(), OutOfMemory>
    ensures { OnOk result (text.new.items
        ≡ text.old.items ++ alternatives_text names.now [] (plain_types alternatives.now)) }
{
    let mut lead: &[u8] = b"";
    for ty in alternatives.as_slice() {
        put(text, lead)?;
        put_type(text, names, ty)?;
        lead = b" | ";
    }
    Ok(())
}

/// Puts the name behind the text.
pub fn put_name(text: &mut Vec<u8>, names: &Names, name: Name) -> Result<(), OutOfMemory>
    ensures { OnOk result (text.new.items ≡ text.old.items ++ name_text names.now name) }
{
    put(text, name_bytes(names, name))
}

fn is_arrow(ty: &Ty) -> bool
    ensures { result ≡ is_arrow_type (plain_type ty.now) }
{
    matches!(ty, Ty::Arrow(..))
}

// Whether the type stands without parentheses beside other parts.
fn is_short(ty: &Ty) -> bool
    ensures { result ≡ is_short_type (plain_type ty.now) }
{
    match ty {
        Ty::Ns | Ty::Atom(_) => true,
        Ty::Arrow(..) | Ty::Field(..) => false,
        Ty::Meet(all) => predefined_name(all).is_some(),
    }
}

// The predefined name of a meet.
#[tactic(auto, using(crate::proofs::TypeLemmas::pairs))]
fn predefined_name(all: &TyList) -> Option<&'static [u8]>
    ensures { option_copied result ≡ predefined_name_of (plain_types all.now) }
{
    let types = all.as_slice();
    if types.len() != 2 {
        return None;
    }
    meet_name(&types[0], &types[1])
}

fn meet_name(first: &Ty, second: &Ty) -> Option<&'static [u8]>
    ensures { option_copied result ≡ meet_name_of (plain_type first.now) (plain_type second.now) }
{
    match first {
        Ty::Atom(value) => match second {
            Ty::Atom(acceptor) => variable_word(*value, *acceptor),
            _ => None,
        },
        Ty::Arrow(domain, rest) => {
            if is_int(domain) && is_int_length(second) {
                sequence_name(rest)
            } else {
                None
            }
        }
        _ => None,
    }
}

fn is_int(ty: &Ty) -> bool
    ensures { result ≡ is_int_type (plain_type ty.now) }
{
    matches!(ty, Ty::Atom(Atom::Int))
}

// Whether the type is `len : int`.
fn is_int_length(ty: &Ty) -> bool
    ensures { result ≡ is_length_type (plain_type ty.now) }
{
    match ty {
        Ty::Field(0, part) => is_int(part),
        _ => false,
    }
}

/// The name of the variables that take the atom's data.
pub fn variable_word(value: Atom, acceptor: Atom) -> Option<&'static [u8]>
    ensures { option_copied result ≡ variable_name_of value acceptor }
{
    match (value, acceptor) {
        (Atom::Int, Atom::IntAcc) => Some(b"intvar"),
        (Atom::Bool, Atom::BoolAcc) => Some(b"boolvar"),
        (Atom::Char, Atom::CharAcc) => Some(b"charvar"),
        _ => None,
    }
}

fn sequence_name(part: &Ty) -> Option<&'static [u8]>
    ensures { option_copied result ≡ sequence_name_of (plain_type part.now) }
{
    match part {
        Ty::Atom(atom) => sequence_word(*atom),
        _ => None,
    }
}

/// The name of the sequences of the atom's data.
pub fn sequence_word(atom: Atom) -> Option<&'static [u8]>
    ensures { option_copied result ≡ sequence_name_of (atom_type atom) }
{
    match atom {
        Atom::Int => Some(b"intseq"),
        Atom::Bool => Some(b"boolseq"),
        Atom::Char => Some(b"charseq"),
        _ => None,
    }
}

/// The word of the atom.
pub fn word_of(atom: Atom) -> &'static [u8]
    ensures { result.now ≡ atom_text atom }
{
    match atom {
        Atom::Int => b"int",
        Atom::Bool => b"bool",
        Atom::Char => b"char",
        Atom::Comm => b"comm",
        Atom::Compl => b"compl",
        Atom::IntAcc => b"intacc",
        Atom::BoolAcc => b"boolacc",
        Atom::CharAcc => b"characc",
    }
}

/// The text of the name, and nothing for a number past the list's end.
pub fn name_bytes(names: &Names, name: Name) -> &[u8]
    ensures { result.now ≡ name_text names.now name }
{
    match names.text(name) {
        Some(text) => text,
        None => b"",
    }
}
