//! The short texts of types of a table. Such a type may be far larger than its number, so a text ends at a bound.

ghost use Rattle.std.specs.Prelude.{◌≡◌, ◌<◌, [], ◌++◌, true, OnOk, option_copied, take};
ghost use Rattle.fy_types.specs.Types.{atom as atom_type};
ghost use Rattle.fy_derive.specs.Shown.{shown, total};
ghost use Rattle.fy_derive.specs.Tables.{in_front, is_meet};
ghost use Rattle.fy_short.specs.Cut.{cut};
ghost use Rattle.fy_short.specs.ShortTypes.{in_parentheses_unless, is_arrow, is_int, is_length, is_short, meet_name, members_in, predefined_name, sequence_name, short_members, short_type};

use fy_base::OutOfMemory;
use fy_derive::{TypeNode, TypeTable};
use fy_short::{put, put_cut, put_name, sequence_word, variable_word, word_of};
use fy_types::{Atom, Names};
use std::alloc::Global;

/// The bytes to which types and phrases in a line are cut.
pub(crate) const LINE_PART: usize = 60;

/// Puts the short text of the type with the number behind the text, cut to 60 bytes.
pub fn put_cut_type(
    alloc: Global,
    text: &mut Vec<u8>,
    names: &Names,
    table: &TypeTable,
    number: usize,
) -> Result<(), OutOfMemory>
    requires { number < total table.now }
    ensures { OnOk result (text.new.items ≡ text.old.items ++ cut 60 (short_type names.now (shown table.now number))) }
{
    let mut whole = Vec::new(alloc);
    put_type_within(&mut whole, names, table, number, LINE_PART + 1)?;
    put_cut(text, LINE_PART, &whole)
}

// The type's text behind the text, at least as far as that many bytes in all.
#[cycle(table_types)]
fn put_type_within(
    text: &mut Vec<u8>,
    names: &Names,
    table: &TypeTable,
    number: usize,
    most: usize,
) -> Result<(), OutOfMemory>
    requires { number < total table.now }
    ensures { OnOk result (take most text.new.items ≡ take most (text.old.items ++ short_type names.now (shown table.now number))) }
{
    if text.len() >= most {
        return Ok(());
    }
    match table.node(number) {
        TypeNode::Ns => put(text, b"ns"),
        TypeNode::Atom(atom) => put(text, word_of(atom)),
        TypeNode::Arrow(domain, rest) => {
            put_unless(text, names, table, is_short_in(table, domain), domain, most)?;
            put(text, b" -> ")?;
            let bare = is_arrow_in(table, rest) || is_short_in(table, rest);
            put_unless(text, names, table, bare, rest, most)
        }
        TypeNode::Field(name, part) => {
            put_name(text, names, name)?;
            put(text, b": ")?;
            put_unless(text, names, table, is_short_in(table, part), part, most)
        }
        TypeNode::NoTypes => Ok(()),
        TypeNode::AndType(first, rest) => match name_in(table, first, rest) {
            Some(name) => put(text, name),
            None => put_members(text, names, table, number, most),
        },
    }
}

#[cycle(table_types)]
fn put_unless(
    text: &mut Vec<u8>,
    names: &Names,
    table: &TypeTable,
    bare: bool,
    number: usize,
    most: usize,
) -> Result<(), OutOfMemory>
    requires { number < total table.now }
    ensures { OnOk result (take most text.new.items
        ≡ take most (text.old.items ++ in_parentheses_unless bare (short_type names.now (shown table.now number)))) }
{
    if bare {
        return put_type_within(text, names, table, number, most);
    }
    put(text, b"(")?;
    put_type_within(text, names, table, number, most)?;
    put(text, b")")
}

// The members of a meet, until the text is so long.
#[cycle(table_types)]
fn put_members(
    text: &mut Vec<u8>,
    names: &Names,
    table: &TypeTable,
    number: usize,
    most: usize,
) -> Result<(), OutOfMemory>
    requires { number < total table.now }
    ensures { OnOk result (take most text.new.items
        ≡ take most (text.old.items ++ short_members names.now [] (members_in (shown table.now number)))) }
{
    let mut lead: &[u8] = b"";
    let mut rest = number;
    while text.len() < most {
        let TypeNode::AndType(first, behind) = table.node(rest) else {
            return Ok(());
        };
        put(text, lead)?;
        put_unless(text, names, table, is_short_in(table, first), first, most)?;
        lead = b" & ";
        rest = behind;
    }
    Ok(())
}

#[tactic(auto, using(crate::proofs::NodeLemmas::node_rules))]
fn is_arrow_in(table: &TypeTable, number: usize) -> bool
    requires { number < total table.now }
    ensures { result ≡ is_arrow (shown table.now number) }
{
    match table.node(number) {
        TypeNode::Arrow(..) => true,
        _ => false,
    }
}

#[tactic(auto, using(crate::proofs::NodeLemmas::node_rules))]
fn is_short_in(table: &TypeTable, number: usize) -> bool
    requires { number < total table.now }
    ensures { result ≡ is_short (shown table.now number) }
{
    match table.node(number) {
        TypeNode::Ns | TypeNode::Atom(_) => true,
        TypeNode::Arrow(..) | TypeNode::Field(..) | TypeNode::NoTypes => false,
        TypeNode::AndType(first, rest) => name_in(table, first, rest).is_some(),
    }
}

// The predefined name of a meet of this member and those behind it.
#[tactic(auto, using(crate::proofs::NodeLemmas::node_rules))]
fn name_in(table: &TypeTable, first: usize, rest: usize) -> Option<&'static [u8]>
    requires first { first < total table.now }
    requires rest { rest < total table.now }
    ensures { option_copied result ≡ predefined_name (members_in (in_front (shown table.now first) (shown table.now rest))) }
{
    match table.node(rest) {
        TypeNode::AndType(second, end) => name_before(table, first, second, end),
        _ => None,
    }
}

// The same of two members and those behind them.
#[tactic(auto, using(crate::proofs::NodeLemmas::node_rules))]
fn name_before(table: &TypeTable, first: usize, second: usize, end: usize) -> Option<&'static [u8]>
    requires first { first < total table.now }
    requires second { second < total table.now }
    requires end { end < total table.now }
    requires meet { is_meet (shown table.now end) ≡ true }
    ensures { option_copied result
        ≡ predefined_name (members_in (in_front (shown table.now first) (in_front (shown table.now second) (shown table.now end)))) }
{
    match table.node(end) {
        TypeNode::NoTypes => name_of_two(table, first, second),
        _ => None,
    }
}

#[tactic(auto, using(crate::proofs::NodeLemmas::node_rules))]
fn name_of_two(table: &TypeTable, first: usize, second: usize) -> Option<&'static [u8]>
    requires first { first < total table.now }
    requires second { second < total table.now }
    ensures { option_copied result ≡ meet_name (shown table.now first) (shown table.now second) }
{
    match table.node(first) {
        TypeNode::Atom(value) => variable_name_in(table, value, second),
        TypeNode::Arrow(domain, part) => {
            if is_int_in(table, domain) && is_length_in(table, second) {
                sequence_name_in(table, part)
            } else {
                None
            }
        }
        _ => None,
    }
}

// The name of the variables of such values, where the type is their acceptor.
#[tactic(auto, using(crate::proofs::NodeLemmas::node_rules))]
fn variable_name_in(table: &TypeTable, value: Atom, number: usize) -> Option<&'static [u8]>
    requires { number < total table.now }
    ensures { option_copied result ≡ meet_name (atom_type value) (shown table.now number) }
{
    match table.node(number) {
        TypeNode::Atom(acceptor) => variable_word(value, acceptor),
        _ => None,
    }
}

#[tactic(auto, using(crate::proofs::NodeLemmas::node_rules))]
fn sequence_name_in(table: &TypeTable, number: usize) -> Option<&'static [u8]>
    requires { number < total table.now }
    ensures { option_copied result ≡ sequence_name (shown table.now number) }
{
    match table.node(number) {
        TypeNode::Atom(atom) => sequence_word(atom),
        _ => None,
    }
}

#[tactic(auto, using(crate::proofs::NodeLemmas::node_rules))]
fn is_int_in(table: &TypeTable, number: usize) -> bool
    requires { number < total table.now }
    ensures { result ≡ is_int (shown table.now number) }
{
    match table.node(number) {
        TypeNode::Atom(atom) => is_int_atom(atom),
        _ => false,
    }
}

fn is_int_atom(atom: Atom) -> bool
    ensures { result ≡ is_int (atom_type atom) }
{
    match atom {
        Atom::Int => true,
        Atom::Bool
        | Atom::Char
        | Atom::Comm
        | Atom::Compl
        | Atom::IntAcc
        | Atom::BoolAcc
        | Atom::CharAcc => false,
    }
}

#[tactic(auto, using(crate::proofs::NodeLemmas::node_rules))]
fn is_length_in(table: &TypeTable, number: usize) -> bool
    requires { number < total table.now }
    ensures { result ≡ is_length (shown table.now number) }
{
    match table.node(number) {
        TypeNode::Field(name, part) => name == 0 && is_int_in(table, part),
        _ => false,
    }
}
