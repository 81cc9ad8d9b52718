//! The lines of a reason.

ghost use Rattle.std.specs.Prelude.{◌≡◌, ◌+◌, ◌<◌, ◌^◌, [], ◌++◌, codes, decimal, map, OnOk};
ghost use Rattle.fy_types.specs.Reading.{plain_type, types_from};
ghost use Rattle.fy_phrase.specs.Reads.{reads};
ghost use Rattle.fy_phrase.specs.Tree.{place_of};
ghost use Rattle.fy_derive.specs.Derivations.{nodes};
ghost use Rattle.fy_derive.specs.Reading.{plain_derivation};
ghost use Rattle.fy_derive.specs.Shown.{shown, total};
ghost use Rattle.fy_reasons.specs.Expected.{lacking as lacking_of};
ghost use Rattle.fy_reasons.specs.Stopping.{stop_read, why_read, IsStopIn};
ghost use Rattle.fy_show.specs.Reading.{known_in, scope_in};
ghost use Rattle.fy_told.specs.ReasonTexts.{
  alternative_texts,
  alternatives_line,
  alternatives_of,
  form_line,
  kind_text,
  lacking_text,
  left_line,
  listed,
  no_command_lines,
  node_text,
  not_below_line,
  phrase_told,
  place_text,
  quoted,
  raised_line,
  raised_to,
  reason_lines,
  right_line,
  stop_lines,
  taken_right_lines,
  told,
  type_told,
  whole_line,
};
ghost use Rattle.fy_derive.specs.Kinds.{kind_of};

use crate::form_words::{form_word, put_rule, put_wanted};
use crate::refusal::right_of;
use crate::table_types::{LINE_PART, put_cut_type};
use crate::types_told::put_other_types;
use crate::wheres::put_where;
use fy_base::{OutOfMemory, Place};
use fy_derive::{Demand, Derivation, TypeNode, TypeTable, demand_of, is_below, number_of_type};
use fy_phrase::Phrase;
use fy_reasons::{Stopped, Why, lacking};
use fy_short::{print_short_type, put, put_cut, put_name, put_number};
use fy_show::{Manner, View, in_manner, print_shown};
use fy_types::{Atom, Ty};

/// Puts the lines of the stop behind the text. The view has the names in scope at its node.
pub(crate) fn put_stop(
    text: &mut Vec<u8>,
    table: &mut TypeTable,
    view: &View<'_, '_>,
    stop: &Stopped<'_>,
) -> Result<(), OutOfMemory>
    requires stop { IsStopIn table.old stop.now }
    requires room { stop.now.number + nodes (plain_derivation stop.now.node.now) < 2 ^ 32 }
    ensures { OnOk result (text.new.items ≡ text.old.items
        ++ stop_lines (known_in view.now) (scope_in view.now) (stop_read table.old stop.now)) }
{
    let mut names = Vec::new(view.alloc);
    put_where(&mut names, table, view, stop)?;
    put_headline(text, view, stop.node, stop.phrase)?;
    put_reason(text, table, view, stop)?;
    put(text, &names)
}

// The node, its phrase and the phrase's place.
fn put_headline(
    text: &mut Vec<u8>,
    view: &View<'_, '_>,
    node: &Derivation,
    p: &Phrase,
) -> Result<(), OutOfMemory>
    ensures { OnOk result (text.new.items ≡ text.old.items ++ told (quoted (node_text (plain_derivation node.now)) ++ codes " for "
        ++ phrase_told (known_in view.now) (scope_in view.now) (reads p.now) ++ codes " at " ++ place_text (place_of (reads p.now)))) }
{
    put(text, b"  `")?;
    put_node(text, node)?;
    put(text, b"` for ")?;
    put_phrase(text, view, p)?;
    put(text, b" at ")?;
    put_place(text, p.place())?;
    put(text, b"\n")
}

fn put_reason(
    text: &mut Vec<u8>,
    table: &mut TypeTable,
    view: &View<'_, '_>,
    stop: &Stopped<'_>,
) -> Result<(), OutOfMemory>
    requires stop { IsStopIn table.old stop.now }
    requires room { stop.now.number + nodes (plain_derivation stop.now.node.now) < 2 ^ 32 }
    ensures { OnOk result (text.new.items ≡ text.old.items ++ reason_lines (known_in view.now)
        (scope_in view.now) (stop_read table.old stop.now) (why_read table.old stop.now.why)) }
{
    match &stop.why {
        Why::OtherForm => {
            put_form_line(text, stop.phrase)?;
            put(text, b".\n")
        }
        Why::OtherCount => {
            put_form_line(text, stop.phrase)?;
            put(text, b": ")?;
            put_rule(text, stop.phrase)?;
            put(text, b".\n")
        }
        Why::NoAlternative => put_alternatives_line(text, view, stop.phrase),
        Why::FewParts => put(text, b"  A meet has two parts or more.\n"),
        Why::NotBelow(number) => put_not_below_node(text, table, view, *number, stop.node),
        Why::TakenRight(number) => put_taken_right(text, table, view, *number, stop.phrase),
        Why::OtherTypes(done) => {
            put_other_types(text, table, view, stop.number, stop.node, stop.phrase, done)
        }
        Why::NoCommand(number) => put_no_command(text, table, view, *number),
    }
}

// The kind of a node, with its number.
fn put_node(text: &mut Vec<u8>, d: &Derivation) -> Result<(), OutOfMemory>
    ensures { OnOk result (text.new.items ≡ text.old.items ++ node_text (plain_derivation d.now)) }
{
    match d {
        Derivation::Ns => put(text, b"ns"),
        Derivation::Sub(..) => put(text, b"sub"),
        Derivation::Meet(list) => put_counted(text, b"meet ", list.len()),
        Derivation::Alt(index, _) => put_counted(text, b"alt ", *index as usize),
        Derivation::Left(_) => put(text, b"left"),
        Derivation::Right(_) => put(text, b"right"),
        Derivation::Rule(list) => put_counted(text, b"rule ", list.len()),
    }
}

fn put_counted(text: &mut Vec<u8>, word: &[u8], count: usize) -> Result<(), OutOfMemory>
    ensures { OnOk result (text.new.items ≡ text.old.items ++ word.now ++ decimal count) }
{
    put(text, word)?;
    put_number(text, count)
}

// The phrase in quotes, cut.
fn put_phrase(text: &mut Vec<u8>, view: &View<'_, '_>, p: &Phrase) -> Result<(), OutOfMemory>
    ensures { OnOk result (text.new.items ≡ text.old.items ++ phrase_told (known_in view.now) (scope_in view.now) (reads p.now)) }
{
    let whole = print_shown(&in_manner(view, Manner::Whole), p)?;
    put(text, b"`")?;
    put_cut(text, LINE_PART, whole.as_slice())?;
    put(text, b"`")
}

fn put_place(text: &mut Vec<u8>, at: Place) -> Result<(), OutOfMemory>
    ensures { OnOk result (text.new.items ≡ text.old.items ++ place_text at) }
{
    put_number(text, at.line as usize)?;
    put(text, b":")?;
    put_number(text, at.col as usize)
}

/// Puts the type with the number behind the text, cut.
pub(crate) fn put_type(
    text: &mut Vec<u8>,
    table: &TypeTable,
    view: &View<'_, '_>,
    number: usize,
) -> Result<(), OutOfMemory>
    requires { number < total table.now }
    ensures { OnOk result (text.new.items ≡ text.old.items ++ type_told (known_in view.now) (shown table.now number)) }
{
    put_cut_type(view.alloc, text, view.known.names, table, number)
}

fn put_form_line(text: &mut Vec<u8>, p: &Phrase) -> Result<(), OutOfMemory>
    ensures { OnOk result (text.new.items ≡ text.old.items ++ codes "  " ++ form_line (reads p.now)) }
{
    put(text, b"  This is ")?;
    put(text, form_word(p))?;
    put(text, b", which wants ")?;
    put_wanted(text, p)
}

// The alternatives of an abstraction, with their indices.
fn put_alternatives_line(
    text: &mut Vec<u8>,
    view: &View<'_, '_>,
    p: &Phrase,
) -> Result<(), OutOfMemory>
    ensures { OnOk result (text.new.items ≡ text.old.items ++ alternatives_line (known_in view.now) (reads p.now)) }
{
    put(text, b"  Its alternatives are ")?;
    put_alternatives(text, view, alternatives_in(p))?;
    put(text, b".\n")
}

fn alternatives_in(p: &Phrase) -> &[Ty]
    ensures { types_from (map plain_type result.now) ≡ alternatives_of (reads p.now) }
{
    match p {
        Phrase::Lam(_, types, _, _) => types.as_slice(),
        _ => &[],
    }
}

fn put_alternatives(
    text: &mut Vec<u8>,
    view: &View<'_, '_>,
    types: &[Ty],
) -> Result<(), OutOfMemory>
    ensures { OnOk result (text.new.items ≡ text.old.items
        ++ listed [] (alternative_texts (known_in view.now) 0 (types_from (map plain_type types.now)))) }
{
    let mut lead: &[u8] = b"";
    for i in 0..types.len() {
        put(text, lead)?;
        put_alternative(text, view, i, &types[i])?;
        lead = b", ";
    }
    Ok(())
}

fn put_alternative(
    text: &mut Vec<u8>,
    view: &View<'_, '_>,
    index: usize,
    ty: &Ty,
) -> Result<(), OutOfMemory>
    ensures { OnOk result (text.new.items ≡ text.old.items
        ++ (decimal index ++ codes ": " ++ type_told (known_in view.now) (plain_type ty.now))) }
{
    let written = print_short_type(view.alloc, view.known.names, ty)?;
    put_number(text, index)?;
    put(text, b": ")?;
    put_cut(text, LINE_PART, written.as_slice())
}

// Why the type isn't below that of the subsumption.
fn put_not_below_node(
    text: &mut Vec<u8>,
    table: &mut TypeTable,
    view: &View<'_, '_>,
    number: usize,
    d: &Derivation,
) -> Result<(), OutOfMemory>
    requires { number < total table.old }
    ensures { OnOk result (text.new.items ≡ text.old.items
        ++ not_below_line (known_in view.now) (shown table.old number) (raised_to (plain_derivation d.now))) }
{
    let above = match d {
        Derivation::Sub(ty, _) => number_of_type(view.alloc, table, ty)?,
        Derivation::Ns
        | Derivation::Meet(_)
        | Derivation::Alt(..)
        | Derivation::Left(_)
        | Derivation::Right(_)
        | Derivation::Rule(_) => table.number(TypeNode::Ns)?,
    };
    put_not_below(text, table, view, number, above)
}

/// Puts the line that tells why the one type isn't below the other behind the text.
pub(crate) fn put_not_below(
    text: &mut Vec<u8>,
    table: &mut TypeTable,
    view: &View<'_, '_>,
    a: usize,
    b: usize,
) -> Result<(), OutOfMemory>
    requires first { a < total table.old }
    requires second { b < total table.old }
    ensures { OnOk result (text.new.items ≡ text.old.items
        ++ not_below_line (known_in view.now) (shown table.old a) (shown table.old b)) }
{
    put(text, b"  ")?;
    put_type(text, table, view, a)?;
    put(text, b" isn't below ")?;
    put_type(text, table, view, b)?;
    put_lacking(text, table, view, a, b)?;
    put(text, b".\n")
}

fn put_lacking(
    text: &mut Vec<u8>,
    table: &mut TypeTable,
    view: &View<'_, '_>,
    a: usize,
    b: usize,
) -> Result<(), OutOfMemory>
    requires first { a < total table.old }
    requires second { b < total table.old }
    ensures { OnOk result (text.new.items ≡ text.old.items
        ++ lacking_text (known_in view.now) (lacking_of (shown table.old a) (shown table.old b))) }
{
    match lacking(view.alloc, table, a, b)? {
        None => Ok(()),
        Some(single) => {
            put(text, b": it has no ")?;
            put_type(text, table, view, single)
        }
    }
}

fn put_taken_right(
    text: &mut Vec<u8>,
    table: &TypeTable,
    view: &View<'_, '_>,
    number: usize,
    p: &Phrase,
) -> Result<(), OutOfMemory>
    requires { number < total table.now }
    ensures { OnOk result (text.new.items ≡ text.old.items
        ++ taken_right_lines (known_in view.now) (scope_in view.now) (shown table.now number) (reads p.now)) }
{
    let right = right_of(p);
    put_left_line(text, table, view, number, right)?;
    put_right_line(text, view, right)
}

fn put_left_line(
    text: &mut Vec<u8>,
    table: &TypeTable,
    view: &View<'_, '_>,
    number: usize,
    right: &Phrase,
) -> Result<(), OutOfMemory>
    requires { number < total table.now }
    ensures { OnOk result (text.new.items ≡ text.old.items
        ++ left_line (known_in view.now) (shown table.now number) (reads right.now)) }
{
    put(text, b"  The left operand concludes ")?;
    put_type(text, table, view, number)?;
    put(text, b", which begins with ")?;
    put_demand(text, view, right)?;
    put(text, b".\n")
}

fn put_right_line(
    text: &mut Vec<u8>,
    view: &View<'_, '_>,
    right: &Phrase,
) -> Result<(), OutOfMemory>
    ensures { OnOk result (text.new.items ≡ text.old.items ++ right_line (known_in view.now) (scope_in view.now) (reads right.now)) }
{
    put(text, b"  What begins so is taken by the right operand ")?;
    put_phrase(text, view, right)?;
    put(text, b".\n")
}

fn put_demand(text: &mut Vec<u8>, view: &View<'_, '_>, p: &Phrase) -> Result<(), OutOfMemory>
    ensures { OnOk result (text.new.items ≡ text.old.items ++ kind_text (known_in view.now) (kind_of (reads p.now))) }
{
    match demand_of(p) {
        None => Ok(()),
        Some(Demand::Call) => put(text, b"a call"),
        Some(Demand::Field(name)) => {
            put(text, b"the field ")?;
            put_name(text, view.known.names, name)
        }
        Some(Demand::Assignment) => put(text, b"an assignment"),
    }
}

fn put_no_command(
    text: &mut Vec<u8>,
    table: &mut TypeTable,
    view: &View<'_, '_>,
    number: usize,
) -> Result<(), OutOfMemory>
    requires { number < total table.old }
    ensures { OnOk result (text.new.items ≡ text.old.items ++ no_command_lines (known_in view.now) (shown table.old number)) }
{
    put_whole_line(text, table, view, number)?;
    put_raised(text, table, view, number)
}

fn put_whole_line(
    text: &mut Vec<u8>,
    table: &TypeTable,
    view: &View<'_, '_>,
    number: usize,
) -> Result<(), OutOfMemory>
    requires { number < total table.now }
    ensures { OnOk result (text.new.items ≡ text.old.items ++ whole_line (known_in view.now) (shown table.now number)) }
{
    put(text, b"  The whole concludes ")?;
    put_type(text, table, view, number)?;
    put(text, b", and a program is a comm, to the letter.\n")
}

// The subsumption that makes it so, if one does.
fn put_raised(
    text: &mut Vec<u8>,
    table: &mut TypeTable,
    view: &View<'_, '_>,
    number: usize,
) -> Result<(), OutOfMemory>
    requires { number < total table.old }
    ensures { OnOk result (text.new.items ≡ text.old.items ++ raised_line (shown table.old number)) }
{
    let comm = table.number(TypeNode::Atom(Atom::Comm))?;
    if is_below(view.alloc, table, number, comm)? {
        return put(text, b"  `sub [comm]` above it makes it so.\n");
    }
    Ok(())
}
