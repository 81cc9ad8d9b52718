//! Where parts that are names come from, and of which types parts that are calls take their arguments.

ghost use Rattle.std.specs.Prelude.{◌≡◌, ◌++◌, IfOk, OnOk, drop, length, map, nat_lt};
ghost use Rattle.fy_types.specs.Reading.{plain_path, plain_paths};
ghost use Rattle.fy_phrase.specs.Reads.{reads};
ghost use Rattle.fy_causes.specs.Occurrences.{least_in, parts_of};
ghost use Rattle.fy_causes.specs.Readings.{around_read, cause_read, explained_read, occurrence_read, part_at};
ghost use Rattle.fy_show.specs.Reading.{known_in, scope_in};
ghost use Rattle.fy_why.specs.Origins.{
  beside as beside_at,
  beside_all,
  beside_part,
  origin,
  taken as taken_line,
  takers as takers_of,
  told_of,
};
ghost use Rattle.fy_why.specs.Sentences.{part_of, phrase_told, scope_of};
ghost use Rattle.fy_why.specs.Texts.{lines};
ghost use Rattle.fy_why.specs.Readings.{is_taker};

use crate::parts::{is_under, put_phrase};
use crate::types::put_paths;
use crate::words::{binder_word, put_place};
use fy_base::OutOfMemory;
use fy_causes::{Around, Cause, Explained, Occurrence, least_at};
use fy_order::are_paths_below;
use fy_phrase::Phrase;
use fy_short::put;
use fy_show::{ScopeTexts, View, bound, in_scope};
use fy_types::{Path, PathElem, Paths, copy_path};
use std::alloc::Global;
use std::rc::Rc;

/// So many names are those of the prelude, the outermost.
pub(crate) const PRELUDE_NAMES: u32 = 5;

/// Puts what is told of the parts of which the cause tells behind the text, each in a line behind the lead.
pub(crate) fn put_beside_all(
    text: &mut Vec<u8>,
    view: &View<'_, '_>,
    lead: &[u8],
    names: bool,
    e: &Explained<'_>,
) -> Result<(), OutOfMemory>
    requires parts { map part_at e.now.parts.items ≡ parts_of (around_read e.now.at.around.value) (reads e.now.at.phrase.now) }
    requires scope { scope_in view.now ≡ scope_of (known_in view.now) (around_read e.now.at.around.value) }
    ensures { OnOk result (text.new.items ≡ text.old.items
        ++ lines lead.now (beside_all (known_in view.now) names (explained_read e.now) (told_of (cause_read e.now.cause)))) }
{
    match &e.cause {
        Cause::NotCommand | Cause::Useless | Cause::Declared(_) => Ok(()),
        Cause::Wants(index, _) | Cause::Parts(index, _) => {
            put_beside(text, view, lead, names, e, *index)
        }
        Cause::NoProcedure | Cause::NoField(_) | Cause::NoAcceptor => {
            put_beside(text, view, lead, names, e, 0)
        }
        Cause::Differ | Cause::NoDomain(_) | Cause::Assigned(..) => {
            put_beside(text, view, lead, names, e, 0)?;
            put_beside(text, view, lead, names, e, 1)
        }
        Cause::Branches => {
            put_beside(text, view, lead, names, e, 1)?;
            put_beside(text, view, lead, names, e, 2)
        }
    }
}

// What is told of the part with the index.
fn put_beside(
    text: &mut Vec<u8>,
    view: &View<'_, '_>,
    lead: &[u8],
    names: bool,
    e: &Explained<'_>,
    index: usize,
) -> Result<(), OutOfMemory>
    requires parts { map part_at e.now.parts.items ≡ parts_of (around_read e.now.at.around.value) (reads e.now.at.phrase.now) }
    requires scope { scope_in view.now ≡ scope_of (known_in view.now) (around_read e.now.at.around.value) }
    ensures { OnOk result (text.new.items ≡ text.old.items
        ++ lines lead.now (beside_part (known_in view.now) names (part_of (explained_read e.now) index))) }
{
    if index >= e.parts.len() {
        return Ok(());
    }
    let at = &e.parts[index].at;
    if !is_under(e.at.phrase, index) {
        return put_beside_at(text, view, lead, names, at);
    }
    let entry = bound(view, e.at.phrase)?;
    let scope = ScopeTexts::Inside(&entry, view.scope);
    put_beside_at(text, &in_scope(&*view, &scope), lead, names, at)
}

fn put_beside_at(
    text: &mut Vec<u8>,
    view: &View<'_, '_>,
    lead: &[u8],
    names: bool,
    at: &Occurrence<'_>,
) -> Result<(), OutOfMemory>
    requires { scope_in view.now ≡ scope_of (known_in view.now) (around_read at.now.around.value) }
    ensures { OnOk result (text.new.items ≡ text.old.items
        ++ lines lead.now (beside_at (known_in view.now) names (occurrence_read at.now) (reads at.now.phrase.now))) }
{
    match at.phrase {
        Phrase::Var(number, _) => {
            if !names {
                return Ok(());
            }
            put_origin(
                text,
                view,
                lead,
                at.phrase,
                around_from(&at.around, *number),
            )
        }
        Phrase::App(procedure, argument, _) => {
            put_taken(text, view, lead, procedure, argument, &at.around)
        }
        _ => Ok(()),
    }
}

// The scope from the variable with the number on.
fn around_from<'b, 'a>(around: &'b Around<'a>, number: u32) -> &'b Around<'a>
    ensures { around_read result.now ≡ drop number (around_read around.now) }
{
    match around {
        Around::Nothing => around,
        Around::Under(_, outer) => {
            if number == 0 {
                around
            } else {
                around_from(outer, number - 1)
            }
        }
    }
}

// Whether fewer than so many variables are in scope.
fn are_fewer(around: &Around<'_>, count: u32) -> bool
    ensures { result ≡ nat_lt (length (around_read around.now)) count }
{
    if count == 0 {
        return false;
    }
    match around {
        Around::Nothing => true,
        Around::Under(_, outer) => are_fewer(outer, count - 1),
    }
}

// Where the name comes from, which is the innermost variable of the scope.
fn put_origin(
    text: &mut Vec<u8>,
    view: &View<'_, '_>,
    lead: &[u8],
    name: &Phrase,
    around: &Around<'_>,
) -> Result<(), OutOfMemory>
    ensures { OnOk result (text.new.items ≡ text.old.items ++ lines lead.now
        (origin (phrase_told (known_in view.now) (scope_in view.now) (reads name.now)) (around_read around.now))) }
{
    let Around::Under(variable, outer) = around else {
        return Ok(());
    };
    if are_fewer(outer, PRELUDE_NAMES) {
        return Ok(());
    }
    put(text, lead)?;
    put_phrase(text, view, name)?;
    put(text, b" is ")?;
    put(text, binder_word(variable.binder))?;
    put(text, b", from ")?;
    put_place(text, variable.binder.place())?;
    put(text, b".\n")
}

// With which paths the procedure takes the argument, where these aren't all that it has.
fn put_taken<'a>(
    text: &mut Vec<u8>,
    view: &View<'_, '_>,
    lead: &[u8],
    procedure: &'a Phrase,
    argument: &'a Phrase,
    around: &Rc<Around<'a>>,
) -> Result<(), OutOfMemory>
    ensures { OnOk result (text.new.items ≡ text.old.items ++ lines lead.now (taken_line (known_in view.now)
        (phrase_told (known_in view.now) (scope_in view.now) (reads procedure.now))
        (least_in (around_read around.now.value) (reads procedure.now))
        (takers_of (least_in (around_read around.now.value) (reads argument.now)) (least_in (around_read around.now.value) (reads procedure.now)))
        (phrase_told (known_in view.now) (scope_in view.now) (reads argument.now)))) }
{
    let all = least_at(view.alloc, procedure, around)?;
    let given = least_at(view.alloc, argument, around)?;
    let taken = takers(view.alloc, &given, &all)?;
    if taken.len() == all.len() {
        return Ok(());
    }
    put(text, lead)?;
    put(text, b"In it ")?;
    put_phrase(text, view, procedure)?;
    put(text, b" has ")?;
    put_paths(text, view, &all)?;
    put(text, b", of which ")?;
    put_paths(text, view, &taken)?;
    put(text, b" takes ")?;
    put_phrase(text, view, argument)?;
    put(text, b".\n")
}

// The paths that begin with a call that takes the argument.
fn takers(alloc: Global, argument: &Paths, all: &Paths) -> Result<Paths, OutOfMemory>
    ensures { IfOk result (λ made. plain_paths made ≡ takers_of (plain_paths argument.now) (plain_paths all.now)) }
{
    let mut made = Paths::new(alloc);
    for path in all.as_slice() {
        if takes(alloc, argument, path)? {
            made.push(copy_path(alloc, path)?)?;
        }
    }
    Ok(made)
}

fn takes(alloc: Global, argument: &Paths, path: &Path) -> Result<bool, OutOfMemory>
    ensures { IfOk result (λ r. r ≡ is_taker (plain_paths argument.now) (plain_path path.now)) }
{
    let elems = path.elems.as_slice();
    if elems.len() == 0 {
        return Ok(false);
    }
    match &elems[0] {
        PathElem::Call(domain) => are_paths_below(alloc, argument, domain),
        PathElem::Field(_) => Ok(false),
    }
}
