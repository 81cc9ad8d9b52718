//! The types of the names that a phrase uses.

ghost use Rattle.std.specs.Prelude.{◌≡◌, ◌<◌, ◌&&◌, not, [], ◌++◌, codes, length, map, min, take, IfOk, OnOk};
ghost use Rattle.std.specs.List.{list_any};
ghost use Rattle.fy_phrase.specs.Reads.{reads};
ghost use Rattle.fy_derive.specs.Shown.{all_shown, shown, total, AreIn};
ghost use Rattle.fy_reasons.specs.Stopping.{IsStopIn};
ghost use Rattle.fy_show.specs.Entries.{all as all_fields, has_name as has_name_of};
ghost use Rattle.fy_show.specs.Fresh.{uses};
ghost use Rattle.fy_show.specs.Reading.{entry_or, fields_read, known_in, scope_in, scope_read};
ghost use Rattle.fy_show.specs.Texts.{defined_name};
ghost use Rattle.fy_told.specs.ReasonTexts.{is_hidden as is_hidden_of, is_mentioned, listed, type_told, variable_text, variable_texts, where_line};

use crate::table_types::put_cut_type;
use fy_base::OutOfMemory;
use fy_derive::{TypeNode, TypeTable};
use fy_phrase::Phrase;
use fy_reasons::Stopped;
use fy_short::put;
use fy_show::{EntryText, FieldText, ScopeTexts, View, field_text, has_name, is_used};
use fy_types::Name;
use std::alloc::Global;

const MOST_NAMES: usize = 6;

/// Puts the line that tells the types of the names which the phrase uses behind the text, if it uses any.
#[tactic(auto, using(crate::proofs::WhereLemmas::where_rules))]
pub(crate) fn put_where(
    text: &mut Vec<u8>,
    table: &TypeTable,
    view: &View<'_, '_>,
    stop: &Stopped<'_>,
) -> Result<(), OutOfMemory>
    requires { IsStopIn table.now stop.now }
    ensures { OnOk result (text.new.items ≡ text.old.items ++ where_line (variable_texts (known_in view.now)
        (scope_in view.now) (reads stop.now.phrase.now) [] (scope_in view.now) (all_shown table.now stop.now.types.items))) }
{
    let entries = entries_in(view.alloc, view.scope)?;
    let mut names = Vec::new(view.alloc);
    let count = put_names(&mut names, table, view, stop.phrase, &entries, &stop.types)?;
    if count == 0 {
        return Ok(());
    }
    put(text, b"  where ")?;
    put(text, &names)?;
    put(text, b"\n")
}

// The variables in scope, the innermost first.
fn entries_in<'a>(
    alloc: Global,
    scope: &'a ScopeTexts<'a>,
) -> Result<Vec<Option<&'a EntryText>>, OutOfMemory>
    ensures { IfOk result (λ v. map entry_or v.items ≡ scope_read scope.now) }
{
    let mut all = Vec::new(alloc);
    let mut rest = scope;
    loop {
        match rest {
            ScopeTexts::Empty => return Ok(all),
            ScopeTexts::Unnamed(outer) => {
                all.push(None)?;
                rest = outer;
            }
            ScopeTexts::Inside(entry, outer) => {
                all.push(Some(*entry))?;
                rest = outer;
            }
        }
    }
}

// At most six of the names that the phrase uses with their types, and how many.
fn put_names(
    text: &mut Vec<u8>,
    table: &TypeTable,
    view: &View<'_, '_>,
    p: &Phrase,
    entries: &[Option<&EntryText>],
    types: &[usize],
) -> Result<usize, OutOfMemory>
    requires { AreIn table.now types.now }
    ensures names { IfOk result (λ n. text.new.items ≡ text.old.items ++ listed [] (take 6 (variable_texts (known_in view.now)
        (scope_in view.now) (reads p.now) [] (map entry_or entries.now) (all_shown table.now types.now)))) }
    ensures count { IfOk result (λ n. n ≡ min 6 (length (variable_texts (known_in view.now)
        (scope_in view.now) (reads p.now) [] (map entry_or entries.now) (all_shown table.now types.now)))) }
{
    let mut count = 0;
    let mut lead: &[u8] = b"";
    for i in 0..entries.len().min(types.len()) {
        if count < MOST_NAMES && is_told(view, p, &entries[..i], entries[i]) {
            put(text, lead)?;
            put_variable(text, table, view, entries[i], types[i])?;
            lead = b", ";
            count += 1;
        }
    }
    Ok(count)
}

// Whether the phrase uses the variable, and none farther in has its name.
fn is_told(
    view: &View<'_, '_>,
    p: &Phrase,
    inner: &[Option<&EntryText>],
    entry: Option<&EntryText>,
) -> bool
    ensures { result ≡ (is_mentioned (known_in view.now) (scope_in view.now) (reads p.now) (entry_or entry.entry)
        && not (is_hidden_of (map entry_or inner.now) (entry_or entry.entry))) }
{
    match entry {
        None | Some(EntryText::Unnamed) => false,
        Some(EntryText::One(name)) => {
            is_used(view.known, name, view.scope, p) && !is_hidden(inner, name)
        }
        Some(EntryText::All(fields)) => {
            is_any_used(view, p, fields) && !is_any_hidden(inner, fields)
        }
    }
}

fn is_any_used(view: &View<'_, '_>, p: &Phrase, fields: &[FieldText]) -> bool
    ensures { result ≡ list_any (λ f. uses (known_in view.now) f.1 (scope_in view.now) (reads p.now)) (fields_read fields.now) }
{
    for field in fields {
        if is_used(view.known, &field.text, view.scope, p) {
            return true;
        }
    }
    false
}

fn is_any_hidden(inner: &[Option<&EntryText>], fields: &[FieldText]) -> bool
    ensures { result ≡ list_any (λ f. list_any (has_name_of f.1) (map entry_or inner.now)) (fields_read fields.now) }
{
    for field in fields {
        if is_hidden(inner, &field.text) {
            return true;
        }
    }
    false
}

// Whether a variable farther in has the name.
fn is_hidden(inner: &[Option<&EntryText>], name: &[u8]) -> bool
    ensures { result ≡ list_any (has_name_of name.now) (map entry_or inner.now) }
{
    for i in 0..inner.len() {
        if has_name(name, inner[i]) {
            return true;
        }
    }
    false
}

/// Puts the variable with its type behind the text; of a `letrec` its fields.
pub fn put_variable(
    text: &mut Vec<u8>,
    table: &TypeTable,
    view: &View<'_, '_>,
    entry: Option<&EntryText>,
    number: usize,
) -> Result<(), OutOfMemory>
    requires { number < total table.now }
    ensures { OnOk result (text.new.items ≡ text.old.items ++ variable_text (known_in view.now) (entry_or entry.entry) (shown table.now number)) }
{
    match entry {
        None | Some(EntryText::Unnamed) => Ok(()),
        Some(EntryText::One(name)) => {
            put(text, name)?;
            put(text, b": ")?;
            put_cut_type(view.alloc, text, view.known.names, table, number)
        }
        Some(EntryText::All(fields)) => put_record(text, table, view, fields, number),
    }
}

// The fields of a `letrec` with their types.
#[tactic(auto, using(crate::proofs::WhereLemmas::field_rules))]
fn put_record(
    text: &mut Vec<u8>,
    table: &TypeTable,
    view: &View<'_, '_>,
    fields: &[FieldText],
    number: usize,
) -> Result<(), OutOfMemory>
    requires { number < total table.now }
    ensures { OnOk result (text.new.items ≡ text.old.items
        ++ variable_text (known_in view.now) (all_fields (fields_read fields.now)) (shown table.now number)) }
{
    let mut lead: &[u8] = b"";
    let mut rest = number;
    loop {
        match table.node(rest) {
            TypeNode::Field(name, part) => {
                return put_field(text, table, view, lead, fields, name, part);
            }
            TypeNode::AndType(first, behind) => {
                if let TypeNode::Field(name, part) = table.node(first) {
                    put_field(text, table, view, lead, fields, name, part)?;
                    lead = b", ";
                }
                rest = behind;
            }
            TypeNode::Ns | TypeNode::Atom(_) | TypeNode::Arrow(..) | TypeNode::NoTypes => {
                return Ok(());
            }
        }
    }
}

fn put_field(
    text: &mut Vec<u8>,
    table: &TypeTable,
    view: &View<'_, '_>,
    lead: &[u8],
    fields: &[FieldText],
    name: Name,
    part: usize,
) -> Result<(), OutOfMemory>
    requires { part < total table.now }
    ensures { OnOk result (text.new.items ≡ text.old.items ++ lead.now
        ++ (defined_name (fields_read fields.now) name ++ codes ": " ++ type_told (known_in view.now) (shown table.now part))) }
{
    put(text, lead)?;
    if let Some(shown) = field_text(fields, name) {
        put(text, shown)?;
    }
    put(text, b": ")?;
    put_cut_type(view.alloc, text, view.known.names, table, part)
}
