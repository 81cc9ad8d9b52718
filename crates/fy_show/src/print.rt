//! The text of a phrase.

ghost use Rattle.std.specs.Prelude.{◌≡◌, ◌+◌, ◌&&◌, [], ◌∷◌, ◌++◌, codes, IfOk, OnOk};
ghost use Rattle.fy_types.specs.Print.{name_text};
ghost use Rattle.fy_types.specs.Reading.{plain_type, plain_types};
ghost use Rattle.fy_syntax.specs.Print.{operator_text};
ghost use Rattle.fy_phrase.specs.Reads.{reads, reads_parts};
ghost use Rattle.fy_phrase.specs.Tree.{Tree};
ghost use Rattle.fy_short.specs.Cut.{cut};
ghost use Rattle.fy_short.specs.DataTexts.{left_level as left_level_of, operator_level as operator_level_of, put_word as put_word_of};
ghost use Rattle.fy_show.specs.Entries.{all};
ghost use Rattle.fy_show.specs.Fresh.{fields_of, record_at};
ghost use Rattle.fy_show.specs.Reading.{entry_or, entry_read, fields_read, known_read, part_in, scope_read, shown_in, text_in};
ghost use Rattle.fy_show.specs.Texts.{
  are_halves,
  called,
  declared_text,
  defined_name,
  definitions as definitions_of,
  enclosed,
  entry_name,
  entry_shown,
  fields_in,
  fields_text,
  form,
  is_halved,
  item as item_of,
  letrec_text,
  opening,
  part,
  parts_text,
  rec_text,
  selected,
  sequence_text,
  short as short_of,
};
ghost use Rattle.fy_show.specs.declared.manner.Manner.TheVariants.{Whole};

use crate::binders::BinderForm;
use crate::entries::{EntryText, FieldText, ScopeTexts, entry_at};
use crate::fields::declared_fields;
use crate::free::{all_fresh, let_fresh, one_fresh};
use crate::manner::Manner;
use crate::part::level_of;
use crate::sequence::{is_empty_string, is_halved_pair, is_sequence, letters};
use crate::uses::{field_text, record_of};
use crate::view::{View, in_manner, in_scope};
use fy_base::{BinOp, OutOfMemory, Place, PutKind, Text};
use fy_phrase::{DataTy, Parts, Phrase};
use fy_short::{
    data_word, left_level, operator_level, put, put_alternatives, put_cut, put_datum, put_name,
    put_string, put_type, put_word,
};
use fy_syntax::{operator_word, prefix_word};
use fy_types::{Name, Ty, TyList};

/// The text of the phrase: that of its form, with its parts in the view's manner. Parts stand in parentheses where their levels
/// ask for that, and variables have the names of the scope.
pub fn print_shown(view: &View<'_, '_>, p: &Phrase) -> Result<Text, OutOfMemory>
    ensures { IfOk result (λ text. text ≡ text_in view.now (reads p.now)) }
{
    let mut text = Vec::new(view.alloc);
    put_form(&mut text, view, p)?;
    Ok(Text::from_vec(text))
}

/// The whole text of the phrase where it has at most so many bytes, else that with `..` for each part where that has, else `..`.
pub fn print_short(view: &View<'_, '_>, limit: usize, p: &Phrase) -> Result<Text, OutOfMemory>
    ensures { IfOk result (λ text. text ≡ short_of limit 0 (shown_in view.now (reads p.now))) }
{
    let mut text = Vec::new(view.alloc);
    put_short(&mut text, view, limit, 0, p)?;
    Ok(Text::from_vec(text))
}

#[cycle(print)]
fn put_form(text: &mut Vec<u8>, view: &View<'_, '_>, p: &Phrase) -> Result<(), OutOfMemory>
    ensures { OnOk result (text.new.items ≡ text.old.items ++ text_in view.now (reads p.now)) }
{
    match p {
        Phrase::Var(k, _) => put_entry(text, entry_at(view.scope, *k)),
        Phrase::Lit(v, _) => put_datum(text, *v),
        Phrase::Unary(op, p, _) => put_behind(text, view, prefix_word(*op), 9, p),
        Phrase::Binary(op, p, q, _) => put_binary(text, view, *op, p, q),
        Phrase::Cond(b, p, q, _) => put_cond(text, view, b, p, q),
        Phrase::Case(e, parts, _) => put_case(text, view, e, parts),
        Phrase::Lam(d, types, body, at) => put_lam(text, view, *d, types, body, *at),
        Phrase::App(p, q, _) => put_two(text, view, 10, p, b" ", 11, q),
        Phrase::Field(i, p, _) => put_definition(text, view, *i, p),
        Phrase::Sel(p, i, _) => put_selection(text, view, p, *i),
        Phrase::Merge(p, q, _) => {
            if is_sequence(p, q) {
                put_called(text, view, p)
            } else {
                put_two(text, view, 1, p, b", ", 2, q)
            }
        }
        Phrase::LetIn(d, p, body, at) => put_let(text, view, *d, p, body, *at),
        Phrase::Rec(_, ty, body, _) => put_rec(text, view, ty, body),
        Phrase::Skip(_) => put(text, b"skip"),
        Phrase::Seq(p, q, _) => put_items(text, view, p, q),
        Phrase::Assign(p, q, _) => put_two(text, view, 4, p, b" := ", 3, q),
        Phrase::WhileDo(b, c, _) => put_while(text, view, b, c),
        Phrase::Forever(c, _) => put_behind(text, view, b"loop ", 3, c),
        Phrase::New(d, ty, e, body, at) => put_new(text, view, *d, *ty, e, body, *at),
        Phrase::Cells(d, e, body, at) => put_cells(text, view, *d, e, body, *at),
        Phrase::Escape(d, body, at) => put_escape(text, view, *d, body, *at),
        Phrase::Accept(d, ty, body, at) => put_accept(text, view, *d, *ty, body, *at),
        Phrase::Put(kind, p, _) => put_output(text, view, *kind, p),
        Phrase::Read(p, _) => put_behind(text, view, b"read ", 11, p),
        Phrase::Mark(..) => Ok(()),
    }
}

/// Puts a part behind the text, in parentheses where its level is below that one.
#[cycle(print)]
pub fn put_part(
    text: &mut Vec<u8>,
    view: &View<'_, '_>,
    level: u8,
    p: &Phrase,
) -> Result<(), OutOfMemory>
    ensures { OnOk result (text.new.items ≡ text.old.items ++ part_in view.now level (reads p.now)) }
{
    match view.manner {
        Manner::Whole => put_whole(text, view, level, p),
        Manner::Bare => put(text, b".."),
        Manner::Short(limit) => put_short(text, view, limit, level, p),
        Manner::Cut(limit) => put_shortened(text, view, limit, level, p),
    }
}

// The text of a form, in parentheses where its level is below that one.
#[cycle(print)]
fn put_whole(
    text: &mut Vec<u8>,
    view: &View<'_, '_>,
    level: u8,
    p: &Phrase,
) -> Result<(), OutOfMemory>
    ensures { OnOk result (text.new.items
        ≡ text.old.items ++ enclosed level (shown_in view.now (reads p.now)).0 (text_in view.now (reads p.now))) }
{
    if level_of(view, p) >= level {
        return put_form(text, view, p);
    }
    put(text, b"(")?;
    put_form(text, view, p)?;
    put(text, b")")
}

// The same of its whole text, cut to so many bytes.
#[cycle(print)]
fn put_shortened(
    text: &mut Vec<u8>,
    view: &View<'_, '_>,
    limit: usize,
    level: u8,
    p: &Phrase,
) -> Result<(), OutOfMemory>
    ensures { OnOk result (text.new.items ≡ text.old.items
        ++ enclosed level (shown_in view.now (reads p.now)).0 (cut limit ((shown_in view.now (reads p.now)).1 Whole))) }
{
    let whole = form_text(view, Manner::Whole, p)?;
    if level_of(view, p) >= level {
        return put_cut(text, limit, &whole);
    }
    put(text, b"(")?;
    put_cut(text, limit, &whole)?;
    put(text, b")")
}

#[cycle(print)]
fn put_short(
    text: &mut Vec<u8>,
    view: &View<'_, '_>,
    limit: usize,
    level: u8,
    p: &Phrase,
) -> Result<(), OutOfMemory>
    ensures { OnOk result (text.new.items ≡ text.old.items ++ short_of limit level (shown_in view.now (reads p.now))) }
{
    let own = level_of(view, p);
    let whole = form_text(view, Manner::Whole, p)?;
    if whole.len() <= limit {
        return put_enclosed(text, level, own, &whole);
    }
    let bare = form_text(view, Manner::Bare, p)?;
    if bare.len() <= limit {
        put_enclosed(text, level, own, &bare)
    } else {
        put(text, b"..")
    }
}

#[cycle(print)]
fn form_text(view: &View<'_, '_>, manner: Manner, p: &Phrase) -> Result<Vec<u8>, OutOfMemory>
    ensures { IfOk result (λ v. v.items ≡ (shown_in view.now (reads p.now)).1 manner) }
{
    let mut text = Vec::new(view.alloc);
    put_form(&mut text, &in_manner(view, manner), p)?;
    Ok(text)
}

// The bytes, in parentheses where their own level is below that one.
fn put_enclosed(text: &mut Vec<u8>, level: u8, own: u8, bytes: &[u8]) -> Result<(), OutOfMemory>
    ensures { OnOk result (text.new.items ≡ text.old.items ++ enclosed level own bytes.now) }
{
    if own >= level {
        return put(text, bytes);
    }
    put(text, b"(")?;
    put(text, bytes)?;
    put(text, b")")
}

// A part behind a word.
#[cycle(print)]
fn put_behind(
    text: &mut Vec<u8>,
    view: &View<'_, '_>,
    word: &[u8],
    level: u8,
    p: &Phrase,
) -> Result<(), OutOfMemory>
    ensures { OnOk result (text.new.items ≡ text.old.items ++ word.now ++ part_in view.now level (reads p.now)) }
{
    put(text, word)?;
    put_part(text, view, level, p)
}

#[cycle(print)]
fn put_two(
    text: &mut Vec<u8>,
    view: &View<'_, '_>,
    left: u8,
    p: &Phrase,
    word: &[u8],
    right: u8,
    q: &Phrase,
) -> Result<(), OutOfMemory>
    ensures { OnOk result (text.new.items
        ≡ text.old.items ++ part_in view.now left (reads p.now) ++ word.now ++ part_in view.now right (reads q.now)) }
{
    put_part(text, view, left, p)?;
    put(text, word)?;
    put_part(text, view, right, q)
}

#[cycle(print)]
fn put_binary(
    text: &mut Vec<u8>,
    view: &View<'_, '_>,
    op: BinOp,
    p: &Phrase,
    q: &Phrase,
) -> Result<(), OutOfMemory>
    ensures { OnOk result (text.new.items ≡ text.old.items ++ part_in view.now (left_level_of op) (reads p.now)
        ++ codes " " ++ operator_text op ++ part_in view.now (operator_level_of op + 1) (reads q.now)) }
{
    put_part(text, view, left_level(op), p)?;
    put(text, b" ")?;
    put_behind(text, view, operator_word(op), operator_level(op) + 1, q)
}

#[cycle(print)]
fn put_cond(
    text: &mut Vec<u8>,
    view: &View<'_, '_>,
    b: &Phrase,
    p: &Phrase,
    q: &Phrase,
) -> Result<(), OutOfMemory>
    ensures { OnOk result (text.new.items ≡ text.old.items ++ codes "if " ++ part_in view.now 3 (reads b.now)
        ++ codes " then " ++ part_in view.now 3 (reads p.now) ++ codes " else " ++ part_in view.now 3 (reads q.now)) }
{
    put_behind(text, view, b"if ", 3, b)?;
    put_behind(text, view, b" then ", 3, p)?;
    put_behind(text, view, b" else ", 3, q)
}

#[cycle(print)]
fn put_case(
    text: &mut Vec<u8>,
    view: &View<'_, '_>,
    e: &Phrase,
    parts: &Parts,
) -> Result<(), OutOfMemory>
    ensures { OnOk result (text.new.items ≡ text.old.items ++ sequence_text (reads_parts parts.now)
        (parts_text (known_read view.now.known.now) (scope_read view.now.scope.now) view.now.manner [] (reads_parts parts.now))
        ++ codes " " ++ part_in view.now 11 (reads e.now)) }
{
    put_sequence(text, view, parts)?;
    put_behind(text, view, b" ", 11, e)
}

#[cycle(print)]
fn put_definition(
    text: &mut Vec<u8>,
    view: &View<'_, '_>,
    name: Name,
    p: &Phrase,
) -> Result<(), OutOfMemory>
    ensures { OnOk result (text.new.items
        ≡ text.old.items ++ name_text view.now.known.now.names.now name ++ codes " == " ++ part_in view.now 3 (reads p.now)) }
{
    put_name(text, view.known.names, name)?;
    put_behind(text, view, b" == ", 3, p)
}

#[cycle(print)]
fn put_while(
    text: &mut Vec<u8>,
    view: &View<'_, '_>,
    b: &Phrase,
    c: &Phrase,
) -> Result<(), OutOfMemory>
    ensures { OnOk result (text.new.items
        ≡ text.old.items ++ codes "while " ++ part_in view.now 3 (reads b.now) ++ codes " do " ++ part_in view.now 3 (reads c.now)) }
{
    put_behind(text, view, b"while ", 3, b)?;
    put_behind(text, view, b" do ", 3, c)
}

#[cycle(print)]
fn put_output(
    text: &mut Vec<u8>,
    view: &View<'_, '_>,
    kind: PutKind,
    p: &Phrase,
) -> Result<(), OutOfMemory>
    ensures { OnOk result (text.new.items
        ≡ text.old.items ++ put_word_of kind ++ codes " " ++ part_in view.now 11 (reads p.now)) }
{
    put(text, put_word(kind))?;
    put_behind(text, view, b" ", 11, p)
}

#[cycle(print)]
fn put_items(
    text: &mut Vec<u8>,
    view: &View<'_, '_>,
    p: &Phrase,
    q: &Phrase,
) -> Result<(), OutOfMemory>
    ensures { OnOk result (text.new.items ≡ text.old.items
        ++ item_of (are_halves (reads p.now) (reads q.now) && (is_halved (reads p.now) && is_halved (reads q.now)))
        view.now.manner (shown_in view.now (reads p.now))
        ++ codes "; "
        ++ item_of (are_halves (reads p.now) (reads q.now) && (is_halved (reads p.now) && is_halved (reads q.now)))
        view.now.manner (shown_in view.now (reads q.now))) }
{
    let halves = is_halved_pair(p, q);
    put_item(text, view, halves, p)?;
    put(text, b"; ")?;
    put_item(text, view, halves, q)
}

/// Puts an item of a sequence behind the text, which goes on with its own items where the sequence is parted into halves.
#[cycle(print)]
pub fn put_item(
    text: &mut Vec<u8>,
    view: &View<'_, '_>,
    halves: bool,
    p: &Phrase,
) -> Result<(), OutOfMemory>
    ensures { OnOk result (text.new.items ≡ text.old.items ++ item_of halves view.now.manner (shown_in view.now (reads p.now))) }
{
    if halves && level_of(view, p) == 2 {
        put_form(text, view, p)
    } else {
        put_part(text, view, 3, p)
    }
}

/// Puts what `seq` or a string is written as behind the text.
#[cycle(print)]
pub fn put_sequence(
    text: &mut Vec<u8>,
    view: &View<'_, '_>,
    parts: &Parts,
) -> Result<(), OutOfMemory>
    ensures { OnOk result (text.new.items ≡ text.old.items ++ sequence_text (reads_parts parts.now)
        (parts_text (known_read view.now.known.now) (scope_read view.now.scope.now) view.now.manner [] (reads_parts parts.now))) }
{
    if is_empty_string(parts) {
        return put_string(text, b"");
    }
    match letters(view.alloc, parts)? {
        Some(bytes) => put_string(text, &bytes),
        None => {
            put(text, b"seq(")?;
            put_parts(text, view, parts)?;
            put(text, b")")
        }
    }
}

#[cycle(print)]
fn put_parts(text: &mut Vec<u8>, view: &View<'_, '_>, parts: &Parts) -> Result<(), OutOfMemory>
    ensures { OnOk result (text.new.items ≡ text.old.items
        ++ parts_text (known_read view.now.known.now) (scope_read view.now.scope.now) view.now.manner [] (reads_parts parts.now)) }
{
    let mut lead: &[u8] = b"";
    for part in parts.as_slice() {
        put_behind(text, view, lead, 3, part)?;
        lead = b", ";
    }
    Ok(())
}

#[cycle(print)]
fn put_lam(
    text: &mut Vec<u8>,
    view: &View<'_, '_>,
    depth: u32,
    types: &TyList,
    body: &Phrase,
    at: Place,
) -> Result<(), OutOfMemory>
    ensures { OnOk result (text.new.items
        ≡ text.old.items ++ text_in view.now (Tree.lam depth (plain_types types.now) (reads body.now) at)) }
{
    let entry = one_fresh(view, BinderForm::Lam, at, depth, body)?;
    put(text, b"\\")?;
    put_one(text, &entry)?;
    put(text, b": ")?;
    put_alternatives(text, view.known.names, types)?;
    put_inside(text, &*view, &entry, b". ", body)
}

// A part under a binder, behind a word.
#[tactic(auto, using(crate::proofs::ScopeLemmas::scopes))]
#[cycle(print)]
fn put_inside<'x>(
    text: &mut Vec<u8>,
    view: &View<'_, 'x>,
    entry: &'x EntryText,
    word: &[u8],
    body: &Phrase,
) -> Result<(), OutOfMemory>
    ensures { OnOk result (text.new.items ≡ text.old.items ++ word.now ++ part view.now.manner 3
        (form (known_read view.now.known.now) (entry_read entry.now ∷ scope_read view.now.scope.now) (reads body.now))) }
{
    let scope = ScopeTexts::Inside(entry, view.scope);
    put_behind(text, &in_scope(&*view, &scope), word, 3, body)
}

#[cycle(print)]
fn put_selection(
    text: &mut Vec<u8>,
    view: &View<'_, '_>,
    p: &Phrase,
    name: Name,
) -> Result<(), OutOfMemory>
    ensures { OnOk result (text.new.items ≡ text.old.items
        ++ (selected name (record_at (known_read view.now.known.now) (scope_read view.now.scope.now) (reads p.now))
        (11, λ m. part m 11 (shown_in view.now (reads p.now)) ++ codes "." ++ name_text view.now.known.now.names.now name)).1 view.now.manner) }
{
    let shown = match record_of(view.known, view.scope, p) {
        Some(fields) => field_text(fields, name),
        None => None,
    };
    match shown {
        Some(field) => put(text, field),
        None => {
            put_part(text, view, 11, p)?;
            put(text, b".")?;
            put_name(text, view.known.names, name)
        }
    }
}

// The call that the abstraction of a sequence comes from.
#[tactic(auto, using(crate::proofs::ScopeLemmas::scopes))]
#[cycle(print)]
fn put_called(text: &mut Vec<u8>, view: &View<'_, '_>, p: &Phrase) -> Result<(), OutOfMemory>
    ensures { OnOk result (text.new.items ≡ text.old.items
        ++ called (known_read view.now.known.now) (scope_read view.now.scope.now) view.now.manner (reads p.now)) }
{
    match p {
        Phrase::Lam(_, _, body, _) => {
            let index = EntryText::One(b"n".to_vec(view.alloc)?);
            let scope = ScopeTexts::Inside(&index, view.scope);
            put_called(text, &in_scope(&*view, &scope), body)
        }
        Phrase::Case(_, parts, _) => put_sequence(text, view, parts),
        _ => Ok(()),
    }
}

#[cycle(print)]
fn put_let(
    text: &mut Vec<u8>,
    view: &View<'_, '_>,
    depth: u32,
    p: &Phrase,
    body: &Phrase,
    at: Place,
) -> Result<(), OutOfMemory>
    ensures { OnOk result (text.new.items
        ≡ text.old.items ++ text_in view.now (Tree.let_in depth (reads p.now) (reads body.now) at)) }
{
    let entry = let_fresh(view, at, depth, p, body)?;
    put_opening(text, &*view, &entry, p)?;
    put_inside(text, &*view, &entry, b" in ", body)
}

// What stands in front of `in`.
#[cycle(print)]
fn put_opening<'x>(
    text: &mut Vec<u8>,
    view: &View<'_, 'x>,
    entry: &'x EntryText,
    p: &Phrase,
) -> Result<(), OutOfMemory>
    ensures { OnOk result (text.new.items ≡ text.old.items ++ opening (known_read view.now.known.now)
        (scope_read view.now.scope.now) (entry_read entry.now) view.now.manner (shown_in view.now (reads p.now)) (reads p.now)) }
{
    match p {
        Phrase::Rec(_, ty, body, _) => put_letrec(text, view, entry, ty, body),
        _ => {
            put(text, b"let ")?;
            put_one(text, entry)?;
            put_behind(text, view, b" == ", 3, p)
        }
    }
}

#[cycle(print)]
fn put_rec(
    text: &mut Vec<u8>,
    view: &View<'_, '_>,
    ty: &Ty,
    body: &Phrase,
) -> Result<(), OutOfMemory>
    ensures { OnOk result (text.new.items
        ≡ text.old.items ++ rec_text (known_read view.now.known.now) (scope_read view.now.scope.now) view.now.manner (plain_type ty.now) (reads body.now)) }
{
    let entry = all_fresh(view, ty, &[body])?;
    put_letrec(text, &*view, &entry, ty, body)?;
    put(text, b" in ")?;
    put_entry(text, Some(&entry))
}

/// Puts `letrec f: A, .. where f == p, ..` behind the text.
#[tactic(auto, using(crate::proofs::ScopeLemmas::scopes))]
#[cycle(print)]
pub fn put_letrec<'x>(
    text: &mut Vec<u8>,
    view: &View<'_, 'x>,
    entry: &'x EntryText,
    ty: &Ty,
    body: &Phrase,
) -> Result<(), OutOfMemory>
    ensures { OnOk result (text.new.items ≡ text.old.items ++ letrec_text (known_read view.now.known.now) (entry_read entry.now) (plain_type ty.now)
        (definitions_of (known_read view.now.known.now) (entry_read entry.now ∷ scope_read view.now.scope.now) (fields_in (entry_read entry.now)) view.now.manner (reads body.now))) }
{
    put(text, b"letrec ")?;
    put_declared(text, view, fields_of_entry(entry), ty)?;
    put(text, b" where ")?;
    let scope = ScopeTexts::Inside(entry, view.scope);
    put_definitions(
        text,
        &in_scope(&*view, &scope),
        fields_of_entry(entry),
        body,
    )
}

// The definitions of a `letrec`, a merge of fields.
#[cycle(print)]
fn put_definitions(
    text: &mut Vec<u8>,
    view: &View<'_, '_>,
    fields: &[FieldText],
    p: &Phrase,
) -> Result<(), OutOfMemory>
    ensures { OnOk result (text.new.items ≡ text.old.items ++ definitions_of (known_read view.now.known.now)
        (scope_read view.now.scope.now) (fields_read fields.now) view.now.manner (reads p.now)) }
{
    match p {
        Phrase::Merge(p, q, _) => {
            put_definitions(text, view, fields, p)?;
            put(text, b", ")?;
            put_definitions(text, view, fields, q)
        }
        Phrase::Field(name, p, _) => {
            put_field_text(text, fields, *name)?;
            put_behind(text, view, b" == ", 3, p)
        }
        _ => Ok(()),
    }
}

#[cycle(print)]
fn put_new(
    text: &mut Vec<u8>,
    view: &View<'_, '_>,
    depth: u32,
    ty: DataTy,
    e: &Phrase,
    body: &Phrase,
    at: Place,
) -> Result<(), OutOfMemory>
    ensures { OnOk result (text.new.items
        ≡ text.old.items ++ text_in view.now (Tree.new depth ty (reads e.now) (reads body.now) at)) }
{
    let entry = one_fresh(view, BinderForm::New, at, depth, body)?;
    put(text, b"new ")?;
    put_one(text, &entry)?;
    put(text, b": ")?;
    put(text, data_word(ty))?;
    put_behind(text, view, b" := ", 3, e)?;
    put_inside(text, &*view, &entry, b" in ", body)
}

#[cycle(print)]
fn put_cells(
    text: &mut Vec<u8>,
    view: &View<'_, '_>,
    depth: u32,
    e: &Phrase,
    body: &Phrase,
    at: Place,
) -> Result<(), OutOfMemory>
    ensures { OnOk result (text.new.items
        ≡ text.old.items ++ text_in view.now (Tree.cells depth (reads e.now) (reads body.now) at)) }
{
    let entry = one_fresh(view, BinderForm::Cells, at, depth, body)?;
    put_behind(text, view, b"newintseq ", 11, e)?;
    put(text, b" (\\")?;
    put_one(text, &entry)?;
    put_inside(text, &*view, &entry, b": intvarseq. ", body)?;
    put(text, b")")
}

#[cycle(print)]
fn put_escape(
    text: &mut Vec<u8>,
    view: &View<'_, '_>,
    depth: u32,
    body: &Phrase,
    at: Place,
) -> Result<(), OutOfMemory>
    ensures { OnOk result (text.new.items ≡ text.old.items ++ text_in view.now (Tree.escape depth (reads body.now) at)) }
{
    let entry = one_fresh(view, BinderForm::Escape, at, depth, body)?;
    put(text, b"escape ")?;
    put_one(text, &entry)?;
    put_inside(text, &*view, &entry, b" in ", body)
}

#[cycle(print)]
fn put_accept(
    text: &mut Vec<u8>,
    view: &View<'_, '_>,
    depth: u32,
    ty: DataTy,
    body: &Phrase,
    at: Place,
) -> Result<(), OutOfMemory>
    ensures { OnOk result (text.new.items
        ≡ text.old.items ++ text_in view.now (Tree.accept depth ty (reads body.now) at)) }
{
    let entry = one_fresh(view, BinderForm::Accept, at, depth, body)?;
    put(text, b"accept ")?;
    put_one(text, &entry)?;
    put(text, b": ")?;
    put(text, data_word(ty))?;
    put_inside(text, &*view, &entry, b" in ", body)
}

// `f: A, ..`
fn put_declared(
    text: &mut Vec<u8>,
    view: &View<'_, '_>,
    fields: &[FieldText],
    ty: &Ty,
) -> Result<(), OutOfMemory>
    ensures { OnOk result (text.new.items ≡ text.old.items
        ++ declared_text (known_read view.now.known.now) (fields_read fields.now) [] (fields_of (plain_type ty.now))) }
{
    let declared = declared_fields(view.alloc, ty)?;
    let mut lead: &[u8] = b"";
    for field in &declared {
        put(text, lead)?;
        put_field_text(text, fields, field.field)?;
        put(text, b": ")?;
        put_type(text, view.known.names, field.ty)?;
        lead = b", ";
    }
    Ok(())
}

fn put_field_text(text: &mut Vec<u8>, fields: &[FieldText], name: Name) -> Result<(), OutOfMemory>
    ensures { OnOk result (text.new.items ≡ text.old.items ++ defined_name (fields_read fields.now) name) }
{
    match field_text(fields, name) {
        Some(shown) => put(text, shown),
        None => Ok(()),
    }
}

/// Puts the name of a binder behind the text.
pub fn put_one(text: &mut Vec<u8>, entry: &EntryText) -> Result<(), OutOfMemory>
    ensures { OnOk result (text.new.items ≡ text.old.items ++ entry_name (entry_read entry.now)) }
{
    match entry {
        EntryText::One(name) => put(text, name),
        EntryText::Unnamed | EntryText::All(_) => Ok(()),
    }
}

fn fields_of_entry(entry: &EntryText) -> &[FieldText]
    ensures { fields_read result.now ≡ fields_in (entry_read entry.now) }
{
    match entry {
        EntryText::All(fields) => fields,
        EntryText::Unnamed | EntryText::One(_) => &[],
    }
}

// A variable: its name, and for a record its fields.
fn put_entry(text: &mut Vec<u8>, entry: Option<&EntryText>) -> Result<(), OutOfMemory>
    ensures { OnOk result (text.new.items ≡ text.old.items ++ (entry_shown (entry_or entry.entry)).1 Whole) }
{
    match entry {
        None | Some(EntryText::Unnamed) => put(text, b"n"),
        Some(EntryText::One(name)) => put(text, name),
        Some(EntryText::All(fields)) => put_record(text, fields),
    }
}

// The fields of a record, in parentheses where there are two or more.
#[tactic(auto, using(crate::proofs::RecordLemmas::records))]
fn put_record(text: &mut Vec<u8>, fields: &[FieldText]) -> Result<(), OutOfMemory>
    ensures { OnOk result (text.new.items ≡ text.old.items ++ (entry_shown (all (fields_read fields.now))).1 Whole) }
{
    if fields.len() < 2 {
        return put_fields(text, fields);
    }
    put(text, b"(")?;
    put_fields(text, fields)?;
    put(text, b")")
}

// Each field as itself.
fn put_fields(text: &mut Vec<u8>, fields: &[FieldText]) -> Result<(), OutOfMemory>
    ensures { OnOk result (text.new.items ≡ text.old.items ++ fields_text [] (fields_read fields.now)) }
{
    let mut lead: &[u8] = b"";
    for field in fields {
        put(text, lead)?;
        put(text, &field.text)?;
        put(text, b" == ")?;
        put(text, &field.text)?;
        lead = b", ";
    }
    Ok(())
}
