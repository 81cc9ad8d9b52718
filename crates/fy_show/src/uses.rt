//! Which names the text of a phrase uses.

ghost use Rattle.std.specs.Prelude.{◌≡◌, ◌∷◌, map, option_copied, option_map};
ghost use Rattle.fy_phrase.specs.Reads.{reads, reads_parts};
ghost use Rattle.fy_show.specs.Entries.{field_name as field_name_of, unnamed};
ghost use Rattle.fy_show.specs.Fresh.{any_uses, is_some_name, is_taken as is_taken_of, record_at, uses};
ghost use Rattle.fy_show.specs.Reading.{fields_read, known_read, scope_read};

use crate::entries::{
    EntryText, FieldText, KnownNames, ScopeTexts, entry_at, has_name, is_field_text,
};
use fy_phrase::{Parts, Phrase};
use fy_short::{is_same, put_word};
use fy_types::Name;

/// Whether the text of the phrase uses the name, which no binder in it has.
#[cycle(uses)]
pub fn is_used(known: &KnownNames, text: &[u8], scope: &ScopeTexts, p: &Phrase) -> bool
    ensures { result ≡ uses (known_read known.now) text.now (scope_read scope.now) (reads p.now) }
{
    match p {
        Phrase::Var(k, _) => has_name(text, entry_at(scope, *k)),
        Phrase::Lit(..) | Phrase::Skip(_) => false,
        Phrase::Mark(..) => is_same(text, b""),
        Phrase::Unary(_, p, _) | Phrase::Field(_, p, _) | Phrase::Forever(p, _) => {
            is_used(known, text, scope, p)
        }
        Phrase::Binary(_, p, q, _)
        | Phrase::App(p, q, _)
        | Phrase::Merge(p, q, _)
        | Phrase::Seq(p, q, _)
        | Phrase::Assign(p, q, _)
        | Phrase::WhileDo(p, q, _) => {
            is_used(known, text, scope, p) || is_used(known, text, scope, q)
        }
        Phrase::Cond(b, p, q, _) => {
            is_used(known, text, scope, b)
                || is_used(known, text, scope, p)
                || is_used(known, text, scope, q)
        }
        Phrase::Case(e, parts, _) => {
            is_used(known, text, scope, e) || is_any_used(known, text, scope, parts)
        }
        Phrase::Lam(_, _, body, _)
        | Phrase::Rec(_, _, body, _)
        | Phrase::Escape(_, body, _)
        | Phrase::Accept(_, _, body, _) => is_used_inside(known, text, scope, body),
        Phrase::LetIn(_, p, body, _) | Phrase::New(_, _, p, body, _) => {
            is_used(known, text, scope, p) || is_used_inside(known, text, scope, body)
        }
        Phrase::Sel(p, i, _) => match record_of(known, scope, p) {
            Some(fields) => is_name_of(text, fields, *i),
            None => is_used(known, text, scope, p),
        },
        Phrase::Cells(_, e, body, _) => {
            is_same(text, b"newintseq")
                || is_used(known, text, scope, e)
                || is_used_inside(known, text, scope, body)
        }
        Phrase::Put(kind, p, _) => {
            is_same(text, put_word(*kind)) || is_used(known, text, scope, p)
        }
        Phrase::Read(p, _) => is_same(text, b"read") || is_used(known, text, scope, p),
    }
}

// The same of a phrase under one more binder.
#[cycle(uses)]
fn is_used_inside(known: &KnownNames, text: &[u8], scope: &ScopeTexts, body: &Phrase) -> bool
    ensures { result ≡ uses (known_read known.now) text.now (unnamed ∷ scope_read scope.now) (reads body.now) }
{
    is_used(known, text, &ScopeTexts::Unnamed(&*scope), body)
}

#[cycle(uses)]
fn is_any_used(known: &KnownNames, text: &[u8], scope: &ScopeTexts, parts: &Parts) -> bool
    ensures { result ≡ any_uses (known_read known.now) text.now (scope_read scope.now) (reads_parts parts.now) }
{
    for part in parts.as_slice() {
        if is_used(known, text, scope, part) {
            return true;
        }
    }
    false
}

/// The fields of a record in scope, if the phrase is one.
pub(crate) fn record_of<'a>(
    known: &KnownNames,
    scope: &ScopeTexts<'a>,
    p: &Phrase,
) -> Option<&'a [FieldText]>
    ensures { option_map (λ fs. fields_read fs.now) result
        ≡ record_at (known_read known.now) (scope_read scope.now) (reads p.now) }
{
    let _ = known;
    match p {
        Phrase::Var(k, _) => match entry_at(scope, *k) {
            Some(EntryText::All(fields)) => Some(fields),
            _ => None,
        },
        _ => None,
    }
}

/// The name that the field is shown with.
pub fn field_text<'a>(fields: &'a [FieldText], name: Name) -> Option<&'a [u8]>
    ensures { option_copied result ≡ field_name_of (fields_read fields.now) name }
{
    for field in fields {
        if name == field.field {
            return Some(&field.text);
        }
    }
    None
}

fn is_name_of(text: &[u8], fields: &[FieldText], name: Name) -> bool
    ensures { result ≡ is_some_name text.now (field_name_of (fields_read fields.now) name) }
{
    match field_text(fields, name) {
        Some(shown) => is_same(text, shown),
        None => false,
    }
}

/// Whether the name is used in the phrases under a binder, or stands for a field already.
pub(crate) fn is_taken(
    known: &KnownNames,
    scope: &ScopeTexts,
    bodies: &[&Phrase],
    done: &[FieldText],
    text: &[u8],
) -> bool
    ensures { result ≡ is_taken_of (known_read known.now) (scope_read scope.now)
        (map (λ p. reads p.now) bodies.now) (fields_read done.now) text.now }
{
    for body in bodies {
        if is_used_inside(known, text, scope, body) {
            return true;
        }
    }
    is_field_text(text, done)
}
