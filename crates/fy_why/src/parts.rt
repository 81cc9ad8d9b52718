//! Texts of phrases and of their direct parts.

ghost use Rattle.std.specs.Prelude.{◌≡◌, ◌++◌, OnOk, map};
ghost use Rattle.fy_phrase.specs.Reads.{reads};
ghost use Rattle.fy_causes.specs.Occurrences.{parts_of};
ghost use Rattle.fy_causes.specs.Readings.{around_read, explained_read, part_at};
ghost use Rattle.fy_show.specs.Reading.{known_in, scope_in};
ghost use Rattle.fy_why.specs.Readings.{is_under_binder};
ghost use Rattle.fy_why.specs.Sentences.{has_text, part_of, part_text, phrase_told, place_in, scope_of, type_text};

use crate::types::put_paths;
use crate::words::put_place;
use fy_base::OutOfMemory;
use fy_causes::Explained;
use fy_phrase::Phrase;
use fy_short::{put, put_cut};
use fy_show::{Manner, ScopeTexts, View, bound, in_manner, in_scope, print_shown};

// Of a phrase that a sentence tells.
const PHRASE_PART: usize = 40;

/// Puts the phrase between back quotes behind the text, at most 40 bytes of it.
pub(crate) fn put_phrase(
    text: &mut Vec<u8>,
    view: &View<'_, '_>,
    p: &Phrase,
) -> Result<(), OutOfMemory>
    ensures { OnOk result (text.new.items ≡ text.old.items ++ phrase_told (known_in view.now) (scope_in view.now) (reads p.now)) }
{
    let whole = print_shown(&in_manner(view, Manner::Whole), p)?;
    put(text, b"`")?;
    put_cut(text, PHRASE_PART, whole.as_slice())?;
    put(text, b"`")
}

/// Puts the part with the index between back quotes behind the text.
pub(crate) fn put_part_phrase(
    text: &mut Vec<u8>,
    view: &View<'_, '_>,
    e: &Explained<'_>,
    index: usize,
) -> Result<(), OutOfMemory>
    requires parts { map part_at e.now.parts.items ≡ parts_of (around_read e.now.at.around.value) (reads e.now.at.phrase.now) }
    requires scope { scope_in view.now ≡ scope_of (known_in view.now) (around_read e.now.at.around.value) }
    ensures { OnOk result (text.new.items ≡ text.old.items ++ part_text (known_in view.now) (explained_read e.now) index) }
{
    if index >= e.parts.len() {
        return Ok(());
    }
    let part = e.parts[index].at.phrase;
    if !is_under(e.at.phrase, index) {
        return put_phrase(text, view, part);
    }
    let entry = bound(view, e.at.phrase)?;
    let scope = ScopeTexts::Inside(&entry, view.scope);
    put_phrase(text, &in_scope(&*view, &scope), part)
}

/// Puts the type of the part with the index behind the text.
pub(crate) fn put_part_type(
    text: &mut Vec<u8>,
    view: &View<'_, '_>,
    e: &Explained<'_>,
    index: usize,
) -> Result<(), OutOfMemory>
    ensures { OnOk result (text.new.items ≡ text.old.items ++ type_text (known_in view.now) (explained_read e.now) index) }
{
    if index < e.parts.len() {
        put_paths(text, view, &e.parts[index].paths)
    } else {
        put(text, b"only ns")
    }
}

/// Puts the place of the part with the index behind the text.
pub(crate) fn put_part_place(
    text: &mut Vec<u8>,
    e: &Explained<'_>,
    index: usize,
) -> Result<(), OutOfMemory>
    ensures { OnOk result (text.new.items ≡ text.old.items ++ place_in (part_of (explained_read e.now) index)) }
{
    if index < e.parts.len() {
        put_place(text, e.parts[index].at.phrase.place())
    } else {
        Ok(())
    }
}

/// Puts what the part with the index is and has behind the text.
pub(crate) fn put_having(
    text: &mut Vec<u8>,
    view: &View<'_, '_>,
    e: &Explained<'_>,
    index: usize,
) -> Result<(), OutOfMemory>
    requires parts { map part_at e.now.parts.items ≡ parts_of (around_read e.now.at.around.value) (reads e.now.at.phrase.now) }
    requires scope { scope_in view.now ≡ scope_of (known_in view.now) (around_read e.now.at.around.value) }
    ensures { OnOk result (text.new.items ≡ text.old.items ++ has_text (known_in view.now) (explained_read e.now) index) }
{
    put_part_phrase(text, view, e, index)?;
    put(text, b" has ")?;
    put_part_type(text, view, e, index)
}

/// Whether the part of the phrase with the index stands under the phrase's binder.
pub(crate) fn is_under(p: &Phrase, index: usize) -> bool
    ensures { result ≡ is_under_binder (reads p.now) index }
{
    match p {
        Phrase::Lam(..) | Phrase::Rec(..) | Phrase::Escape(..) | Phrase::Accept(..) => true,
        Phrase::LetIn(..) | Phrase::New(..) | Phrase::Cells(..) => index == 1,
        Phrase::Var(..)
        | Phrase::Lit(..)
        | Phrase::Unary(..)
        | Phrase::Binary(..)
        | Phrase::Cond(..)
        | Phrase::Case(..)
        | Phrase::App(..)
        | Phrase::Field(..)
        | Phrase::Sel(..)
        | Phrase::Merge(..)
        | Phrase::Skip(_)
        | Phrase::Seq(..)
        | Phrase::Assign(..)
        | Phrase::WhileDo(..)
        | Phrase::Forever(..)
        | Phrase::Put(..)
        | Phrase::Read(..)
        | Phrase::Mark(..) => false,
    }
}
