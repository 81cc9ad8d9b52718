//! The level of a phrase's text.

ghost use Rattle.std.specs.Prelude.{◌≡◌};
ghost use Rattle.fy_phrase.specs.Reads.{reads};
ghost use Rattle.fy_show.specs.Reading.{entry_or, shown_in};
ghost use Rattle.fy_show.specs.Texts.{entry_shown};

use crate::entries::{EntryText, entry_at};
use crate::sequence::is_sequence;
use crate::uses::{field_text, record_of};
use crate::view::View;
use fy_phrase::Phrase;
use fy_short::{datum_level, operator_level};

/// The level of the grammar at which the text of the phrase stands.
pub(crate) fn level_of(view: &View<'_, '_>, p: &Phrase) -> u8
    ensures { result ≡ (shown_in view.now (reads p.now)).0 }
{
    match p {
        Phrase::Var(k, _) => entry_level(entry_at(view.scope, *k)),
        Phrase::Lit(v, _) => datum_level(*v),
        Phrase::Skip(_) | Phrase::Mark(..) => 12,
        Phrase::Sel(p, i, _) => match record_of(view.known, view.scope, p) {
            Some(fields) => {
                if field_text(fields, *i).is_some() {
                    12
                } else {
                    11
                }
            }
            None => 11,
        },
        Phrase::App(..)
        | Phrase::Case(..)
        | Phrase::Cells(..)
        | Phrase::Put(..)
        | Phrase::Read(..) => 10,
        Phrase::Unary(..) => 9,
        Phrase::Binary(op, _, _, _) => operator_level(*op),
        Phrase::Cond(..)
        | Phrase::Lam(..)
        | Phrase::Field(..)
        | Phrase::LetIn(..)
        | Phrase::Rec(..)
        | Phrase::Assign(..)
        | Phrase::WhileDo(..)
        | Phrase::Forever(..)
        | Phrase::New(..)
        | Phrase::Escape(..)
        | Phrase::Accept(..) => 3,
        Phrase::Seq(..) => 2,
        Phrase::Merge(p, q, _) => { if is_sequence(p, q) { 12 } else { 1 } }
    }
}

// The level of a variable: a record of one field is that field's definition.
#[tactic(auto, using(crate::proofs::RecordLemmas::records))]
fn entry_level(entry: Option<&EntryText>) -> u8
    ensures { result ≡ (entry_shown (entry_or entry.entry)).0 }
{
    match entry {
        Some(EntryText::All(fields)) => { if fields.len() == 1 { 3 } else { 12 } }
        _ => 12,
    }
}
