//! The parts of a phrase that its rule has premises about.

ghost use Rattle.std.specs.Prelude.{◌≡◌, [], ◌∷◌, false, map, option_map, slice_get};
ghost use Rattle.fy_phrase.specs.Reads.{reads, reads_parts};
ghost use Rattle.fy_derive.specs.Rules.{of_parts};
ghost use Rattle.fy_told.specs.Reading.{premise_read};
ghost use Rattle.fy_told.specs.ReasonTexts.{about, premise_parts};

use fy_phrase::{Parts, Phrase};

/// What a premise is about, and whether that is under the phrase's binder.
#[derive(Clone, Copy, Drop)]
pub(crate) struct PremisePart<'a> {
    pub part: &'a Phrase,
    pub is_inside: bool,
}

/// What the premise with the index is about.
#[tactic(auto, using(crate::proofs::PremiseLemmas::premise_rules))]
pub(crate) fn premise_at(p: &Phrase, index: usize) -> Option<PremisePart<'_>>
    ensures { option_map premise_read result ≡ slice_get (premise_parts (reads p.now)) index }
{
    match p {
        Phrase::Unary(_, p, _)
        | Phrase::Field(_, p, _)
        | Phrase::Sel(p, _, _)
        | Phrase::Forever(p, _)
        | Phrase::Put(_, p, _)
        | Phrase::Read(p, _) => only(index, p, false),
        Phrase::Rec(_, _, body, _) | Phrase::Escape(_, body, _) | Phrase::Accept(_, _, body, _) => {
            only(index, body, true)
        }
        Phrase::Binary(_, p, q, _)
        | Phrase::App(p, q, _)
        | Phrase::Seq(p, q, _)
        | Phrase::Assign(p, q, _)
        | Phrase::WhileDo(p, q, _) => two(index, p, q, false),
        Phrase::LetIn(_, p, body, _)
        | Phrase::New(_, _, p, body, _)
        | Phrase::Cells(_, p, body, _) => two(index, p, body, true),
        Phrase::Cond(b, p, q, _) => {
            if index == 0 {
                only(0, b, false)
            } else {
                two(index - 1, p, q, false)
            }
        }
        Phrase::Case(e, parts, _) => {
            if index == 0 {
                only(0, e, false)
            } else {
                part_at(parts, index - 1)
            }
        }
        Phrase::Var(..)
        | Phrase::Lit(..)
        | Phrase::Skip(_)
        | Phrase::Lam(..)
        | Phrase::Merge(..)
        | Phrase::Mark(..) => None,
    }
}

#[tactic(auto, using(crate::proofs::PremiseLemmas::premise_rules))]
fn only(index: usize, part: &Phrase, is_inside: bool) -> Option<PremisePart<'_>>
    ensures { option_map premise_read result ≡ slice_get ((is_inside, reads part.now) ∷ []) index }
{
    if index == 0 {
        Some(PremisePart { part, is_inside })
    } else {
        None
    }
}

// The second one is inside where the phrase binds.
#[tactic(auto, using(crate::proofs::PremiseLemmas::premise_rules))]
fn two<'a>(
    index: usize,
    first: &'a Phrase,
    second: &'a Phrase,
    is_inside: bool,
) -> Option<PremisePart<'a>>
    ensures { option_map premise_read result
        ≡ slice_get ((false, reads first.now) ∷ (is_inside, reads second.now) ∷ []) index }
{
    if index == 0 {
        only(0, first, false)
    } else {
        only(index - 1, second, is_inside)
    }
}

#[tactic(auto, using(crate::proofs::PremiseLemmas::premise_rules))]
fn part_at(parts: &Parts, index: usize) -> Option<PremisePart<'_>>
    ensures { option_map premise_read result
        ≡ slice_get (map about (of_parts (reads_parts parts.now))) index }
{
    let items = parts.as_slice();
    if index < items.len() {
        Some(PremisePart {
            part: &items[index],
            is_inside: false,
        })
    } else {
        None
    }
}
