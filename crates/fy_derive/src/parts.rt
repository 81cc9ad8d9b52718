//! The parts of abstractions and of merges.

ghost use Rattle.std.specs.Prelude.{◌≡◌, option_map};
ghost use Rattle.fy_types.specs.Reading.{plain_type, plain_types};
ghost use Rattle.fy_phrase.specs.Reads.{reads};
ghost use Rattle.fy_derive.specs.Judging.{member as member_of, alternative as alternative_of, operands as operands_of};
ghost use Rattle.fy_derive.specs.Standing.{plain_kind};

use crate::kind::{Demand, demand_of};
use fy_phrase::Phrase;
use fy_types::{Ty, TyList};

/// The type with the index, if the list is so long.
fn member(types: &TyList, index: u32) -> Option<&Ty>
    ensures { option_map (λ x. plain_type x.now) result ≡ member_of (plain_types types.now) index }
{
    let items = types.as_slice();
    let i = index as usize;
    if i < items.len() {
        Some(&items[i])
    } else {
        None
    }
}

/// An abstraction's alternative with the index, and its body.
pub fn alternative(p: &Phrase, index: u32) -> Option<(&Ty, &Phrase)>
    ensures { option_map (λ x. (plain_type x.0.now, reads x.1.now)) result ≡ alternative_of index (reads p.now) }
{
    match p {
        Phrase::Lam(_, types, body, _) => match member(types, index) {
            Some(ty) => Some((ty, body)),
            None => None,
        },
        _ => None,
    }
}

/// A merge's operands, and what the right one takes.
pub fn operands(p: &Phrase) -> Option<(&Phrase, &Phrase, Demand)>
    ensures { option_map (λ x. (reads x.0.now, reads x.1.now, plain_kind x.2)) result ≡ operands_of (reads p.now) }
{
    match p {
        Phrase::Merge(left, right, _) => match demand_of(right) {
            Some(demand) => Some((left, right, demand)),
            None => None,
        },
        _ => None,
    }
}
