//! The `let`s of the prelude, at the root of a program's derivation.

ghost use Rattle.std.specs.Prelude.{◌≡◌, ◌<◌, None, option_map};
ghost use Rattle.fy_phrase.specs.Reads.{reads};
ghost use Rattle.fy_derive.specs.Reading.{plain_derivation, plain_derivations};
ghost use Rattle.fy_tree.specs.Reading.{let_parts as let_parts_of, raised_part, two_below as two_below_of, two_in};
ghost use Rattle.fy_tree.specs.Whole.{has_lets as has_lets_of};

use crate::walk::part_of;
use fy_derive::{Derivation, DerivationList};
use fy_phrase::Phrase;

/// Whether so many `let`s stand at the root, each below the one before.
#[cycle(has_lets)]
pub(crate) fn has_lets(count: u32, d: &Derivation, p: &Phrase) -> bool
    ensures { result ≡ has_lets_of count (plain_derivation d.now) (reads p.now) }
{
    if count == 0 {
        return true;
    }
    match part_of(d) {
        Some(inner) => has_lets(count, inner, p),
        None => has_let(count, d, p),
    }
}

// Whether one stands there that is no subsumption's part, above the others.
#[cycle(has_lets)]
fn has_let(count: u32, d: &Derivation, p: &Phrase) -> bool
    requires some { 0 < count }
    requires own { raised_part (plain_derivation d.now) ≡ None }
    ensures { result ≡ has_lets_of count (plain_derivation d.now) (reads p.now) }
{
    let Some((_, below)) = two_below(d) else {
        return false;
    };
    let Some((_, body)) = let_parts(p) else {
        return false;
    };
    has_lets(count - 1, below, body)
}

/// The derivations of the premises of a rule, where these are two.
pub(crate) fn two_below(d: &Derivation) -> Option<(&Derivation, &Derivation)>
    ensures { option_map (λ x. (plain_derivation x.0.now, plain_derivation x.1.now)) result ≡ two_below_of (plain_derivation d.now) }
{
    match d {
        Derivation::Rule(list) => two_of(list),
        Derivation::Ns
        | Derivation::Sub(..)
        | Derivation::Meet(_)
        | Derivation::Alt(..)
        | Derivation::Left(_)
        | Derivation::Right(_) => None,
    }
}

fn two_of(list: &DerivationList) -> Option<(&Derivation, &Derivation)>
    ensures { option_map (λ x. (plain_derivation x.0.now, plain_derivation x.1.now)) result ≡ two_in (plain_derivations list.now) }
{
    let items = list.as_slice();
    if items.len() != 2 {
        return None;
    }
    let first = &items[0];
    let second = &items[1];
    Some((first, second))
}

/// What a `let` defines, and its body.
pub(crate) fn let_parts(p: &Phrase) -> Option<(&Phrase, &Phrase)>
    ensures { option_map (λ x. (reads x.0.now, reads x.1.now)) result ≡ let_parts_of (reads p.now) }
{
    match p {
        Phrase::LetIn(_, defined, body, _) => Some((defined, body)),
        _ => None,
    }
}
