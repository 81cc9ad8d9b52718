//! How large a derivation is.

ghost use Rattle.std.specs.Prelude.{◌≡◌};
ghost use Rattle.fy_derive.specs.Derivations.{nodes, all_nodes, nesting, all_nesting, capped};
ghost use Rattle.fy_derive.specs.Reading.{plain_derivation, plain_derivations};

use crate::derivation::{Derivation, DerivationList};

/// The number of nodes, or 4294967295 where it is greater. It takes no memory.
#[cycle(nodes)]
pub fn nodes_of(d: &Derivation) -> u32
    ensures { result ≡ capped (nodes (plain_derivation d.now)) }
{
    match d {
        Derivation::Ns => 1,
        Derivation::Sub(_, inner)
        | Derivation::Alt(_, inner)
        | Derivation::Left(inner)
        | Derivation::Right(inner) => nodes_of(inner).saturating_add(1),
        Derivation::Meet(list) | Derivation::Rule(list) => nodes_of_all(list).saturating_add(1),
    }
}

#[tactic(auto, using(crate::proofs::SizeLemmas::sizes))]
#[cycle(nodes)]
fn nodes_of_all(list: &DerivationList) -> u32
    ensures { result ≡ capped (all_nodes (plain_derivations list.now)) }
{
    let mut count = 0u32;
    for d in list.as_slice() {
        count = count.saturating_add(nodes_of(d));
    }
    count
}

/// The greatest number of nodes on one path, or 4294967295 where it is greater. It takes no memory.
#[cycle(nesting)]
pub fn nesting_of(d: &Derivation) -> u32
    ensures { result ≡ capped (nesting (plain_derivation d.now)) }
{
    match d {
        Derivation::Ns => 1,
        Derivation::Sub(_, inner)
        | Derivation::Alt(_, inner)
        | Derivation::Left(inner)
        | Derivation::Right(inner) => nesting_of(inner).saturating_add(1),
        Derivation::Meet(list) | Derivation::Rule(list) => nesting_of_all(list).saturating_add(1),
    }
}

#[tactic(auto, using(crate::proofs::SizeLemmas::sizes))]
#[cycle(nesting)]
fn nesting_of_all(list: &DerivationList) -> u32
    ensures { result ≡ capped (all_nesting (plain_derivations list.now)) }
{
    let mut greatest = 0u32;
    for d in list.as_slice() {
        greatest = greatest.max(nesting_of(d));
    }
    greatest
}
