//! Walking a derivation: the shapes of what each node concludes.

ghost use Rattle.std.specs.Prelude.{ℕ, ◌≡◌, ◌<◌, ◌≤◌, [], ◌∷◌, List, IfOk, length, map, replicate};
ghost use Rattle.fy_types.specs.Types.{PlainType, meet};
ghost use Rattle.fy_types.specs.Reading.{types_from};
ghost use Rattle.fy_phrase.specs.Reads.{reads};
ghost use Rattle.fy_derive.specs.Derivations.{count as count_of};
ghost use Rattle.fy_derive.specs.Judging.{judged as judged_type, each_judged, concludes, all_conclude};
ghost use Rattle.fy_derive.specs.Reading.{plain_derivation, plain_derivations};
ghost use Rattle.fy_derive.specs.Rules.{nothing};
ghost use Rattle.fy_derive.specs.Shapes.{HasPair, OneHasPair, PremiseHasPair};
ghost use Rattle.fy_phrase.specs.Premises.{premise_shown};
ghost use Rattle.pe_shapes.specs.Contexts.{bounds};
ghost use Rattle.pe_shapes.specs.Finding.{IsFound, IsWalk, AreWalks, Stays, AllStay};
ghost use Rattle.pe_shapes.specs.Parts.{AreSizes, parts_in};
ghost use Rattle.pe_shapes.specs.Standing.{AreBound, AreFit};

use crate::conclusion::concluded;
use crate::context::{Bound, Context, under};
use crate::error::ShapeError;
use crate::found::Found;
use crate::parts::parts;
use crate::sets::{add_all, fronted, listed};
use crate::types::shapes_of_type;
use fy_derive::{Derivation, DerivationList, alternative};
use fy_phrase::{Given, Phrase, Premise, ShapeElem};
use indexmap::IndexSet;
use std::alloc::Global;

/// Records the shapes of what the derivation and each node in it conclude, and gives the derivation's
/// own. `node` is the phrase's preorder number, and `sizes` has the number of nodes of each part by
/// its number. Of a derivation at which judging stops it says nothing.
#[cycle(walking)]
pub fn walk(
    alloc: Global,
    found: &mut Found,
    sizes: &[usize],
    node: usize,
    d: &Derivation,
    context: &Context<'_>,
    p: &Phrase,
) -> Result<Vec<usize>, ShapeError>
    requires sound { IsFound found.old }
    requires context { AreBound found.old.numbers (bounds context.now) }
    requires sizes { AreSizes sizes.now node (reads p.now ∷ []) }
    requires few { length sizes.now ≤ 65536 }
    ensures walked { (G : List PlainType) (A : PlainType) → AreFit found.old.numbers (bounds context.now) G →
        judged_type (plain_derivation d.now) 0 G (reads p.now) ≡ concludes A →
        IsWalk result found.old found.new A (HasPair (plain_derivation d.now) node G (reads p.now)) }
    ensures stays { IfOk result (λ v. Stays found.old found.new v.items) }
{
    match d {
        Derivation::Ns => found.recorded(node, Vec::new(alloc)),
        Derivation::Sub(ty, inner) => {
            walk(alloc, found, sizes, node, inner, context, p)?;
            let set = shapes_of_type(alloc, &mut found.numbers, ty)?;
            found.recorded(node, set)
        }
        Derivation::Meet(list) => {
            let set = walk_all(alloc, found, sizes, node, list, context, p)?;
            found.recorded(node, set)
        }
        Derivation::Alt(index, inner) => {
            let Some((ty, body)) = alternative(p, *index) else {
                return Ok(Vec::new(alloc));
            };
            let inside = Context::Under(Bound::Given(Given::Type(ty)), &*context);
            let behind = walk(alloc, found, sizes, node + 1, inner, &inside, body)?;
            let set = fronted(alloc, &mut found.numbers, ShapeElem::Call, &behind)?;
            found.recorded(node, set)
        }
        Derivation::Left(inner) => {
            let Some((left, _)) = p.as_merge() else {
                return Ok(Vec::new(alloc));
            };
            let set = walk(alloc, found, sizes, node + 1, inner, context, left)?;
            found.recorded(node, set)
        }
        Derivation::Right(inner) => {
            let Some((_, right)) = p.as_merge() else {
                return Ok(Vec::new(alloc));
            };
            let behind = node + 1 + sizes[node + 1];
            let set = walk(alloc, found, sizes, behind, inner, context, right)?;
            found.recorded(node, set)
        }
        Derivation::Rule(list) => {
            let premises = parts(alloc, &*p)?;
            if list.len() != premises.len() {
                return Ok(Vec::new(alloc));
            }
            let done = walk_each(alloc, found, sizes, node + 1, list, context, &premises)?;
            let set = concluded(alloc, &mut found.numbers, context, p, &done)?;
            found.recorded(node, set)
        }
    }
}

// The shapes of what the derivations conclude for the phrase, all together.
#[cycle(walking)]
fn walk_all(
    alloc: Global,
    found: &mut Found,
    sizes: &[usize],
    node: usize,
    list: &DerivationList,
    context: &Context<'_>,
    p: &Phrase,
) -> Result<Vec<usize>, ShapeError>
    requires sound { IsFound found.old }
    requires context { AreBound found.old.numbers (bounds context.now) }
    requires sizes { AreSizes sizes.now node (reads p.now ∷ []) }
    requires few { length sizes.now ≤ 65536 }
    ensures walked { (G As : List PlainType) (n : ℕ) → AreFit found.old.numbers (bounds context.now) G →
        each_judged (plain_derivations list.now) n G (replicate (count_of (plain_derivations list.now)) (nothing, reads p.now)) [] ≡ all_conclude As →
        IsWalk result found.old found.new (meet (types_from As)) (OneHasPair (plain_derivations list.now) node G (reads p.now)) }
    ensures stays { IfOk result (λ v. Stays found.old found.new v.items) }
{
    let mut met = IndexSet::new(alloc);
    let items = list.as_slice();
    for i in 0..items.len() {
        let set = walk(alloc, found, sizes, node, &items[i], context, p)?;
        add_all(&mut met, &set)?;
    }
    let all = listed(alloc, &met)?;
    Ok(all)
}

// The shapes of what the derivations conclude for the premises, in order. The first part has the
// number `first`.
#[cycle(walking)]
fn walk_each(
    alloc: Global,
    found: &mut Found,
    sizes: &[usize],
    first: usize,
    list: &DerivationList,
    context: &Context<'_>,
    premises: &[Premise<'_>],
) -> Result<Vec<Vec<usize>>, ShapeError>
    requires sound { IsFound found.old }
    requires context { AreBound found.old.numbers (bounds context.now) }
    requires sizes { AreSizes sizes.now first (parts_in premises.now) }
    requires few { length sizes.now ≤ 65536 }
    requires all { length premises.now ≡ count_of (plain_derivations list.now) }
    ensures walked { (G As : List PlainType) (n : ℕ) → AreFit found.old.numbers (bounds context.now) G →
        each_judged (plain_derivations list.now) n G (map premise_shown premises.now) [] ≡ all_conclude As →
        AreWalks result found.old found.new As (PremiseHasPair (plain_derivations list.now) first G (map premise_shown premises.now) []) }
    ensures stays { IfOk result (λ v. AllStay found.old found.new v.items) }
{
    let items = list.as_slice();
    let mut done = Vec::new(alloc);
    let mut node = first;
    for i in 0..items.len() {
        let premise = &premises[i];
        let inside = under(&*context, premise.binds, &done);
        let set = walk(alloc, found, sizes, node, &items[i], &inside, premise.part)?;
        node += sizes[node];
        done.push(set)?;
    }
    Ok(done)
}
