//! Where the items of code stand.

ghost use Rattle.std.specs.Prelude.{ℕ, ◌≡◌, ◌<◌, ◌≤◌, Some, IfOk, length, map, option_map, slice_get};
ghost use Rattle.fy_derive.specs.ShapeTables.{plain_shape};
ghost use Rattle.fy_phrase.specs.Reads.{reads};
ghost use Rattle.fy_phrase.specs.Tree.{Tree};
ghost use Rattle.pe_gen.specs.Preorder.{seen};
ghost use Rattle.pe_gen.specs.Sites.{is_merge as is_merge_of, right_of, taken_by, operand_at, IsListing, IsPlain, Stands, AreWithin, ArePairsInOrder, AreSites, LandAmong, ArePassed, AreAddressesFrom, AreEntries};

use crate::listing::number_behind;
use crate::nodes::Node;
use fy_base::OutOfMemory;
use fy_derive::{Demand, demand_of};
use fy_phrase::{Pair, Phrase, Shape, ShapeElem, ShapeEnd};
use indexmap::IndexSet;
use pe_code::{Entry, EntryList};
use std::alloc::Global;

/// The pairs whose nodes are no merges, each at the address of its item: the program's first, and the others in order.
pub fn sites_of(
    alloc: Global,
    nodes: &[Node<'_>],
    pairs: &[Pair],
    program: Pair,
) -> Result<IndexSet<Pair>, OutOfMemory>
    requires within { AreWithin (length nodes.now) pairs.now }
    requires program { Stands pairs.now program }
    requires plain { IsPlain (map seen nodes.now) program }
    requires ordered { ArePairsInOrder pairs.now }
    ensures { IfOk result (λ sites. AreSites (map seen nodes.now) pairs.now program sites.keys) }
{
    let mut sites = IndexSet::new(alloc);
    sites.insert(program)?;
    for pair in pairs {
        if !is_merge(nodes[pair.node as usize].phrase) {
            sites.insert(*pair)?;
        }
    }
    Ok(sites)
}

/// Whether the phrase is a merge.
pub fn is_merge(p: &Phrase) -> bool
    ensures { result ≡ is_merge_of (reads p.now) }
{
    right_operand(p).is_some()
}

// The right operand of a merge.
fn right_operand(p: &Phrase) -> Option<&Phrase>
    ensures { option_map (λ x. reads x.now) result ≡ right_of (reads p.now) }
{
    match p {
        Phrase::Merge(_, right, _) => Some(right),
        _ => None,
    }
}

/// The entries of the pairs: a merge is entered where the operand is that takes the demand.
pub fn entries_of(
    alloc: Global,
    nodes: &[Node<'_>],
    shapes: &[Shape],
    pairs: &[Pair],
    sites: &IndexSet<Pair>,
) -> Result<EntryList, OutOfMemory>
    requires few { length nodes.now ≤ 65536 }
    requires small { length sites.now.keys ≤ 65536 }
    requires within { AreWithin (length nodes.now) pairs.now }
    requires shapes { (i : ℕ) (x : Pair) → slice_get pairs.now i ≡ Some x → x.shape < length shapes.now }
    requires once { (i j : ℕ) (x : Pair) → slice_get pairs.now i ≡ Some x → slice_get pairs.now j ≡ Some x → i ≡ j }
    requires listing { IsListing (map seen nodes.now) }
    requires passed { ArePassed (map seen nodes.now) shapes.now pairs.now }
    requires land { LandAmong (map seen nodes.now) shapes.now pairs.now sites.now.keys }
    ensures { IfOk result (λ entries. AreEntries (map seen nodes.now) shapes.now pairs.now sites.now.keys entries) }
{
    let addresses = addresses_of(alloc, nodes, shapes, pairs, sites)?;
    let mut entries = EntryList::new(alloc);
    for (i, pair) in pairs.iter().enumerate() {
        entries.push(Entry {
            node: pair.node,
            shape: pair.shape,
            address: addresses[i],
        })?;
    }
    Ok(entries)
}

// The addresses of the sites at which the pairs land, from the last pair to the first: what a merge passes on stands behind it.
fn addresses_of(
    alloc: Global,
    nodes: &[Node<'_>],
    shapes: &[Shape],
    pairs: &[Pair],
    sites: &IndexSet<Pair>,
) -> Result<Vec<u32>, OutOfMemory>
    requires few { length nodes.now ≤ 65536 }
    requires small { length sites.now.keys ≤ 65536 }
    requires within { AreWithin (length nodes.now) pairs.now }
    requires shapes { (i : ℕ) (x : Pair) → slice_get pairs.now i ≡ Some x → x.shape < length shapes.now }
    requires once { (i j : ℕ) (x : Pair) → slice_get pairs.now i ≡ Some x → slice_get pairs.now j ≡ Some x → i ≡ j }
    requires listing { IsListing (map seen nodes.now) }
    requires passed { ArePassed (map seen nodes.now) shapes.now pairs.now }
    requires land { LandAmong (map seen nodes.now) shapes.now pairs.now sites.now.keys }
    ensures { IfOk result (λ made. AreAddressesFrom (map seen nodes.now) shapes.now pairs.now sites.now.keys 0 made.items) }
{
    let places = places_of(alloc, pairs)?;
    let mut addresses = vec![in alloc; 0; pairs.len()]?;
    for i in (0..pairs.len()).rev() {
        let pair = pairs[i];
        let shape = &shapes[pair.shape as usize];
        let address = match operand_of(nodes, pair.node, shape) {
            Some(node) => {
                let operand = Pair {
                    node,
                    shape: pair.shape,
                };
                addresses[place_of(&places, operand)]
            }
            None => place_of(sites, pair) as u32,
        };
        addresses[i] = address;
    }
    Ok(addresses)
}

// The pairs, each at its place.
fn places_of(alloc: Global, pairs: &[Pair]) -> Result<IndexSet<Pair>, OutOfMemory>
    requires { (i j : ℕ) (x : Pair) → slice_get pairs.now i ≡ Some x → slice_get pairs.now j ≡ Some x → i ≡ j }
    ensures { IfOk result (λ places. places.keys ≡ pairs.now) }
{
    let mut places = IndexSet::new(alloc);
    for pair in pairs {
        places.insert(*pair)?;
    }
    Ok(places)
}

// The place of a pair that is there.
fn place_of(pairs: &IndexSet<Pair>, pair: Pair) -> usize
    requires { Stands pairs.now.keys pair }
    ensures { slice_get pairs.now.keys result ≡ Some pair }
{
    pairs.get_index_of(&pair).unwrap()
}

// The number of the operand to which a merge passes demands of the shape.
fn operand_of(nodes: &[Node<'_>], number: u32, shape: &Shape) -> Option<u32>
    requires few { length nodes.now ≤ 65536 }
    requires within { number < length nodes.now }
    requires listing { IsListing (map seen nodes.now) }
    ensures { (d : ℕ) (q : Tree) → slice_get (map seen nodes.now) number ≡ Some (d, q) → result ≡ operand_at number q (plain_shape shape.now) }
{
    let right = right_operand(nodes[number as usize].phrase)?;
    let left = number + 1;
    if takes(right, shape) {
        Some(number_behind(nodes, left))
    } else {
        Some(left)
    }
}

// Whether a merge's right operand takes demands of the shape.
fn takes(right: &Phrase, shape: &Shape) -> bool
    ensures { result ≡ taken_by (reads right.now) (plain_shape shape.now) }
{
    match (demand_of(right), shape.elems.as_slice().first()) {
        (Some(Demand::Call), Some(ShapeElem::Call)) => true,
        (Some(Demand::Field(i)), Some(ShapeElem::Field(j))) => i == *j,
        (Some(Demand::Assignment), None) => shape.end == ShapeEnd::Assign,
        (_, _) => false,
    }
}
