//! Pairs by the places of shapes in order.

ghost use Rattle.std.specs.Prelude.{◌≡◌, ◌<◌, ◌≤◌, IfOk, All, Contains, length, map, slice_get, Some};
ghost use Rattle.std.specs.List.Sorted.{IsPermutation};
ghost use Rattle.pe_shapes.specs.Placing.{ArePlaces, placed, AreNotBefore};

use fy_base::OutOfMemory;
use fy_phrase::Pair;
use std::alloc::Global;

// Where the number stands in the list.
#[tactic(auto, using(crate::proofs::PlaceLemmas::before_end, crate::proofs::PlaceLemmas::not_here, crate::proofs::PlaceLemmas::stands_here))]
fn place_of(order: &[usize], number: usize) -> usize
    requires { Contains order.now number }
    ensures within { result < length order.now }
    ensures stands { slice_get order.now result ≡ Some number }
{
    let mut place = 0;
    'places: while order[place] != number {
        place += 1;
    }
    place
}

/// Where in the one list what stands at each place of the other stands.
pub fn places(alloc: Global, used: &[usize], order: &[usize]) -> Result<Vec<u32>, OutOfMemory>
    requires moved { IsPermutation used.now order.now }
    requires few { length order.now ≤ 256 }
    ensures { IfOk result (λ v. ArePlaces used.now order.now v.items) }
{
    let mut all = Vec::new(alloc);
    for number in used {
        all.push(place_of(order, *number) as u32)?;
    }
    Ok(all)
}

/// The pairs with the new places of their shapes, by node and then by shape.
pub fn placed_pairs(alloc: Global, places: &[u32], pairs: &[Pair]) -> Result<Vec<Pair>, OutOfMemory>
    requires { All (λ x. x.shape < length places.now) pairs.now }
    ensures moved { IfOk result (λ v. IsPermutation (map (placed places.now) pairs.now) v.items) }
    ensures rising { IfOk result (λ v. AreNotBefore v.items) }
{
    let mut all = Vec::new(alloc);
    for pair in pairs {
        all.push(Pair {
            node: pair.node,
            shape: places[pair.shape as usize],
        })?;
    }
    all.sort_by_key(|pair| (pair.node, pair.shape))?;
    Ok(all)
}
