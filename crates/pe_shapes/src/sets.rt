//! Sets of shapes, as lists of numbers.

ghost use Rattle.std.specs.Prelude.{ℕ, ◌≡◌, ◌<◌, ◌⊎◌, [], ◌∷◌, IfOk, OnOk, MatchOption, Contains, map};
ghost use Rattle.fy_derive.specs.Shapes.{PlainShape, at_end};
ghost use Rattle.fy_derive.specs.ShapeTables.{plain_end};
ghost use Rattle.pe_shapes.specs.Numbering.{in_front};
ghost use Rattle.pe_shapes.specs.Shown.{shown, total, all_shown, Extends, AreIn};

use crate::node::ShapeNode;
use crate::numbers::ShapeNumbers;
use fy_base::OutOfMemory;
use fy_phrase::{ShapeElem, ShapeEnd};
use indexmap::IndexSet;
use std::alloc::Global;

/// The shape that has no demand before its last one.
pub fn single(
    alloc: Global,
    numbers: &mut ShapeNumbers,
    end: ShapeEnd,
) -> Result<Vec<usize>, OutOfMemory>
    ensures within { IfOk result (λ v. AreIn numbers.new v.items) }
    ensures shown { IfOk result (λ v. all_shown numbers.new v.items ≡ at_end (plain_end end) ∷ []) }
    ensures extends { OnOk result (Extends numbers.old numbers.new) }
{
    let mut all = Vec::new(alloc);
    let number = numbers.number(ShapeNode::End(end))?;
    all.push(number)?;
    Ok(all)
}

/// Each of the shapes with the demand in front.
pub fn fronted(
    alloc: Global,
    numbers: &mut ShapeNumbers,
    elem: ShapeElem,
    set: &[usize],
) -> Result<Vec<usize>, OutOfMemory>
    requires { AreIn numbers.old set.now }
    ensures within { IfOk result (λ v. AreIn numbers.new v.items) }
    ensures shown { IfOk result (λ v. all_shown numbers.new v.items ≡ map (in_front elem) (all_shown numbers.old set.now)) }
    ensures extends { OnOk result (Extends numbers.old numbers.new) }
{
    let mut all = Vec::new(alloc);
    for number in set {
        let one = numbers.number(ShapeNode::Front(elem, *number))?;
        all.push(one)?;
    }
    Ok(all)
}

// What is behind the demand, if the shape begins with it.
fn rest_behind(numbers: &ShapeNumbers, elem: ShapeElem, number: usize) -> Option<usize>
    requires { number < total numbers.now }
    ensures { MatchOption result ((s : PlainShape) → shown numbers.now number ≡ in_front elem s → ⊥)
        (λ k. (k < total numbers.now) × (shown numbers.now number ≡ in_front elem (shown numbers.now k))) }
{
    match numbers.node(number) {
        ShapeNode::End(_) => None,
        ShapeNode::Front(first, behind) => { if first == elem { Some(behind) } else { None } }
    }
}

/// What is behind the demand, of the shapes that begin with it.
pub fn rests(
    alloc: Global,
    numbers: &ShapeNumbers,
    elem: ShapeElem,
    set: &[usize],
) -> Result<Vec<usize>, OutOfMemory>
    requires { AreIn numbers.now set.now }
    ensures within { IfOk result (λ v. AreIn numbers.now v.items) }
    ensures has { IfOk result (λ v. (s : PlainShape) →
        Contains (all_shown numbers.now set.now) (in_front elem s) → Contains (all_shown numbers.now v.items) s) }
    ensures known { IfOk result (λ v. (s : PlainShape) →
        Contains (all_shown numbers.now v.items) s → Contains (all_shown numbers.now set.now) (in_front elem s)) }
{
    let mut all = Vec::new(alloc);
    for number in set {
        if let Some(behind) = rest_behind(numbers, elem, *number) {
            all.push(behind)?;
        }
    }
    Ok(all)
}

/// Adds the numbers of a list to a set.
pub fn add_all(met: &mut IndexSet<usize>, set: &[usize]) -> Result<(), OutOfMemory>
    ensures kept { OnOk result ((k : ℕ) → Contains met.old.keys k → Contains met.new.keys k) }
    ensures has { OnOk result ((k : ℕ) → Contains set.now k → Contains met.new.keys k) }
    ensures known { OnOk result ((k : ℕ) → Contains met.new.keys k → Contains met.old.keys k ⊎ Contains set.now k) }
{
    for number in set {
        met.insert(*number)?;
    }
    Ok(())
}

/// The numbers in a set, as a list.
pub fn listed(alloc: Global, met: &IndexSet<usize>) -> Result<Vec<usize>, OutOfMemory>
    ensures { IfOk result (λ v. v.items ≡ met.now.keys) }
{
    copied(alloc, met.as_slice())
}

/// The same numbers once more.
pub fn copied(alloc: Global, set: &[usize]) -> Result<Vec<usize>, OutOfMemory>
    ensures { IfOk result (λ v. v.items ≡ set.now) }
{
    let all = set.to_vec(alloc)?;
    Ok(all)
}
