//! The order of shapes.

ghost use Rattle.std.specs.Prelude.{◌≡◌, ◌≢◌, ◌<◌, IfOk, Contains};
ghost use Rattle.std.specs.List.Sorted.{IsPermutation};
ghost use Rattle.fy_derive.specs.Shapes.{PlainShape};
ghost use Rattle.fy_derive.specs.ShapeTables.{plain_end};
ghost use Rattle.pe_shapes.specs.Counts.{StandOnce};
ghost use Rattle.pe_shapes.specs.Numbering.{in_front};
ghost use Rattle.pe_shapes.specs.Order.{end_rank, comes_before as before};
ghost use Rattle.pe_shapes.specs.Placing.{AreNumbersInOrder, IsPlaceAmong};
ghost use Rattle.pe_shapes.specs.Shown.{shown, total, AreIn};

use crate::node::ShapeNode;
use crate::numbers::ShapeNumbers;
use fy_base::OutOfMemory;
use fy_phrase::{ShapeElem, ShapeEnd};
use std::alloc::Global;

fn rank_of(end: ShapeEnd) -> u8
    ensures { result ≡ end_rank (plain_end end) }
{
    match end {
        ShapeEnd::Value => 0,
        ShapeEnd::Assign => 1,
        ShapeEnd::Run => 2,
    }
}

// Whether shapes that begin with the one demand come before those that begin with the other.
fn demand_before(one: ShapeElem, other: ShapeElem) -> bool
    ensures { (s t : PlainShape) → one ≢ other → result ≡ before (in_front one s) (in_front other t) }
{
    match (one, other) {
        (ShapeElem::Call, ShapeElem::Call) => false,
        (ShapeElem::Call, ShapeElem::Field(_)) => true,
        (ShapeElem::Field(_), ShapeElem::Call) => false,
        (ShapeElem::Field(i), ShapeElem::Field(j)) => i < j,
    }
}

// Whether the shape with the one number comes before that with the other.
fn comes_before(numbers: &ShapeNumbers, one: usize, other: usize) -> bool
    requires one { one < total numbers.now }
    requires other { other < total numbers.now }
    ensures { result ≡ before (shown numbers.now one) (shown numbers.now other) }
{
    let mut left = one;
    let mut right = other;
    'demands: loop {
        match (numbers.node(left), numbers.node(right)) {
            (ShapeNode::End(x), ShapeNode::End(y)) => return rank_of(x) < rank_of(y),
            (ShapeNode::End(_), ShapeNode::Front(..)) => return true,
            (ShapeNode::Front(..), ShapeNode::End(_)) => return false,
            (ShapeNode::Front(x, s), ShapeNode::Front(y, t)) => {
                if x != y {
                    return demand_before(x, y);
                }
                left = s;
                right = t;
            }
        }
    }
}

// How many of the shapes in order come before that with the number, which is none of them.
fn place_among(numbers: &ShapeNumbers, order: &[usize], number: usize) -> usize
    requires within { AreIn numbers.now order.now }
    requires number { number < total numbers.now }
    requires ordered { AreNumbersInOrder numbers.now order.now }
    requires other { Contains order.now number → ⊥ }
    ensures { IsPlaceAmong numbers.now order.now number result }
{
    let mut low = 0;
    let mut high = order.len();
    'halves: while low < high {
        let middle = low + (high - low) / 2;
        if comes_before(numbers, order[middle], number) {
            low = middle + 1;
        } else {
            high = middle;
        }
    }
    low
}

/// The numbers by the order of their shapes.
pub fn in_order(
    alloc: Global,
    numbers: &ShapeNumbers,
    set: &[usize],
) -> Result<Vec<usize>, OutOfMemory>
    requires within { AreIn numbers.now set.now }
    requires once { StandOnce set.now }
    ensures moved { IfOk result (λ v. IsPermutation set.now v.items) }
    ensures ordered { IfOk result (λ v. AreNumbersInOrder numbers.now v.items) }
{
    let mut order = Vec::new(alloc);
    for number in set {
        let place = place_among(numbers, &order, *number);
        order.insert(place, *number)?;
    }
    Ok(order)
}
