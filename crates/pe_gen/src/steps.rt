//! The shapes of a table by their first demands.

ghost use Rattle.std.specs.Prelude.{ℕ, ◌≡◌, ◌≢◌, ◌<◌, ◌≤◌, ◌↔◌, Some, IfOk, IsTrue, MatchOption, length, slice_get};
ghost use Rattle.fy_derive.specs.Shapes.{at_end};
ghost use Rattle.fy_derive.specs.ShapeTables.{behind, plain_end, plain_shape};
ghost use Rattle.pe_right.specs.Right.{AreSequencesOf};
ghost use Rattle.pe_gen.specs.Steps.{shape_in, IsStep, AreSteps, AreShapesOnce};

use fy_base::OutOfMemory;
use fy_phrase::{Shape, ShapeElem, ShapeEnd, ShapeTable};
use fy_types::Name;
use indexmap::IndexSet;
use pe_code::SequenceShapes;
use std::alloc::Global;

// The number of the name `len`.
const LENGTH: Name = 0;

/// A shape by its first demand.
#[derive(Clone, Copy, PartialEq, Eq, Hash, Debug)]
pub enum ShapeStep {
    /// The last demand, and nothing before it.
    End(ShapeEnd),
    /// A demand before the shape with the number.
    Before(ShapeElem, u32),
    /// A demand before what is no shape of the table. The number is the shape's own.
    Apart(u32),
}

/// The steps of the shapes, each at the shape's number.
pub fn steps_of(alloc: Global, shapes: &[Shape]) -> Result<IndexSet<ShapeStep>, OutOfMemory>
    requires few { length shapes.now ≤ 256 }
    requires once { AreShapesOnce shapes.now }
    ensures { IfOk result (λ steps. AreSteps shapes.now steps.keys) }
{
    let mut steps = IndexSet::new(alloc);
    for number in 0..shapes.len() {
        steps.insert(step_of(shapes, number as u32))?;
    }
    Ok(steps)
}

/// The number of the shape that has the step.
pub fn number_of_step(steps: &IndexSet<ShapeStep>, step: ShapeStep) -> Option<u32>
    requires { length steps.now.keys ≤ 256 }
    ensures { MatchOption result ((n : ℕ) → slice_get steps.now.keys n ≢ Some step) (λ n. slice_get steps.now.keys n ≡ Some step) }
{
    match steps.get_index_of(&step) {
        Some(number) => Some(number as u32),
        None => None,
    }
}

fn step_of(shapes: &[Shape], number: u32) -> ShapeStep
    requires few { length shapes.now ≤ 256 }
    requires within { number < length shapes.now }
    ensures { IsStep shapes.now number result }
{
    let shape = &shapes[number as usize];
    match shape.elems.as_slice().split_first() {
        None => ShapeStep::End(shape.end),
        Some((first, rest)) => match number_of(shapes, rest, shape.end) {
            Some(behind) => ShapeStep::Before(*first, behind),
            None => ShapeStep::Apart(number),
        },
    }
}

/// The numbers of the shapes at which sequences of cells are used.
pub fn sequence_shapes(table: &ShapeTable) -> SequenceShapes
    requires few { length table.now.shapes ≤ 256 }
    requires once { AreShapesOnce table.now.shapes }
    ensures { AreSequencesOf table.now result }
{
    let shapes = table.shapes.as_slice();
    let value = number_of(shapes, &[], ShapeEnd::Value);
    let element = number_of(shapes, &[ShapeElem::Call], ShapeEnd::Value);
    let assigned_element = number_of(shapes, &[ShapeElem::Call], ShapeEnd::Assign);
    let row_length = number_of(shapes, &[ShapeElem::Field(LENGTH)], ShapeEnd::Value);
    SequenceShapes {
        value,
        element,
        assigned_element,
        row_length,
    }
}

// The number of the shape with these demands.
fn number_of(shapes: &[Shape], elems: &[ShapeElem], end: ShapeEnd) -> Option<u32>
    requires { length shapes.now ≤ 256 }
    ensures { MatchOption result
        ((n : ℕ) → shape_in shapes.now n ≢ Some (behind elems.now (at_end (plain_end end))))
        (λ n. shape_in shapes.now n ≡ Some (behind elems.now (at_end (plain_end end)))) }
{
    for (number, shape) in shapes.iter().enumerate() {
        if has_demands(shape, elems, end) {
            return Some(number as u32);
        }
    }
    None
}

// Whether these are the demands of the shape.
fn has_demands(shape: &Shape, elems: &[ShapeElem], end: ShapeEnd) -> bool
    ensures { IsTrue result ↔ (plain_shape shape.now ≡ behind elems.now (at_end (plain_end end))) }
{
    shape.end == end && shape.elems.as_slice() == elems
}
