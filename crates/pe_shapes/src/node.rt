//! The nodes of a table of shapes.

use fy_phrase::{ShapeElem, ShapeEnd};

/// A shape of a table. What stands behind a demand is named by the number of an earlier shape.
#[derive(Clone, Copy, PartialEq, Eq, Hash, Debug, Drop)]
pub enum ShapeNode {
    End(ShapeEnd),
    Front(ShapeElem, usize),
}
