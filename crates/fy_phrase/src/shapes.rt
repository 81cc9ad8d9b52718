//! Demand shapes, and tables of them: what may be asked of each node of a phrase.

use fy_base::ListOf;
use fy_types::Name;

/// One demand before the last.
#[derive(Clone, Copy, PartialEq, Eq, Hash, Debug)]
pub enum ShapeElem {
    /// A call.
    Call,
    /// The selection of a field.
    Field(Name),
}

/// The last demand.
#[derive(Clone, Copy, PartialEq, Eq, Hash, Debug)]
pub enum ShapeEnd {
    /// A datum is asked for.
    Value,
    /// An assignment.
    Assign,
    /// The running of a command.
    Run,
}

/// Demands in order: calls and selections, and the last one.
#[derive(Debug, Drop)]
pub struct Shape {
    pub elems: ShapeElemList,
    pub end: ShapeEnd,
}

/// That a node of a phrase is asked for a shape: the node's preorder number, from 0, and the shape's place in a list of shapes.
#[derive(Clone, Copy, PartialEq, Eq, Hash, Debug)]
pub struct Pair {
    pub node: u32,
    pub shape: u32,
}

/// Shapes, and pairs of a node and one of them.
#[derive(Debug, Drop)]
pub struct ShapeTable {
    pub shapes: ShapeList,
    pub pairs: PairList,
}

/// Demands before the last, in order.
pub type ShapeElemList = ListOf<ShapeElem>;
/// Shapes.
pub type ShapeList = ListOf<Shape>;
/// Pairs of node and shape.
pub type PairList = ListOf<Pair>;
