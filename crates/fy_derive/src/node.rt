//! The nodes of a table of types.

use fy_types::{Atom, Name};

/// A type of a table, whose parts are named by the numbers of earlier types.
#[derive(Clone, Copy, PartialEq, Eq, Hash, Debug, Drop)]
pub enum TypeNode {
    Ns,
    Atom(Atom),
    Arrow(usize, usize),
    Field(Name, usize),
    /// The meet of no types.
    NoTypes,
    /// The meet of a type and of the members of a meet.
    AndType(usize, usize),
}
