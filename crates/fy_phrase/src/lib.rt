//! Core phrases, and the copy rule that says what they do.
#![tactic(auto)]

mod closing;
mod copying;
mod phrase;
mod premise;
mod shapes;
mod sizes;

pub use closing::close_with;
pub use copying::copy_phrase;
pub use phrase::{DataTy, MarkKind, Parts, Phrase};
pub use premise::{Binds, Given, Premise, premises_of, repeated};
pub use shapes::{
    Pair, PairList, Shape, ShapeElem, ShapeElemList, ShapeEnd, ShapeList, ShapeTable,
};
pub use sizes::{depth_of, node_count};
