//! Frames, and what they bind.

use fy_base::{Datum, Place};

/// A frame by its place in the array and its number.
#[derive(Clone, Copy, PartialEq, Eq, Debug)]
pub struct FrameName {
    pub place: u32,
    pub number: u64,
}

/// What stands for a phrase that isn't evaluated yet.
#[derive(Clone, Copy, Debug)]
pub enum Thunk {
    /// A node of the source phrase, in a frame.
    Source(u32, Option<FrameName>),
    Literal(Datum),
    /// The cell that the frame holds.
    Cell(FrameName),
    /// The escape that the frame holds.
    Jump(FrameName),
    /// The sequence of cells that the frame holds.
    Sequence(FrameName),
}

/// What a frame binds its variable to.
#[derive(Clone, Copy, Debug)]
pub enum Binding {
    ToThunk(Thunk),
    ToCell(Datum),
    ToEscape,
    /// So many cells, which begin where those of the older frames end, and the place of their `Cells`.
    ToSequence(Place, u32),
}

/// A binding, with the depth of its binder, the frame around it, and how many cells the older frames have.
#[derive(Clone, Copy, Debug)]
pub struct Frame {
    pub number: u64,
    pub depth: u32,
    pub binding: Binding,
    pub around: Option<FrameName>,
    pub cells: u32,
}
