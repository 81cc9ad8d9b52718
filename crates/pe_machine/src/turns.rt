//! What a step comes to, before it is made.

use crate::contexts::{Context, Focus, Pointer};
use crate::frames::{FrameName, Thunk};
use fy_base::{Datum, FaultKind, Place, PutKind};
use fy_types::Name;

/// What stays of the stacks: so many of the oldest contexts and frames, and the load.
#[derive(Clone, Copy, Debug)]
pub struct Kept {
    pub contexts: usize,
    pub frames: usize,
    pub load: u64,
}

/// What a step changes beside what it cuts.
#[derive(Clone, Copy, Debug)]
pub enum Change {
    /// The focus alone.
    Focus(Focus),
    /// A context is pushed, and on with code.
    Push(Context, Pointer),
    /// A context is pushed, and on with a datum.
    PushValue(Context, Datum),
    /// A frame of the depth is made for the thunk, and on with the body in it. The body is given in the frame around.
    Bind(u32, Thunk, Pointer),
    /// The same for a new cell, which is dropped at the end of the body.
    NewCell(u32, Datum, Pointer),
    /// The same for a new escape, to which the body can jump.
    NewEscape(u32, Pointer),
    /// A cell takes a datum.
    SetCell(FrameName, Datum),
    /// The cell of an index in the sequence of a frame takes a datum.
    SetElement(FrameName, u32, Datum),
    /// A cell takes a datum, and 8 are added to the load.
    Assign(FrameName, Datum),
}

/// What a step comes to.
#[derive(Clone, Copy, Debug)]
pub enum Turn {
    On(Change),
    /// A new sequence is to get so many cells, for a body of the depth; the place is that of its `Cells`.
    Fill(u64, u32, Pointer, Place),
    /// The text of a datum is put, where it has one of the kind; else no step is defined.
    Put(PutKind, Datum),
    /// The next byte of input is wanted, for the acceptor.
    Read(Pointer),
    Fault { kind: FaultKind, place: Place },
    /// No step is defined.
    Stuck,
    /// A frame that is named isn't there.
    Gone,
}

/// What a step comes to, after what it cuts.
#[derive(Clone, Copy, Debug)]
pub struct Plan {
    pub kept: Kept,
    pub turn: Turn,
}

/// What the newest context is asked for.
#[derive(Clone, Copy, Debug)]
pub enum Demand {
    /// An argument, for a body of the depth.
    Argument(u32, Pointer),
    /// A field's selection.
    Selection(Name, Pointer),
    /// An assigned datum, for a body of the depth.
    Assigned(u32, Pointer),
    /// An assigned datum, for the cell of a frame.
    Cell(FrameName),
    /// The selection of `len`, from a sequence of so many cells.
    Length(u32),
}

/// What an instruction does.
#[derive(Clone, Copy, Debug)]
pub enum Act {
    /// Something that doesn't look at the stacks.
    Now(Turn),
    /// The variable so many frames outside is entered at the shape.
    Use(u32, u32, Option<FrameName>),
    /// It is passed, and on with code.
    Pass(u32, Pointer),
    /// It is bound in a frame of the depth.
    Let(u32, u32, Pointer),
    /// The newest context is taken off.
    Ask(Demand),
}
