//! What is in focus, and what waits for it.

use crate::frames::{FrameName, Thunk};
use fy_base::{BinOp, Datum, Place, PutKind, UnOp};
use fy_types::Name;

/// Code at an address, with the frame in which its innermost variable is bound, if any is in scope.
#[derive(Clone, Copy, Debug)]
pub struct Pointer {
    pub address: u32,
    pub frame: Option<FrameName>,
}

/// What waits for the focus. A list of parts is the instruction that picks from them.
#[derive(Clone, Copy, Debug)]
pub enum Context {
    Op1(UnOp, Place),
    OpL(BinOp, Pointer, Place),
    OpR(BinOp, Datum, Place),
    If(Pointer, Pointer),
    Case(Pointer, Place),
    Arg(Thunk),
    Pick(Name),
    Then(Pointer),
    Assign(Pointer),
    Store(Datum),
    While(Pointer, Pointer),
    Body(Pointer),
    Loop(Pointer),
    New(u32, Pointer),
    Drop(u64),
    Put(PutKind),
    Escape(u64),
    /// How many cells a new sequence of the depth is to have, before its body.
    Cells(u32, Pointer, Place),
    /// The index of a cell of the sequence in a frame, which is to be written, or else read.
    Element(bool, FrameName),
}

/// A context, with the load and the number of frames before it was pushed.
#[derive(Clone, Copy, Debug)]
pub struct Held {
    pub base: u64,
    pub frames: u32,
    pub context: Context,
}

/// A sequence that gets its cells, in front of all contexts: how many it has and how many it is to have, the depth of its binder, its body, and the place of
/// its `Cells`.
#[derive(Clone, Copy, Debug)]
pub struct Filling {
    pub made: u64,
    pub count: u64,
    pub depth: u32,
    pub body: Pointer,
    pub place: Place,
}

/// What a step looks at.
#[derive(Clone, Copy, Debug)]
pub enum Focus {
    /// The instruction at an address.
    Code(Pointer),
    /// A datum that meets the newest context.
    Value(Datum),
    /// A finished command that does.
    Completed,
}
