//! What waits for the phrase in focus, and the rows of the store.

ghost use Rattle.std.specs.Prelude.{◌<◌, ◌^◌};

use fy_base::{BinOp, Datum, Place, PutKind, UnOp};
use fy_phrase::{Parts, Phrase};
use fy_types::Name;

/// What waits for the phrase in focus. Of a loop it holds the whole, and the body where that comes
/// next.
#[derive(Debug, Drop)]
pub enum Context {
    Op1(UnOp, Place),
    OpL(BinOp, Phrase, Place),
    OpR(BinOp, Datum, Place),
    If(Phrase, Phrase),
    Case(Parts, Place),
    Arg(Phrase),
    Pick(Name),
    Then(Phrase),
    Assign(Phrase),
    Store(Datum),
    While(Phrase, Phrase),
    Body(Phrase),
    Loop(Phrase),
    New(u32, Phrase),
    Drop(u64),
    Put(PutKind),
    Escape(u64),
    Cells(u32, Phrase, Place),
    Fill(Filling),
    Element(u64),
}

/// A sequence that gets its cells one by one, and the phrase that it stands in then.
#[derive(Debug, Drop)]
pub struct Filling {
    pub number: u64,
    /// How many cells it gets.
    pub count: u64,
    pub depth: u32,
    pub body: Phrase,
    pub place: Place,
    ghost small: { count < 2 ^ 63 },
}

/// A context, with the load before it.
#[derive(Debug, Drop)]
pub struct Frame {
    pub base: u64,
    pub context: Context,
}

/// What the store holds at a number.
#[derive(Debug, Drop)]
pub enum Content {
    /// The value of a cell.
    Single(Datum),
    /// The values of a sequence of cells, with the place where it was made.
    Several(Place, Vec<Datum>),
}

/// A row of the store.
#[derive(Debug, Drop)]
pub struct Row {
    pub number: u64,
    pub content: Content,
}

/// Which cell of a row: its single one, or the one of an index from 0.
#[derive(Clone, Copy, PartialEq, Eq, Debug)]
pub enum Which {
    Own,
    Element(u64),
}

/// Where a sequence was made, and the number of its cells.
#[derive(Clone, Copy, PartialEq, Eq, Debug)]
pub struct Extent {
    pub place: Place,
    pub count: u64,
}

/// What a step changes, with the newest contexts and rows last.
#[derive(Debug, Drop)]
pub struct Core {
    pub focus: Phrase,
    pub contexts: Vec<Frame>,
    pub store: Vec<Row>,
    pub next: u64,
    pub load: u64,
}
