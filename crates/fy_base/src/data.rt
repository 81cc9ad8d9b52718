//! Data, operators, places, and how runs end.

ghost use Rattle.std.specs.Prelude.{◌≤◌};

/// A place in a source text. Line and column count from 1, as the ghost fields keep: a line ends at
/// byte 10, and a column counts bytes.
#[derive(Clone, Copy, PartialEq, Eq, Debug)]
pub struct Place {
    pub line: u32,
    pub col: u32,
    pub ghost line_from_one: { 1 ≤ line },
    pub ghost col_from_one: { 1 ≤ col },
}

impl Place {
    ghost use Rattle.std.specs.Prelude.{◌≡◌, ◌+◌, ◌<◌, ◌^◌};
    ghost use Rattle.fy_base.specs.Places.{first_place, next_line, columns_on};

    /// Where a text begins.
    pub fn first() -> Place
        ensures { result ≡ first_place }
    {
        Place { line: 1, col: 1 }
    }

    /// The beginning of the next line.
    pub fn next_line(self) -> Place
        requires { self.line + 1 < 2 ^ 32 }
        ensures { result ≡ next_line self }
    {
        Place {
            line: self.line + 1,
            col: 1,
        }
    }

    /// So many columns further in the same line.
    pub fn columns_on(self, count: u32) -> Place
        requires { self.col + count < 2 ^ 32 }
        ensures { result ≡ columns_on count self }
    {
        Place {
            line: self.line,
            col: self.col + count,
        }
    }
}

/// Why a program faults.
#[derive(Clone, Copy, PartialEq, Eq, Debug)]
pub enum FaultKind {
    /// A result outside the integers of 64 bits.
    Overflow,
    /// A division by zero.
    Zero,
    /// A number that is no character's, or an index outside a sequence.
    Range,
}

/// Why the machine traps.
#[derive(Clone, Copy, PartialEq, Eq, Debug)]
pub enum TrapKind {
    Illegal,
    FetchAlign,
    FetchRange,
    LoadAlign,
    LoadRange,
    StoreAlign,
    StoreRange,
    Service,
}

/// A datum of one of the three data types.
#[derive(Clone, Copy, PartialEq, Eq, Debug)]
pub enum Datum {
    Int(i64),
    Bool(bool),
    Char(u8),
}

/// The operators on one datum.
#[derive(Clone, Copy, PartialEq, Eq, Debug)]
pub enum UnOp {
    Neg,
    Not,
    Ord,
    Chr,
}

/// The operators on two data.
#[derive(Clone, Copy, PartialEq, Eq, Debug)]
pub enum BinOp {
    Add,
    Sub,
    Mul,
    Div,
    Rem,
    Eq,
    Ne,
    Lt,
    Le,
    Gt,
    Ge,
    And,
    Or,
}

/// What an output statement writes.
#[derive(Clone, Copy, PartialEq, Eq, Debug)]
pub enum PutKind {
    Int,
    Char,
    Bool,
}

/// How a run ends.
#[derive(Clone, Copy, PartialEq, Eq, Debug)]
pub enum Ending {
    Ended,
    Fault { kind: FaultKind, place: Place },
    Exhausted,
    Spent,
    TooBig,
    Stuck,
    Gone,
    Trap(TrapKind),
    InputFault,
    OutputFault,
}
