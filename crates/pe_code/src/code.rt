//! Push-enter code: instructions, entries and thunk nodes.

use crate::lists::{EntryList, NodeList};
use fy_base::{BinOp, Datum, ListOf, Place, PutKind, UnOp};
use fy_types::Name;

/// A part of straight code, which is an expression in postfix form: operands come before their operator. An operator has the address of the item at whose place it
/// faults.
#[derive(Clone, Copy, Debug)]
pub enum StraightPart {
    Literal(Datum),
    /// What the variable's own cell holds.
    Cell(u32),
    Unary(UnOp, u32),
    Binary(BinOp, u32),
}

/// What the datum of straight code is for. Its parts are addresses.
#[derive(Clone, Copy, Debug)]
pub enum Purpose {
    /// It chooses between two branches.
    Choose(u32, u32),
    /// It tells whether the body is run, and then the instruction again.
    Repeat(u32),
    /// The acceptor takes it.
    Store(u32),
    Write(PutKind),
}

/// An instruction. Its parts are addresses: places of items in the list of the code. A node is a number of a node of the phrase, and a variable is the number of
/// binders between it and its own.
#[derive(Debug, Drop)]
pub enum PeInsn {
    /// Enters the binding of a variable at the shape with the number.
    UseVar(u32, u32),
    /// A datum.
    Answer(Datum),
    Op1(UnOp, u32),
    Op2(BinOp, u32, u32),
    /// The condition, and the two branches.
    Cond(u32, u32, u32),
    /// The index, and the parts that it picks from.
    Case(u32, AddressList),
    /// Takes an argument for its body.
    Bind(u32),
    /// Passes the argument of that node to a procedure.
    Pass(u32, u32),
    /// Passes what the variable is bound to.
    PassVar(u32, u32),
    /// Passes the datum.
    PassData(Datum, u32),
    /// What a field is.
    Field(Name, u32),
    /// Selects a field of its part.
    Pick(Name, u32),
    /// Binds the definition of that node for its body.
    Let(u32, u32),
    /// Binds what the variable is bound to.
    LetVar(u32, u32),
    /// Binds the datum.
    LetData(Datum, u32),
    /// Binds the node, which is its own.
    Knot(u32, u32),
    /// A finished command.
    Done,
    Seq(u32, u32),
    /// The acceptor, and the value that is assigned to it.
    Assign(u32, u32),
    /// The condition, and the body.
    While(u32, u32),
    Loop(u32),
    /// The first value of a new variable, and what it stands in.
    New(u32, u32),
    /// The number of cells of a new sequence, and what it stands in.
    Cells(u32, u32),
    Escape(u32),
    /// Takes an assigned value for its body.
    Accept(u32),
    Put(PutKind, u32),
    Read(u32),
    /// Evaluates straight code.
    Eval(StraightList),
    /// Assigns what straight code comes to to the variable's own cell.
    Set(u32, StraightList),
    /// Evaluates straight code for a purpose.
    EvalFor(StraightList, Purpose),
}

impl PeInsn {
    ghost use Rattle.std.specs.Prelude.{◌≡◌};
    ghost use Rattle.pe_code.specs.Code.{body_of, variable_of, shape_of, node_of, picked_from};

    /// The address of its body under its binder, or `None` where it has no binder.
    pub fn body(&self) -> Option<u32>
        ensures { result ≡ body_of self.now }
    {
        match self {
            PeInsn::Bind(body)
            | PeInsn::Let(_, body)
            | PeInsn::LetVar(_, body)
            | PeInsn::LetData(_, body)
            | PeInsn::Knot(_, body)
            | PeInsn::New(_, body)
            | PeInsn::Cells(_, body)
            | PeInsn::Escape(body)
            | PeInsn::Accept(body) => Some(*body),
            _ => None,
        }
    }

    /// The variable that it names, or `None` where it names none.
    pub fn variable(&self) -> Option<u32>
        ensures { result ≡ variable_of self.now }
    {
        match self {
            PeInsn::UseVar(variable, _)
            | PeInsn::PassVar(variable, _)
            | PeInsn::LetVar(variable, _)
            | PeInsn::Set(variable, _) => Some(*variable),
            _ => None,
        }
    }

    /// The shape that it names, or `None` where it names none.
    pub fn shape(&self) -> Option<u32>
        ensures { result ≡ shape_of self.now }
    {
        match self {
            PeInsn::UseVar(_, shape) => Some(*shape),
            _ => None,
        }
    }

    /// The node of which it makes a thunk, or `None` where it makes none.
    pub fn node(&self) -> Option<u32>
        ensures { result ≡ node_of self.now }
    {
        match self {
            PeInsn::Pass(node, _) | PeInsn::Let(node, _) | PeInsn::Knot(node, _) => Some(*node),
            _ => None,
        }
    }

    /// The parts that it picks from, none of them where it isn't a `Case`.
    pub fn picked_from(&self) -> &[u32]
        ensures { result.now ≡ picked_from self.now }
    {
        match self {
            PeInsn::Case(_, parts) => parts.as_slice(),
            _ => &[],
        }
    }
}

/// An instruction, the number of binders around its node in the source, and the node's place.
#[derive(Debug, Drop)]
pub struct PeItem {
    pub insn: PeInsn,
    pub depth: u32,
    pub place: Place,
}

/// Where a node is entered at a shape.
#[derive(Clone, Copy, PartialEq, Eq, Debug)]
pub struct Entry {
    pub node: u32,
    pub shape: u32,
    pub address: u32,
}

impl Entry {
    ghost use Rattle.std.specs.Prelude.{◌≡◌};
    ghost use Rattle.pe_code.specs.Entries.{is_before};

    /// Whether it is before the entries for the node and the shape.
    pub fn is_before(&self, node: u32, shape: u32) -> bool
        ensures { result ≡ is_before node shape self.now }
    {
        self.node < node || (self.node == node && self.shape < shape)
    }
}

/// The numbers of the shapes that sequences of cells are used at, each `None` where the shape isn't among them: the shape of a value, at which an index is entered;
/// those of a procedure that gives a value or takes an assignment, at which a cell is read or written; and that of the selection of `len` from a record of values.
#[derive(Clone, Copy, PartialEq, Eq, Debug)]
pub struct SequenceShapes {
    pub value: Option<u32>,
    pub element: Option<u32>,
    pub assigned_element: Option<u32>,
    pub row_length: Option<u32>,
}

/// Code for a phrase. Item 0 is the program.
#[derive(Debug, Drop)]
pub struct PeCode {
    pub items: PeItemList,
    pub entries: EntryList,
    /// How many shapes there are.
    pub shapes: u32,
    /// The number of the shape that asks for an assignment and nothing before it, if it is among them: at this shape a cell is written, and at any other it is read.
    pub assignment: Option<u32>,
    /// The numbers of the shapes at which a sequence of cells is used, and its index entered.
    pub sequences: SequenceShapes,
    /// The nodes that thunks are made of, one for each call, definition and recursion, in preorder of these.
    pub thunks: NodeList,
}

impl PeCode {
    ghost use Rattle.std.specs.Prelude.{◌≡◌};
    ghost use Rattle.pe_code.specs.Code.{entry_of};

    /// The address at which the node is entered at the shape, the first where there are more, or `None` exactly
    /// where there is none. It takes no memory.
    pub fn entry(&self, node: u32, shape: u32) -> Option<u32>
        ensures { result ≡ entry_of self.now node shape }
    {
        self.entries.address(node, shape)
    }
}

/// Addresses.
pub type AddressList = ListOf<u32>;
/// Straight code.
pub type StraightList = ListOf<StraightPart>;
/// Items of code.
pub type PeItemList = ListOf<PeItem>;
