//! Core phrases.

ghost use Rattle.std.specs.Prelude.{◌≡◌, [], ◌∷◌, ◌++◌, OnOk, OnErr, length, map, option_map};
ghost use Rattle.fy_phrase.specs.Reads.{phrases_in, reads, reads_parts, trees_from};
ghost use Rattle.fy_phrase.specs.Premises.{merged};
ghost use Rattle.fy_phrase.specs.Tree.{place_of};

use fy_base::{BinOp, Datum, OutOfMemory, Place, PutKind, UnOp};
use fy_types::{Name, Ty, TyList};
use std::alloc::Global;

/// The types of data.
#[derive(Clone, Copy, PartialEq, Eq, Debug)]
pub enum DataTy {
    Int,
    Bool,
    Char,
}

/// What only a run makes, with its number.
#[derive(Clone, Copy, PartialEq, Eq, Debug)]
pub enum MarkKind {
    /// A cell of the store.
    Cell(u64),
    /// The end of an escape's body.
    Jump(u64),
    /// A sequence of cells of the store.
    Sequence(u64),
    /// The cell of a sequence with an index, counted from 0: the sequence's number and the index.
    Element(u64, u64),
}

/// A core phrase. The last field of each form is the phrase's place in the source, and a binder's first field is its depth: the
/// number of binders around it in the source.
#[derive(Debug)]
#[cycle(phrase)]
pub enum Phrase {
    /// A variable, by the number of binders between it and its own.
    Var(u32, Place),
    /// A literal.
    Lit(Datum, Place),
    /// An operator in front of a phrase. Its place is that of the operator.
    Unary(UnOp, Box<Phrase>, Place),
    /// An operator between two phrases. Its place is that of the operator.
    Binary(BinOp, Box<Phrase>, Box<Phrase>, Place),
    /// A conditional.
    Cond(Box<Phrase>, Box<Phrase>, Box<Phrase>, Place),
    /// The part of a list that an index picks, counted from 0.
    Case(Box<Phrase>, Parts, Place),
    /// An abstraction, with its parameter's alternative types.
    Lam(u32, TyList, Box<Phrase>, Place),
    /// A procedure called with an argument.
    App(Box<Phrase>, Box<Phrase>, Place),
    /// A field definition.
    Field(Name, Box<Phrase>, Place),
    /// A field of a phrase.
    Sel(Box<Phrase>, Name, Place),
    /// A merge, whose right operand goes first.
    Merge(Box<Phrase>, Box<Phrase>, Place),
    /// A definition, and the phrase that it stands in.
    LetIn(u32, Box<Phrase>, Box<Phrase>, Place),
    /// A phrase of a type that is defined by itself.
    Rec(u32, Ty, Box<Phrase>, Place),
    /// The command that does nothing.
    Skip(Place),
    /// One command and then another.
    Seq(Box<Phrase>, Box<Phrase>, Place),
    /// An assignment to an acceptor.
    Assign(Box<Phrase>, Box<Phrase>, Place),
    /// A command repeated while a condition holds.
    WhileDo(Box<Phrase>, Box<Phrase>, Place),
    /// A command repeated without an end.
    Forever(Box<Phrase>, Place),
    /// A new variable of a data type, with its first value, and the phrase that it stands in.
    New(u32, DataTy, Box<Phrase>, Box<Phrase>, Place),
    /// A new sequence of so many cells that hold 0, and the phrase that it stands in. Only the prelude makes one.
    Cells(u32, Box<Phrase>, Box<Phrase>, Place),
    /// A command that can be left early.
    Escape(u32, Box<Phrase>, Place),
    /// An acceptor of a data type, as what it does with a value.
    Accept(u32, DataTy, Box<Phrase>, Place),
    /// Output of a datum of a kind.
    Put(PutKind, Box<Phrase>, Place),
    /// Input of a byte into an acceptor.
    Read(Box<Phrase>, Place),
    /// What only a run makes.
    Mark(MarkKind, Place),
}

impl Phrase {
    /// The phrase's place in the source.
    pub fn place(&self) -> Place
        ensures { result ≡ place_of (reads self.now) }
    {
        match self {
            Phrase::Var(_, at)
            | Phrase::Lit(_, at)
            | Phrase::Unary(_, _, at)
            | Phrase::Binary(_, _, _, at)
            | Phrase::Cond(_, _, _, at)
            | Phrase::Case(_, _, at)
            | Phrase::Lam(_, _, _, at)
            | Phrase::App(_, _, at)
            | Phrase::Field(_, _, at)
            | Phrase::Sel(_, _, at)
            | Phrase::Merge(_, _, at)
            | Phrase::LetIn(_, _, _, at)
            | Phrase::Rec(_, _, _, at)
            | Phrase::Skip(at)
            | Phrase::Seq(_, _, at)
            | Phrase::Assign(_, _, at)
            | Phrase::WhileDo(_, _, at)
            | Phrase::Forever(_, at)
            | Phrase::New(_, _, _, _, at)
            | Phrase::Cells(_, _, _, at)
            | Phrase::Escape(_, _, at)
            | Phrase::Accept(_, _, _, at)
            | Phrase::Put(_, _, at)
            | Phrase::Read(_, at)
            | Phrase::Mark(_, at) => *at,
        }
    }

    /// The operands, if the phrase is a merge.
    pub fn as_merge(&self) -> Option<(&Phrase, &Phrase)>
        ensures { option_map (λ x. (reads x.0.now, reads x.1.now)) result ≡ merged (reads self.now) }
    {
        match self {
            Phrase::Merge(left, right, _) => Some((left, right)),
            _ => None,
        }
    }
}

// By hand, so that letting a phrase go is a call and no match with all its forms, which would be proved at each exit that owns one.
impl Drop for Phrase {
    #[cycle(phrase)]
    fn drop(self) {
        match self {
            Phrase::Var(_, _) => {}
            Phrase::Lit(_, _) => {}
            Phrase::Unary(_, _, _) => {}
            Phrase::Binary(_, _, _, _) => {}
            Phrase::Cond(_, _, _, _) => {}
            Phrase::Case(_, _, _) => {}
            Phrase::Lam(_, _, _, _) => {}
            Phrase::App(_, _, _) => {}
            Phrase::Field(_, _, _) => {}
            Phrase::Sel(_, _, _) => {}
            Phrase::Merge(_, _, _) => {}
            Phrase::LetIn(_, _, _, _) => {}
            Phrase::Rec(_, _, _, _) => {}
            Phrase::Skip(_) => {}
            Phrase::Seq(_, _, _) => {}
            Phrase::Assign(_, _, _) => {}
            Phrase::WhileDo(_, _, _) => {}
            Phrase::Forever(_, _) => {}
            Phrase::New(_, _, _, _, _) => {}
            Phrase::Cells(_, _, _, _) => {}
            Phrase::Escape(_, _, _) => {}
            Phrase::Accept(_, _, _, _) => {}
            Phrase::Put(_, _, _) => {}
            Phrase::Read(_, _) => {}
            Phrase::Mark(_, _) => {}
        }
    }
}

/// A list of core phrases.
#[derive(Debug, Drop)]
#[cycle(phrase)]
pub struct Parts {
    items: Vec<Phrase>,
}

#[tactic(auto, using(crate::proofs::ReadLemmas::readings))]
impl Parts {
    /// A list of nothing. It takes no memory.
    pub fn new(alloc: Global) -> Parts
        ensures { phrases_in result ≡ [] }
    {
        Parts {
            items: Vec::new(alloc),
        }
    }

    /// Adds a phrase last. After a refusal the list is as it was.
    pub fn push(&mut self, item: Phrase) -> Result<(), OutOfMemory>
        ensures ok { OnOk result (phrases_in self.new ≡ phrases_in self.old ++ item ∷ []) }
        ensures err { OnErr result (phrases_in self.new ≡ phrases_in self.old) }
    {
        self.items.push(item)?;
        Ok(())
    }

    /// The number of members.
    pub fn len(&self) -> usize
        ensures { result ≡ length (phrases_in self.now) }
    {
        self.items.len()
    }

    /// The members.
    pub fn as_slice(&self) -> &[Phrase]
        ensures members { result.now ≡ phrases_in self.now }
        ensures reading { reads_parts self.now ≡ trees_from (map reads result.now) }
    {
        self.items.as_slice()
    }
}
