//! Types, as trees.

ghost use Rattle.std.specs.Prelude.{◌≡◌, [], ◌∷◌, ◌++◌, IfOk, OnOk, OnErr, length, map};
ghost use Rattle.fy_types.specs.Reading.{types_in, plain_type, plain_types, types_from};

use crate::Name;
use fy_base::OutOfMemory;
use std::alloc::Global;
use std::rc::Rc;

/// The types that have no parts.
#[derive(Clone, Copy, PartialEq, Eq, Hash, Debug)]
pub enum Atom {
    Int,
    Bool,
    Char,
    /// A command.
    Comm,
    /// A command that never completes.
    Compl,
    /// An acceptor of integers.
    IntAcc,
    BoolAcc,
    CharAcc,
}

/// A type.
#[derive(Debug, Drop)]
#[cycle(ty)]
pub enum Ty {
    /// The type of every phrase.
    Ns,
    Atom(Atom),
    /// The procedures from the first type to the second.
    Arrow(Rc<Ty>, Rc<Ty>),
    /// What has a field of that name and type.
    Field(Name, Rc<Ty>),
    /// What has each of two or more types.
    Meet(TyList),
}

/// A list of types.
#[derive(Debug, Drop)]
#[cycle(ty)]
pub struct TyList {
    items: Vec<Ty>,
}

#[tactic(auto, using(crate::proofs::ReadLemmas::readings))]
impl TyList {
    /// A list of nothing. It takes no memory.
    pub fn new(alloc: Global) -> TyList
        ensures { types_in result ≡ [] }
    {
        TyList {
            items: Vec::new(alloc),
        }
    }

    /// A list of nothing, with memory for so many members.
    pub fn with_capacity(alloc: Global, capacity: usize) -> Result<TyList, OutOfMemory>
        ensures { IfOk result (λ made. types_in made ≡ []) }
    {
        Ok(TyList {
            items: Vec::with_capacity(alloc, capacity)?,
        })
    }

    /// Adds a type last. After a refusal the list is as it was.
    pub fn push(&mut self, item: Ty) -> Result<(), OutOfMemory>
        ensures ok { OnOk result (types_in self.new ≡ types_in self.old ++ item ∷ []) }
        ensures err { OnErr result (types_in self.new ≡ types_in self.old) }
    {
        self.items.push(item)?;
        Ok(())
    }

    /// The number of members.
    pub fn len(&self) -> usize
        ensures { result ≡ length (types_in self.now) }
    {
        self.items.len()
    }

    /// The members.
    pub fn as_slice(&self) -> &[Ty]
        ensures members { result.now ≡ types_in self.now }
        ensures reading { plain_types self.now ≡ types_from (map plain_type result.now) }
    {
        self.items.as_slice()
    }
}
