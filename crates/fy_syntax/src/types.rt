//! Types as they are written.

ghost use Rattle.std.specs.Prelude.{◌≡◌, [], ◌∷◌, ◌++◌, OnOk, OnErr, length, map};
ghost use Rattle.fy_syntax.specs.Reading.{types_in, type_tree, type_trees, types_from};

use fy_base::{ListOf, OutOfMemory, Place};
use fy_types::{Atom, Name};
use std::alloc::Global;

/// Names, in the order in which they are written.
pub type NameList = ListOf<Name>;

/// A type as it is written. The last place of each variant is that of its first token.
#[derive(Debug)]
#[cycle(types)]
pub enum SurfaceTy {
    /// `A -> B`
    Arrow(Box<SurfaceTy>, Box<SurfaceTy>, Place),
    /// `A & B & ..`, of two members or more
    Meet(SurfaceTyList, Place),
    /// `i : j : .. A`, of one name or more
    Field(NameList, Box<SurfaceTy>, Place),
    /// `ns`
    Ns(Place),
    /// `int`, `comm` and their like
    Atom(Atom, Place),
    /// The name of a type.
    Ident(Name, Place),
    /// `( A )`
    Group(Box<SurfaceTy>, Place),
}

/// Written out, so that letting a type go is one call wherever that happens.
impl Drop for SurfaceTy {
    #[cycle(types)]
    fn drop(self) {
        match self {
            SurfaceTy::Arrow(_, _, _) => {}
            SurfaceTy::Meet(_, _) => {}
            SurfaceTy::Field(_, _, _) => {}
            SurfaceTy::Ns(_) => {}
            SurfaceTy::Atom(_, _) => {}
            SurfaceTy::Ident(_, _) => {}
            SurfaceTy::Group(_, _) => {}
        }
    }
}

/// A list of written types.
#[derive(Debug, Drop)]
#[cycle(types)]
pub struct SurfaceTyList {
    items: Vec<SurfaceTy>,
}

#[tactic(auto, using(crate::proofs::ReadLemmas::readings))]
impl SurfaceTyList {
    /// A list of nothing. It takes no memory.
    pub fn new(alloc: Global) -> SurfaceTyList
        ensures { types_in result ≡ [] }
    {
        SurfaceTyList {
            items: Vec::new(alloc),
        }
    }

    /// Adds a type last. After a refusal the list is as it was.
    pub fn push(&mut self, item: SurfaceTy) -> Result<(), OutOfMemory>
        ensures ok { OnOk result (types_in self.new ≡ types_in self.old ++ item ∷ []) }
        ensures err { OnErr result (types_in self.new ≡ types_in self.old) }
    {
        self.items.push(item)?;
        Ok(())
    }

    /// The number of members.
    pub fn len(&self) -> usize
        ensures { result ≡ length (types_in self.now) }
    {
        self.items.len()
    }

    /// The members.
    pub fn as_slice(&self) -> &[SurfaceTy]
        ensures members { result.now ≡ types_in self.now }
        ensures reading { type_trees self.now ≡ types_from (map type_tree result.now) }
    {
        self.items.as_slice()
    }
}

/// A declaration `f : T`.
#[derive(Debug, Drop)]
pub struct Decl {
    pub name: Name,
    /// The place of the name.
    pub at: Place,
    pub ty: SurfaceTy,
}

/// Declarations, in the order in which they are written.
pub type DeclList = ListOf<Decl>;
