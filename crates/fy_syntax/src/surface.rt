//! Phrases as they are written.

ghost use Rattle.std.specs.Prelude.{◌≡◌, [], ◌∷◌, ◌++◌, OnOk, OnErr, length, map};
ghost use Rattle.fy_syntax.specs.Reading.{
  def_of,
  defs_from,
  defs_in,
  defs_of,
  link_of,
  links_from,
  links_in,
  links_of,
  phrases_in,
  tree_of,
  trees_from,
  trees_of,
};

use crate::types::{DeclList, NameList, SurfaceTy, SurfaceTyList};
use fy_base::{BinOp, ListOf, OutOfMemory, Place, Text, UnOp};
use fy_types::{Atom, Name};
use std::alloc::Global;

/// A phrase as it is written. The last place of each variant is that of its first token.
#[derive(Debug)]
#[cycle(phrases)]
pub enum Surface {
    /// `p , q , ..`, of two members or more
    Merge(SurfaceList, Place),
    /// `p ; q ; ..`, of two members or more
    Sequence(SurfaceList, Place),
    /// `\ x : A | B | .. . p`
    Lam(Name, SurfaceTyList, Box<Surface>, Place),
    /// `let x == p , .. in q`
    Let(DefList, Box<Surface>, Place),
    /// `letrec f : A , .. where f == p , .. in q`, whose first place is that of `in`
    Letrec(DeclList, DefList, Place, Box<Surface>, Place),
    /// `lettype t == A in p`
    Lettype(Name, SurfaceTy, Box<Surface>, Place),
    /// `new x : D := p in q`, whose data type is `int`, `bool` or `char`
    New(Name, Atom, Box<Surface>, Box<Surface>, Place),
    /// `escape x in p`
    Escape(Name, Box<Surface>, Place),
    /// `accept x : D in p`, whose data type is `int`, `bool` or `char`
    Accept(Name, Atom, Box<Surface>, Place),
    /// `if b then p else q`
    If(Box<Surface>, Box<Surface>, Box<Surface>, Place),
    /// `while b do p`
    WhileDo(Box<Surface>, Box<Surface>, Place),
    /// `loop p`
    Loop(Box<Surface>, Place),
    /// `i == p`
    Field(Name, Box<Surface>, Place),
    /// `p := q`, whose first place is that of `:=`
    Assign(Box<Surface>, Place, Box<Surface>, Place),
    /// Operands with operators of one level between them: `or`, or `and`, or one relation, or `+` and `-`, or `*`, `div` and `rem`.
    Chain(Box<Surface>, LinkList, Place),
    /// `- not ord chr p`, of one operator or more
    Prefix(PrefixList, Box<Surface>, Place),
    /// `p q r ..`, of one argument or more
    Apply(Box<Surface>, SurfaceList, Place),
    /// `p . i . j ..`, of one name or more
    Select(Box<Surface>, NameList, Place),
    Ident(Name, Place),
    Number(i64, Place),
    /// A character, as its byte.
    Letter(u8, Place),
    /// A string, as the bytes that its elements stand for.
    Str(Text, Place),
    /// `true` or `false`
    Truth(bool, Place),
    /// `skip`
    Skip(Place),
    /// `( p )`
    Group(Box<Surface>, Place),
    /// `seq ( p , q , .. )`, of one part or more
    SeqOf(SurfaceList, Place),
}

/// Written out, so that letting a phrase go is one call wherever that happens.
impl Drop for Surface {
    #[cycle(phrases)]
    fn drop(self) {
        match self {
            Surface::Merge(_, _) => {}
            Surface::Sequence(_, _) => {}
            Surface::Lam(_, _, _, _) => {}
            Surface::Let(_, _, _) => {}
            Surface::Letrec(_, _, _, _, _) => {}
            Surface::Lettype(_, _, _, _) => {}
            Surface::New(_, _, _, _, _) => {}
            Surface::Escape(_, _, _) => {}
            Surface::Accept(_, _, _, _) => {}
            Surface::If(_, _, _, _) => {}
            Surface::WhileDo(_, _, _) => {}
            Surface::Loop(_, _) => {}
            Surface::Field(_, _, _) => {}
            Surface::Assign(_, _, _, _) => {}
            Surface::Chain(_, _, _) => {}
            Surface::Prefix(_, _, _) => {}
            Surface::Apply(_, _, _) => {}
            Surface::Select(_, _, _) => {}
            Surface::Ident(_, _) => {}
            Surface::Number(_, _) => {}
            Surface::Letter(_, _) => {}
            Surface::Str(_, _) => {}
            Surface::Truth(_, _) => {}
            Surface::Skip(_) => {}
            Surface::Group(_, _) => {}
            Surface::SeqOf(_, _) => {}
        }
    }
}

/// A list of written phrases.
#[derive(Debug, Drop)]
#[cycle(phrases)]
pub struct SurfaceList {
    items: Vec<Surface>,
}

/// A definition `x == p`.
#[derive(Debug, Drop)]
#[cycle(phrases)]
pub struct Def {
    pub name: Name,
    /// The place of the name.
    pub at: Place,
    pub body: Surface,
}

/// A list of definitions.
#[derive(Debug, Drop)]
#[cycle(phrases)]
pub struct DefList {
    items: Vec<Def>,
}

/// An operator and the operand behind it.
#[derive(Debug, Drop)]
#[cycle(phrases)]
pub struct Link {
    pub op: BinOp,
    /// The place of the operator.
    pub at: Place,
    pub item: Surface,
}

/// A list of operators with their operands.
#[derive(Debug, Drop)]
#[cycle(phrases)]
pub struct LinkList {
    items: Vec<Link>,
}

/// An operator in front of its operand.
#[derive(Clone, Copy, PartialEq, Eq, Debug)]
pub struct Prefixed {
    pub op: UnOp,
    /// The place of the operator.
    pub at: Place,
}

/// Operators in front of one operand, in the order in which they are written.
pub type PrefixList = ListOf<Prefixed>;

#[tactic(auto, using(crate::proofs::ReadLemmas::readings))]
impl SurfaceList {
    /// A list of nothing. It takes no memory.
    pub fn new(alloc: Global) -> SurfaceList
        ensures { phrases_in result ≡ [] }
    {
        SurfaceList {
            items: Vec::new(alloc),
        }
    }

    /// Adds a phrase last. After a refusal the list is as it was.
    pub fn push(&mut self, item: Surface) -> Result<(), OutOfMemory>
        ensures ok { OnOk result (phrases_in self.new ≡ phrases_in self.old ++ item ∷ []) }
        ensures err { OnErr result (phrases_in self.new ≡ phrases_in self.old) }
    {
        self.items.push(item)?;
        Ok(())
    }

    /// The number of members.
    pub fn len(&self) -> usize
        ensures { result ≡ length (phrases_in self.now) }
    {
        self.items.len()
    }

    /// The members.
    pub fn as_slice(&self) -> &[Surface]
        ensures members { result.now ≡ phrases_in self.now }
        ensures reading { trees_of self.now ≡ trees_from (map tree_of result.now) }
    {
        self.items.as_slice()
    }
}

#[tactic(auto, using(crate::proofs::ReadLemmas::readings))]
impl DefList {
    /// A list of nothing. It takes no memory.
    pub fn new(alloc: Global) -> DefList
        ensures { defs_in result ≡ [] }
    {
        DefList {
            items: Vec::new(alloc),
        }
    }

    /// Adds a definition last. After a refusal the list is as it was.
    pub fn push(&mut self, item: Def) -> Result<(), OutOfMemory>
        ensures ok { OnOk result (defs_in self.new ≡ defs_in self.old ++ item ∷ []) }
        ensures err { OnErr result (defs_in self.new ≡ defs_in self.old) }
    {
        self.items.push(item)?;
        Ok(())
    }

    /// The number of members.
    pub fn len(&self) -> usize
        ensures { result ≡ length (defs_in self.now) }
    {
        self.items.len()
    }

    /// The members.
    pub fn as_slice(&self) -> &[Def]
        ensures members { result.now ≡ defs_in self.now }
        ensures reading { defs_of self.now ≡ defs_from (map def_of result.now) }
    {
        self.items.as_slice()
    }
}

#[tactic(auto, using(crate::proofs::ReadLemmas::readings))]
impl LinkList {
    /// A list of nothing. It takes no memory.
    pub fn new(alloc: Global) -> LinkList
        ensures { links_in result ≡ [] }
    {
        LinkList {
            items: Vec::new(alloc),
        }
    }

    /// Adds an operator with its operand last. After a refusal the list is as it was.
    pub fn push(&mut self, item: Link) -> Result<(), OutOfMemory>
        ensures ok { OnOk result (links_in self.new ≡ links_in self.old ++ item ∷ []) }
        ensures err { OnErr result (links_in self.new ≡ links_in self.old) }
    {
        self.items.push(item)?;
        Ok(())
    }

    /// The number of members.
    pub fn len(&self) -> usize
        ensures { result ≡ length (links_in self.now) }
    {
        self.items.len()
    }

    /// The members.
    pub fn as_slice(&self) -> &[Link]
        ensures members { result.now ≡ links_in self.now }
        ensures reading { links_of self.now ≡ links_from (map link_of result.now) }
    {
        self.items.as_slice()
    }
}
