//! Path forms.

ghost use Rattle.std.specs.Prelude.{◌≡◌, [], ◌∷◌, ◌++◌, OnOk, OnErr, IfOk, IfErr, true, false, length, map};
ghost use Rattle.fy_types.specs.Reading.{elems_in, paths_in, front, plain_elem, plain_elems, plain_path, plain_paths, paths_from};

use crate::Name;
use crate::types::Atom;
use fy_base::OutOfMemory;
use std::alloc::{AllocFailed, Global};
use std::rc::Rc;
use std::{mem, slice};

/// One demand of a path: a call with an argument that has these paths, or a field.
#[derive(Debug, Drop)]
#[cycle(path)]
pub enum PathElem {
    Call(Rc<Paths>),
    Field(Name),
}

/// The demands of a path, the first one first. One alone stands in the list itself, so that it takes no
/// memory of its own.
#[derive(Debug, Drop)]
#[cycle(path)]
pub enum ElemList {
    None(Global),
    One(Global, PathElem),
    Many(Vec<PathElem>),
}

/// Demands one after another, and what is left at the end.
#[derive(Debug, Drop)]
#[cycle(path)]
pub struct Path {
    pub elems: ElemList,
    pub end: Atom,
}

/// A list of paths: the path form of a type.
#[derive(Debug, Drop)]
#[cycle(path)]
pub struct Paths {
    items: Vec<Path>,
}

#[tactic(auto, using(crate::proofs::ReadLemmas::readings))]
impl ElemList {
    /// A list of nothing. It takes no memory.
    pub fn new(alloc: Global) -> ElemList
        ensures { elems_in result ≡ [] }
    {
        ElemList::None(alloc)
    }

    /// A list of nothing, with memory for so many members.
    pub fn with_capacity(alloc: Global, capacity: usize) -> Result<ElemList, OutOfMemory>
        ensures { IfOk result (λ made. elems_in made ≡ []) }
    {
        if capacity <= 1 {
            return Ok(ElemList::None(alloc));
        }
        Ok(ElemList::Many(Vec::with_capacity(alloc, capacity)?))
    }

    /// Adds an element last. After a refusal the list is as it was.
    pub fn push(&mut self, item: PathElem) -> Result<(), OutOfMemory>
        ensures ok { OnOk result (elems_in self.new ≡ elems_in self.old ++ item ∷ []) }
        ensures err { OnErr result (elems_in self.new ≡ elems_in self.old) }
    {
        match self {
            ElemList::Many(items) => {
                items.push(item)?;
                Ok(())
            }
            ElemList::None(alloc) => {
                let alloc = *alloc;
                *self = ElemList::One(alloc, item);
                Ok(())
            }
            ElemList::One(alloc, _) => {
                let alloc = *alloc;
                let old = mem::replace(self, ElemList::None(alloc));
                let (list, is_added) = old.with_last(item);
                *self = list;
                if is_added { Ok(()) } else { Err(OutOfMemory) }
            }
        }
    }

    // The list with the element last, and true; or as it is and false, where memory is wanting.
    fn with_last(self, item: PathElem) -> (ElemList, bool)
        ensures added { result.1 ≡ true → elems_in result.0 ≡ elems_in self ++ item ∷ [] }
        ensures kept { result.1 ≡ false → elems_in result.0 ≡ elems_in self }
    {
        match self {
            ElemList::None(alloc) => (ElemList::One(alloc, item), true),
            ElemList::One(alloc, first) => match both(alloc, first, item) {
                Ok(items) => (ElemList::Many(items), true),
                Err(failed) => (ElemList::One(alloc, failed.value), false),
            },
            ElemList::Many(items) => {
                let mut items = items;
                let is_added = items.push(item).is_ok();
                (ElemList::Many(items), is_added)
            }
        }
    }

    /// The list with the element in front.
    pub(crate) fn after(self, elem: PathElem) -> Result<ElemList, OutOfMemory>
        ensures { IfOk result (λ made. elems_in made ≡ elem ∷ elems_in self) }
    {
        match self {
            ElemList::None(alloc) => Ok(ElemList::One(alloc, elem)),
            ElemList::One(alloc, next) => Ok(ElemList::Many(both(alloc, elem, next)?)),
            ElemList::Many(items) => {
                let mut items = items;
                items.reserve_exact(1)?;
                items.insert(0, elem)?;
                Ok(ElemList::Many(items))
            }
        }
    }

    /// The number of members.
    pub fn len(&self) -> usize
        ensures { result ≡ length (elems_in self.now) }
    {
        match self {
            ElemList::None(_) => 0,
            ElemList::One(..) => 1,
            ElemList::Many(items) => items.len(),
        }
    }

    /// The members.
    pub fn as_slice(&self) -> &[PathElem]
        ensures members { result.now ≡ elems_in self.now }
        ensures reading { plain_elems self.now ≡ map plain_elem result.now }
    {
        match self {
            ElemList::None(_) => &[],
            ElemList::One(_, elem) => slice::from_ref(elem),
            ElemList::Many(items) => items.as_slice(),
        }
    }
}

// The two elements. The first one is handed back where memory is wanting.
fn both(
    alloc: Global,
    first: PathElem,
    second: PathElem,
) -> Result<Vec<PathElem>, AllocFailed<PathElem>>
    ensures ok { IfOk result (λ made. made.items ≡ first ∷ second ∷ []) }
    ensures returned { IfErr result (λ failed. failed.value ≡ first) }
{
    let Ok(made) = Vec::with_capacity(alloc, 2) else {
        return Err(AllocFailed { value: first });
    };
    let mut items = made;
    if items.push(second).is_err() {
        return Err(AllocFailed { value: first });
    }
    items.insert(0, first)?;
    Ok(items)
}

impl Path {
    /// The path with the element in front.
    pub fn after(self, elem: PathElem) -> Result<Path, OutOfMemory>
        ensures { IfOk result
            (λ made. plain_path made ≡ front (plain_elem elem) (plain_path self)) }
    {
        let Path { elems, end } = self;
        Ok(Path {
            elems: elems.after(elem)?,
            end,
        })
    }
}

#[tactic(auto, using(crate::proofs::ReadLemmas::readings))]
impl Paths {
    /// A list of nothing. It takes no memory.
    pub fn new(alloc: Global) -> Paths
        ensures { paths_in result ≡ [] }
    {
        Paths {
            items: Vec::new(alloc),
        }
    }

    /// A list of nothing, with memory for so many members.
    pub fn with_capacity(alloc: Global, capacity: usize) -> Result<Paths, OutOfMemory>
        ensures { IfOk result (λ made. paths_in made ≡ []) }
    {
        Ok(Paths {
            items: Vec::with_capacity(alloc, capacity)?,
        })
    }

    /// Adds a path last. After a refusal the list is as it was.
    pub fn push(&mut self, item: Path) -> Result<(), OutOfMemory>
        ensures ok { OnOk result (paths_in self.new ≡ paths_in self.old ++ item ∷ []) }
        ensures err { OnErr result (paths_in self.new ≡ paths_in self.old) }
    {
        self.items.push(item)?;
        Ok(())
    }

    /// The number of members.
    pub fn len(&self) -> usize
        ensures { result ≡ length (paths_in self.now) }
    {
        self.items.len()
    }

    /// The vector of the members.
    pub fn into_vec(self) -> Vec<Path>
        ensures { result.items ≡ paths_in self }
    {
        self.items
    }

    /// The members.
    pub fn as_slice(&self) -> &[Path]
        ensures members { result.now ≡ paths_in self.now }
        ensures reading { plain_paths self.now ≡ paths_from (map plain_path result.now) }
    {
        self.items.as_slice()
    }
}
