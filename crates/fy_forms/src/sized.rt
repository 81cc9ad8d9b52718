//! Path forms that are made with their sizes, so that none grows past the limits.

ghost use Rattle.std.specs.Prelude.{◌≡◌, ◌<◌, ◌+◌, false, IfOk, IsErrOf};
ghost use Rattle.fy_types.specs.Paths.{PlainPath, no_paths, and_path, called, picked, append};
ghost use Rattle.fy_types.specs.Reading.{plain_path, plain_paths};
ghost use Rattle.fy_types.specs.Limits.{IsTooLarge};
ghost use Rattle.fy_forms.specs.Sized.{IsSized};
ghost use Rattle.fy_types.specs.Keeping.{added};
ghost use Rattle.fy_types.specs.Once.{contains};

use crate::error::TypeError;
use crate::size::{size_of_path, size_of_paths};
use fy_base::OutOfMemory;
use fy_types::{Atom, ElemList, Name, Path, PathElem, Paths};
use std::alloc::Global;
use std::rc::Rc;

/// The most nodes of a path form.
pub(crate) const MOST_NODES: u64 = 4096;

/// The greatest nesting of a path form.
pub(crate) const MOST_NESTING: u64 = 480;

/// A path form with its size.
#[derive(Drop)]
pub(crate) struct Sized {
    pub paths: Paths,
    pub nodes: u64,
    pub nesting: u64,
}

impl Sized {
    /// The form of no paths.
    pub(crate) fn none(alloc: Global) -> Sized
        ensures { IsSized result no_paths }
    {
        Sized {
            paths: Paths::new(alloc),
            nodes: 0,
            nesting: 0,
        }
    }

    /// The form of one path without elements.
    pub(crate) fn one(alloc: Global, end: Atom) -> Result<Sized, OutOfMemory>
        ensures { IfOk result (λ s. IsSized s (and_path (PlainPath.end end) no_paths)) }
    {
        let mut paths = Paths::new(alloc);
        paths.push(Path {
            elems: ElemList::new(alloc),
            end,
        })?;
        Ok(Sized {
            paths,
            nodes: 1,
            nesting: 1,
        })
    }

    /// The form of the paths.
    pub(crate) fn of(paths: Paths) -> Result<Sized, TypeError>
        ensures ok { IfOk result (λ s. IsSized s (plain_paths paths)) }
        ensures large { IsErrOf result TypeError.TypeTooLarge → IsTooLarge (plain_paths paths) }
    {
        let size = size_of_paths(&paths);
        if size.nodes > MOST_NODES || size.nesting > MOST_NESTING {
            return Err(TypeError::TypeTooLarge);
        }
        Ok(Sized {
            paths,
            nodes: size.nodes,
            nesting: size.nesting,
        })
    }

    /// The paths with a call in front.
    pub(crate) fn after_call(self, alloc: Global, domain: Sized) -> Result<Sized, TypeError>
        requires domain { IsSized domain (plain_paths domain.paths) }
        requires after { IsSized self (plain_paths self.paths) }
        requires some { 0 < self.nodes }
        ensures ok { IfOk result
            (λ s. IsSized s (called (plain_paths domain.paths) (plain_paths self.paths))) }
        ensures large { IsErrOf result TypeError.TypeTooLarge →
            IsTooLarge (called (plain_paths domain.paths) (plain_paths self.paths)) }
    {
        let count = self.paths.len() as u64;
        let nodes = count * (domain.nodes + 1) + self.nodes;
        let nesting = domain.nesting.max(self.nesting) + 1;
        if nodes > MOST_NODES || nesting > MOST_NESTING {
            return Err(TypeError::TypeTooLarge);
        }
        let paths = called_paths(alloc, domain.paths, self.paths)?;
        Ok(Sized {
            paths,
            nodes,
            nesting,
        })
    }

    /// The paths with a field in front.
    pub(crate) fn after_field(self, alloc: Global, name: Name) -> Result<Sized, TypeError>
        requires { IsSized self (plain_paths self.paths) }
        ensures ok { IfOk result (λ s. IsSized s (picked name (plain_paths self.paths))) }
        ensures large { IsErrOf result TypeError.TypeTooLarge →
            IsTooLarge (picked name (plain_paths self.paths)) }
    {
        if self.nodes == 0 {
            return Ok(self);
        }
        let nodes = self.paths.len() as u64 + self.nodes;
        let nesting = self.nesting + 1;
        if nodes > MOST_NODES || nesting > MOST_NESTING {
            return Err(TypeError::TypeTooLarge);
        }
        let paths = picked_paths(alloc, name, self.paths)?;
        Ok(Sized {
            paths,
            nodes,
            nesting,
        })
    }

    /// These paths and then the path, which isn't among them.
    pub(crate) fn keep_new(self, path: Path) -> Result<Sized, TypeError>
        requires sized { IsSized self (plain_paths self.paths) }
        requires new { contains (plain_paths self.paths) (plain_path path) ≡ false }
        ensures ok { IfOk result
            (λ s. IsSized s (added (plain_paths self.paths) (plain_path path))) }
        ensures large { IsErrOf result TypeError.TypeTooLarge →
            IsTooLarge (added (plain_paths self.paths) (plain_path path)) }
    {
        let size = size_of_path(&path);
        let nodes = self.nodes.saturating_add(size.nodes);
        let nesting = self.nesting.max(size.nesting);
        if nodes > MOST_NODES || nesting > MOST_NESTING {
            return Err(TypeError::TypeTooLarge);
        }
        let paths = pushed_path(self.paths, path)?;
        Ok(Sized {
            paths,
            nodes,
            nesting,
        })
    }

    /// These paths and then the others.
    pub(crate) fn followed_by(self, next: Sized) -> Result<Sized, TypeError>
        requires first { IsSized self (plain_paths self.paths) }
        requires next { IsSized next (plain_paths next.paths) }
        ensures ok { IfOk result
            (λ s. IsSized s (append (plain_paths self.paths) (plain_paths next.paths))) }
        ensures large { IsErrOf result TypeError.TypeTooLarge →
            IsTooLarge (append (plain_paths self.paths) (plain_paths next.paths)) }
    {
        let nodes = self.nodes + next.nodes;
        let nesting = self.nesting.max(next.nesting);
        if nodes > MOST_NODES {
            return Err(TypeError::TypeTooLarge);
        }
        let paths = appended_paths(self.paths, next.paths)?;
        Ok(Sized {
            paths,
            nodes,
            nesting,
        })
    }
}

fn called_paths(alloc: Global, domain: Paths, list: Paths) -> Result<Paths, OutOfMemory>
    ensures { IfOk result
        (λ made. plain_paths made ≡ called (plain_paths domain) (plain_paths list)) }
{
    let shared = Rc::new(alloc, domain)?;
    let mut made = Paths::with_capacity(alloc, list.len())?;
    for path in list.into_vec() {
        let call = PathElem::Call(shared.clone()?);
        made.push(path.after(call)?)?;
    }
    Ok(made)
}

fn picked_paths(alloc: Global, name: Name, list: Paths) -> Result<Paths, OutOfMemory>
    ensures { IfOk result (λ made. plain_paths made ≡ picked name (plain_paths list)) }
{
    let mut made = Paths::with_capacity(alloc, list.len())?;
    for path in list.into_vec() {
        made.push(path.after(PathElem::Field(name))?)?;
    }
    Ok(made)
}

fn pushed_path(list: Paths, path: Path) -> Result<Paths, OutOfMemory>
    ensures { IfOk result
        (λ made. plain_paths made ≡ append (plain_paths list) (and_path (plain_path path) no_paths)) }
{
    let mut made = list;
    made.push(path)?;
    Ok(made)
}

fn appended_paths(list: Paths, next: Paths) -> Result<Paths, OutOfMemory>
    ensures { IfOk result
        (λ made. plain_paths made ≡ append (plain_paths list) (plain_paths next)) }
{
    let mut made = list;
    for path in next.into_vec() {
        made.push(path)?;
    }
    Ok(made)
}
