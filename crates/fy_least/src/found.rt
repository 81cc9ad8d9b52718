//! What is found of a visit.

ghost use Rattle.std.specs.Prelude.{◌≡◌, ◌+◌, ◌<◌, ◌≤◌, IfOk, IsErrOf};
ghost use Rattle.fy_types.specs.Paths.{no_paths};
ghost use Rattle.fy_types.specs.Reading.{plain_paths, plain_type};
ghost use Rattle.fy_types.specs.Types.{atom as atom_type};
ghost use Rattle.fy_derive.specs.Derivations.{by_ns, sub};
ghost use Rattle.fy_derive.specs.Reading.{plain_derivation};
ghost use Rattle.fy_least.specs.Made.{IsArrowTo, IsFieldOf};
ghost use Rattle.fy_least.specs.Derived.{IsSubsumed};
ghost use Rattle.fy_least.specs.Limits.{most_together};
ghost use Rattle.fy_least.specs.Visited.{IsMade, IsRefused, blame_at};

use crate::error::LeastError;
use fy_base::{OutOfMemory, Place};
use fy_derive::Derivation;
use fy_forms::size_of_paths;
use fy_memo::Memo;
use fy_types::{Atom, Name, Paths, Ty, copy_ty};
use std::alloc::Global;
use std::rc::Rc;

const MOST_NODES: u64 = 4096;

const MOST_NESTING: u64 = 480;

const MOST_TOGETHER: u64 = 4194304;

/// What is found of one visit of a phrase.
#[derive(Debug, Drop)]
pub(crate) struct Found {
    /// The least type.
    pub paths: Paths,
    /// A derivation of a type that is below the least type.
    pub derivation: Derivation,
    /// Where the phrase is blamed, should it have no type of use.
    pub blame: Place,
    /// The nodes of the least types of all visits of the phrase and of its parts.
    pub total: u64,
}

impl Found {
    /// A visit with the least type, whose parts have so many nodes in all their least types.
    pub(crate) fn new(
        paths: Paths,
        derivation: Derivation,
        blame: Place,
        parts: u64,
    ) -> Result<Found, LeastError>
        ensures made { IfOk result (λ f. IsMade (plain_paths paths) blame parts f) }
        ensures derived { IfOk result (λ f. plain_derivation f.derivation ≡ plain_derivation derivation) }
        ensures large { IsErrOf result LeastError.TypeTooLarge → IsRefused (plain_paths paths) parts }
    {
        let size = size_of_paths(&paths);
        if size.nodes > MOST_NODES || size.nesting > MOST_NESTING {
            return Err(LeastError::TypeTooLarge);
        }
        let total = both(parts, size.nodes)?;
        Ok(Found {
            paths,
            derivation,
            blame,
            total,
        })
    }

    /// A visit that has only types as good as `ns`.
    pub(crate) fn none(alloc: Global, blame: Place, parts: u64) -> Found
        requires { parts ≤ most_together }
        ensures made { IsMade no_paths blame parts result }
        ensures derived { plain_derivation result.derivation ≡ by_ns }
    {
        Found {
            paths: Paths::new(alloc),
            derivation: Derivation::Ns,
            blame,
            total: parts,
        }
    }

    /// Where this part is blamed if it has no type of use, else the place.
    pub(crate) fn blame_or(&self, place: Place) -> Place
        ensures { result ≡ blame_at self.now place }
    {
        if self.paths.len() == 0 {
            self.blame
        } else {
            place
        }
    }
}

/// The sum of two numbers of nodes, unless it is past the limit on all together.
pub(crate) fn both(a: u64, b: u64) -> Result<u64, LeastError>
    ensures sum { IfOk result (λ n. n ≡ a + b) }
    ensures low { IfOk result (λ n. n ≤ most_together) }
    ensures large { IsErrOf result LeastError.TypeTooLarge → most_together < a + b }
{
    let sum = a.saturating_add(b);
    if sum > MOST_TOGETHER {
        return Err(LeastError::TypeTooLarge);
    }
    Ok(sum)
}

/// The derivation subsumed to the atom.
pub(crate) fn to_atom(
    alloc: Global,
    atom: Atom,
    derivation: Derivation,
) -> Result<Derivation, OutOfMemory>
    ensures { IfOk result (λ d. plain_derivation d ≡ sub (atom_type atom) (plain_derivation derivation)) }
{
    to_type(alloc, Ty::Atom(atom), derivation)
}

/// The derivation subsumed to the type of the paths.
pub(crate) fn to_paths(
    alloc: Global,
    paths: &Paths,
    derivation: Derivation,
    memo: &mut Memo,
) -> Result<Derivation, OutOfMemory>
    ensures { IfOk result
        (λ d. IsSubsumed (plain_paths paths.now) (plain_derivation derivation) (plain_derivation d)) }
{
    to_type(alloc, memo.ty_of(alloc, paths)?, derivation)
}

/// The derivation subsumed to the type.
pub(crate) fn to_type(
    alloc: Global,
    ty: Ty,
    derivation: Derivation,
) -> Result<Derivation, OutOfMemory>
    ensures { IfOk result (λ d. plain_derivation d ≡ sub (plain_type ty) (plain_derivation derivation)) }
{
    Ok(Derivation::Sub(ty, Box::new(alloc, derivation)?))
}

/// A type of the procedures from the type to one with the paths.
pub(crate) fn arrow_to(
    alloc: Global,
    domain: &Ty,
    paths: &Paths,
    memo: &mut Memo,
) -> Result<Ty, OutOfMemory>
    ensures { IfOk result (λ ty. IsArrowTo (plain_type domain.now) (plain_paths paths.now) (plain_type ty)) }
{
    let from = copy_ty(alloc, domain)?;
    let back = memo.ty_of(alloc, paths)?;
    Ok(Ty::Arrow(Rc::new(alloc, from)?, Rc::new(alloc, back)?))
}

/// A type of what has a field of the name with the paths.
pub(crate) fn field_of(
    alloc: Global,
    name: Name,
    paths: &Paths,
    memo: &mut Memo,
) -> Result<Ty, OutOfMemory>
    ensures { IfOk result (λ ty. IsFieldOf name (plain_paths paths.now) (plain_type ty)) }
{
    let part = memo.ty_of(alloc, paths)?;
    Ok(Ty::Field(name, Rc::new(alloc, part)?))
}
