//! What a path form has behind its first demands.

ghost use Rattle.std.specs.Prelude.{◌≡◌, IfOk};
ghost use Rattle.fy_order.specs.Indexed.{indexed, IsWhole};
ghost use Rattle.fy_forms.specs.Keys.{lent};
ghost use Rattle.fy_types.specs.Paths.{PlainPath, PlainPaths, and_path, append, end, no_paths};
ghost use Rattle.fy_types.specs.Reading.{front, plain_elem, plain_path, plain_paths};
ghost use Rattle.fy_derive.specs.Kinds.{begins as begins_of};
ghost use Rattle.fy_derive.specs.Least.{
  has as has_of,
  one_end as one_end_of,
  others as others_of,
  rests_of_call as rests_of_call_of,
  rests_of_field as rests_of_field_of,
};
ghost use Rattle.fy_derive.specs.Standing.{plain_kind};
ghost use Rattle.fy_derive.specs.Subsumption.{path_below, paths_below, some_below, some_passes};
ghost use Rattle.fy_order.specs.Demands.{behind, takes as takes_of, takes_argument as takes_argument_of};

use crate::keyed::{PathIndex, is_form_below, is_some_below};
use fy_base::OutOfMemory;
use fy_derive::{Demand, is_acceptor};
use fy_types::{Atom, ElemList, Name, Path, PathElem, Paths, is_end_below};
use std::alloc::Global;

/// The form of one path without demands.
pub fn one_end(alloc: Global, end: Atom) -> Result<Paths, OutOfMemory>
    ensures { IfOk result (λ made. plain_paths made ≡ one_end_of end) }
{
    let mut paths = Paths::new(alloc);
    paths.push(Path {
        elems: ElemList::new(alloc),
        end,
    })?;
    Ok(paths)
}

/// Whether a path without demands ends in the atom, or in `compl` where that is `comm`.
pub fn has(paths: &Paths, atom: Atom) -> bool
    ensures { result ≡ has_of (plain_paths paths.now) atom }
{
    for path in paths.as_slice() {
        if ends_in(path, atom) {
            return true;
        }
    }
    false
}

/// Whether the first form's type is a subtype of the second's.
pub fn are_paths_below(alloc: Global, a: &Paths, b: &Paths) -> Result<bool, OutOfMemory>
    ensures { IfOk result (λ r. r ≡ paths_below (plain_paths a.now) (plain_paths b.now)) }
{
    is_form_below(alloc, a, b)
}

/// Whether one of the paths is below one of the form's.
pub fn is_one_below(alloc: Global, list: &[&Path], form: &Paths) -> Result<bool, OutOfMemory>
    ensures { IfOk result (λ r. r ≡ some_passes (some_below (lent list.now)) (plain_paths form.now)) }
{
    for above in form.as_slice() {
        if is_some_below(alloc, list, above)? {
            return Ok(true);
        }
    }
    Ok(false)
}

fn ends_in(path: &Path, atom: Atom) -> bool
    ensures { result ≡ path_below (plain_path path.now) (end atom) }
{
    let elems = path.elems.as_slice();
    elems.len() == 0 && is_end_below(path.end, atom)
}

/// Whether each of the paths begins with a call that takes such an argument.
pub fn takers(alloc: Global, argument: &Paths, paths: &Paths) -> Result<Vec<bool>, OutOfMemory>
    ensures { IfOk result (λ taken. taken.items ≡ takes_of (plain_paths argument.now) (plain_paths paths.now)) }
{
    if paths.len() > 1 {
        return takers_by_index(alloc, argument, paths);
    }
    let mut taken = Vec::new(alloc);
    for path in paths.as_slice() {
        taken.push(takes_argument(alloc, path, argument)?)?;
    }
    Ok(taken)
}

// The same, where an index of the argument is made once for all the paths.
fn takers_by_index(alloc: Global, argument: &Paths, paths: &Paths) -> Result<Vec<bool>, OutOfMemory>
    ensures { IfOk result (λ taken. taken.items ≡ takes_of (plain_paths argument.now) (plain_paths paths.now)) }
{
    let index = PathIndex::of(alloc, argument)?;
    let mut taken = Vec::with_capacity(alloc, paths.len())?;
    for path in paths.as_slice() {
        taken.push(takes_indexed(alloc, path, &index)?)?;
    }
    Ok(taken)
}

/// The rests of the paths whose flags are set, which are those that begin with a call that takes an argument.
pub fn rests_of_takers(alloc: Global, taken: &[bool], paths: &Paths) -> Result<Paths, OutOfMemory>
    ensures { IfOk result (λ made. (Q : PlainPaths) → taken.now ≡ takes_of Q (plain_paths paths.now)
        → plain_paths made ≡ rests_of_call_of Q (plain_paths paths.now)) }
{
    let mut rests = Paths::new(alloc);
    for (place, path) in paths.as_slice().iter().enumerate() {
        if place < taken.len() && taken[place] {
            rests.push(copy_from(alloc, path, 1)?)?;
        }
    }
    Ok(rests)
}

/// The rests of the paths that begin with the field.
pub fn rests_of_field(alloc: Global, name: Name, paths: &Paths) -> Result<Paths, OutOfMemory>
    ensures { IfOk result (λ made. plain_paths made ≡ rests_of_field_of name (plain_paths paths.now)) }
{
    let mut rests = Paths::new(alloc);
    for path in paths.as_slice() {
        if begins(path, Demand::Field(name)) {
            rests.push(copy_from(alloc, path, 1)?)?;
        }
    }
    Ok(rests)
}

/// The paths that don't begin with the demand.
pub fn others(alloc: Global, demand: Demand, paths: Paths) -> Result<Paths, OutOfMemory>
    ensures { IfOk result (λ made. plain_paths made ≡ others_of (plain_kind demand) (plain_paths paths)) }
{
    let mut kept = Paths::with_capacity(alloc, paths.len())?;
    for path in paths.into_vec() {
        kept = with_other(kept, demand, path)?;
    }
    Ok(kept)
}

// The paths and then the path, unless it begins with the demand.
fn with_other(paths: Paths, demand: Demand, path: Path) -> Result<Paths, OutOfMemory>
    ensures { IfOk result (λ made. plain_paths made
        ≡ append (plain_paths paths) (others_of (plain_kind demand) (and_path (plain_path path) no_paths))) }
{
    if begins(&path, demand) {
        return Ok(paths);
    }
    let mut made = paths;
    made.push(path)?;
    Ok(made)
}

fn takes_argument(alloc: Global, path: &Path, argument: &Paths) -> Result<bool, OutOfMemory>
    ensures { IfOk result (λ r. r ≡ takes_argument_of (plain_paths argument.now) (plain_path path.now)) }
{
    let elems = path.elems.as_slice();
    if elems.len() == 0 {
        return Ok(false);
    }
    match &elems[0] {
        PathElem::Call(domain) => are_paths_below(alloc, argument, domain),
        PathElem::Field(_) => Ok(false),
    }
}

fn takes_indexed(alloc: Global, path: &Path, index: &PathIndex<'_>) -> Result<bool, OutOfMemory>
    requires { IsWhole index.now }
    ensures { IfOk result (λ r. r ≡ takes_argument_of (indexed index.now) (plain_path path.now)) }
{
    let elems = path.elems.as_slice();
    if elems.len() == 0 {
        return Ok(false);
    }
    match &elems[0] {
        PathElem::Call(domain) => index.is_below(alloc, domain),
        PathElem::Field(_) => Ok(false),
    }
}

fn begins(path: &Path, demand: Demand) -> bool
    ensures { result ≡ begins_of (plain_kind demand) (plain_path path.now) }
{
    let elems = path.elems.as_slice();
    if elems.len() == 0 {
        return begins_with_end(path.end, demand);
    }
    begins_with(&elems[0], demand)
}

fn begins_with_end(atom: Atom, demand: Demand) -> bool
    ensures { result ≡ begins_of (plain_kind demand) (end atom) }
{
    match demand {
        Demand::Call | Demand::Field(_) => false,
        Demand::Assignment => is_acceptor(atom),
    }
}

fn begins_with(elem: &PathElem, demand: Demand) -> bool
    ensures { (p : PlainPath) → result ≡ begins_of (plain_kind demand) (front (plain_elem elem.now) p) }
{
    match elem {
        PathElem::Call(_) => match demand {
            Demand::Call => true,
            Demand::Field(_) => false,
            Demand::Assignment => false,
        },
        PathElem::Field(name) => match demand {
            Demand::Call => false,
            Demand::Field(other) => other == *name,
            Demand::Assignment => false,
        },
    }
}

// A copy of the path without so many first elements.
fn copy_from(alloc: Global, path: &Path, start: usize) -> Result<Path, OutOfMemory>
    ensures { IfOk result (λ made. plain_path made ≡ behind start (plain_path path.now)) }
{
    let all = path.elems.as_slice();
    let mut elems = ElemList::with_capacity(alloc, all.len().saturating_sub(start))?;
    for i in start..all.len() {
        elems.push(copy_elem(alloc, &all[i])?)?;
    }
    Ok(Path {
        elems,
        end: path.end,
    })
}

fn copy_elem(alloc: Global, elem: &PathElem) -> Result<PathElem, OutOfMemory>
    ensures { IfOk result (λ made. plain_elem made ≡ plain_elem elem.now) }
{
    match elem {
        PathElem::Call(domain) => Ok(PathElem::Call(domain.clone()?)),
        PathElem::Field(name) => Ok(PathElem::Field(*name)),
    }
}
