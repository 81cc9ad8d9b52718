//! Copies of types and path forms, and equality of types.

ghost use Rattle.std.specs.Prelude.{◌≡◌, ◌↔◌, IsTrue, IfOk};
ghost use Rattle.fy_types.specs.Reading.{plain_type, plain_types, plain_elem, plain_elems, plain_path, plain_paths};

use crate::paths::{ElemList, Path, PathElem, Paths};
use crate::types::{Ty, TyList};
use fy_base::OutOfMemory;
use std::alloc::Global;

/// A type equal to the given one.
#[cycle(copy_ty)]
pub fn copy_ty(alloc: Global, ty: &Ty) -> Result<Ty, OutOfMemory>
    ensures { IfOk result (λ made. plain_type made ≡ plain_type ty.now) }
{
    match ty {
        Ty::Ns => Ok(Ty::Ns),
        Ty::Atom(atom) => Ok(Ty::Atom(*atom)),
        Ty::Arrow(domain, rest) => Ok(Ty::Arrow(domain.clone()?, rest.clone()?)),
        Ty::Field(name, part) => Ok(Ty::Field(*name, part.clone()?)),
        Ty::Meet(all) => Ok(Ty::Meet(copy_list(alloc, all)?)),
    }
}

#[cycle(copy_ty)]
fn copy_list(alloc: Global, all: &TyList) -> Result<TyList, OutOfMemory>
    ensures { IfOk result (λ made. plain_types made ≡ plain_types all.now) }
{
    let mut made = TyList::with_capacity(alloc, all.len())?;
    for ty in all.as_slice() {
        made.push(copy_ty(alloc, ty)?)?;
    }
    Ok(made)
}

/// A path form equal to the given one.
pub fn copy_paths(alloc: Global, paths: &Paths) -> Result<Paths, OutOfMemory>
    ensures { IfOk result (λ made. plain_paths made ≡ plain_paths paths.now) }
{
    let mut made = Paths::with_capacity(alloc, paths.len())?;
    for path in paths.as_slice() {
        made.push(copy_path(alloc, path)?)?;
    }
    Ok(made)
}

/// A path equal to the given one.
pub fn copy_path(alloc: Global, path: &Path) -> Result<Path, OutOfMemory>
    ensures { IfOk result (λ made. plain_path made ≡ plain_path path.now) }
{
    let elems = copy_elems(alloc, &path.elems)?;
    Ok(Path {
        elems,
        end: path.end,
    })
}

#[tactic(auto, using(crate::proofs::ReadLemmas::elements))]
fn copy_elems(alloc: Global, elems: &ElemList) -> Result<ElemList, OutOfMemory>
    ensures { IfOk result (λ made. plain_elems made ≡ plain_elems elems.now) }
{
    let mut made = ElemList::with_capacity(alloc, elems.len())?;
    for elem in elems.as_slice() {
        made.push(copy_elem(alloc, elem)?)?;
    }
    Ok(made)
}

fn copy_elem(alloc: Global, elem: &PathElem) -> Result<PathElem, OutOfMemory>
    ensures { IfOk result (λ made. plain_elem made ≡ plain_elem elem.now) }
{
    match elem {
        PathElem::Call(domain) => Ok(PathElem::Call(domain.clone()?)),
        PathElem::Field(name) => Ok(PathElem::Field(*name)),
    }
}

/// Whether the two types are equal as trees.
#[cycle(same_ty)]
pub fn same_ty(a: &Ty, b: &Ty) -> bool
    ensures { IsTrue result ↔ (plain_type a.now ≡ plain_type b.now) }
{
    match a {
        Ty::Ns => matches!(b, Ty::Ns),
        Ty::Atom(x) => match b {
            Ty::Atom(y) => *x == *y,
            _ => false,
        },
        Ty::Arrow(x, v) => match b {
            Ty::Arrow(y, w) => same_ty(x, y) && same_ty(v, w),
            _ => false,
        },
        Ty::Field(i, x) => match b {
            Ty::Field(j, y) => *i == *j && same_ty(x, y),
            _ => false,
        },
        Ty::Meet(xs) => match b {
            Ty::Meet(ys) => same_list(xs, ys),
            _ => false,
        },
    }
}

#[cycle(same_ty)]
fn same_list(a: &TyList, b: &TyList) -> bool
    ensures { IsTrue result ↔ (plain_types a.now ≡ plain_types b.now) }
{
    let xs = a.as_slice();
    let ys = b.as_slice();
    if xs.len() != ys.len() {
        return false;
    }
    for i in 0..xs.len() {
        if !same_ty(&xs[i], &ys[i]) {
            return false;
        }
    }
    true
}
