//! The type of a path form.

ghost use Rattle.std.specs.Prelude.{◌≡◌, ◌+◌, ◌*◌, ◌≤◌, ◌++◌, max, IfOk, length, map};
ghost use Rattle.fy_types.specs.Fields.{
  AreSome,
  HasFullMeets,
  HaveFullMeets,
  fields_in,
  fields_in_all,
  fields_in_elem,
  fields_in_form,
  fields_in_path,
};
ghost use Rattle.fy_types.specs.Keeping.{elem_nesting};
ghost use Rattle.fy_types.specs.Limits.{all_nesting, nesting as nesting_of};
ghost use Rattle.fy_types.specs.Nested.{type_nesting, types_nesting};
ghost use Rattle.fy_types.specs.Paths.{no_paths, and_path, paths, all_paths};
ghost use Rattle.fy_types.specs.Reading.{plain_type, plain_types, plain_elem, plain_path, plain_paths, paths_from, all_front};

use crate::paths::{Path, PathElem, Paths};
use crate::types::{Ty, TyList};
use fy_base::OutOfMemory;
use std::alloc::Global;
use std::rc::Rc;

/// A type with these paths, in this order. It has a meet only where there are two members or more,
/// and exactly the fields of the paths, in their order.
#[cycle(back)]
pub fn ty_of(alloc: Global, form: &Paths) -> Result<Ty, OutOfMemory>
    ensures made { IfOk result (λ ty. paths (plain_type ty) ≡ plain_paths form.now) }
    ensures nesting { IfOk result (λ ty. type_nesting (plain_type ty) ≤ 2 * all_nesting (plain_paths form.now) + 1) }
    ensures full { IfOk result (λ ty. HasFullMeets (plain_type ty)) }
    ensures fields { IfOk result (λ ty. fields_in (plain_type ty) ≡ fields_in_form (plain_paths form.now)) }
{
    let list = form.as_slice();
    match list {
        [] => Ok(Ty::Ns),
        [only] => ty_of_path(alloc, only),
        _ => Ok(Ty::Meet(types_of(alloc, list)?)),
    }
}

#[cycle(back)]
fn types_of(alloc: Global, list: &[Path]) -> Result<TyList, OutOfMemory>
    ensures nesting { IfOk result
        (λ all. types_nesting (plain_types all) ≤ 2 * all_nesting (paths_from (map plain_path list.now))) }
    ensures made { IfOk result
        (λ all. all_paths (plain_types all) ≡ paths_from (map plain_path list.now)) }
    ensures full { IfOk result (λ all. HaveFullMeets (plain_types all)) }
    ensures some { IfOk result (λ all. 2 ≤ length list.now → AreSome (plain_types all)) }
    ensures fields { IfOk result
        (λ all. fields_in_all (plain_types all) ≡ fields_in_form (paths_from (map plain_path list.now))) }
{
    let mut all = TyList::with_capacity(alloc, list.len())?;
    for path in list {
        all.push(ty_of_path(alloc, path)?)?;
    }
    Ok(all)
}

#[cycle(back)]
fn ty_of_path(alloc: Global, path: &Path) -> Result<Ty, OutOfMemory>
    ensures nesting { IfOk result (λ ty. type_nesting (plain_type ty) ≤ 2 * nesting_of (plain_path path.now)) }
    ensures made { IfOk result (λ ty. paths (plain_type ty) ≡ and_path (plain_path path.now) no_paths) }
    ensures full { IfOk result (λ ty. HasFullMeets (plain_type ty)) }
    ensures fields { IfOk result (λ ty. fields_in (plain_type ty) ≡ fields_in_path (plain_path path.now)) }
{
    let elems = path.elems.as_slice();
    let mut ty = Ty::Atom(path.end);
    for i in (0..elems.len()).rev() {
        ty = ty_behind(alloc, &elems[i], ty)?;
    }
    Ok(ty)
}

#[cycle(back)]
fn ty_behind(alloc: Global, elem: &PathElem, rest: Ty) -> Result<Ty, OutOfMemory>
    ensures nesting { IfOk result
        (λ ty. type_nesting (plain_type ty) ≤ max (2 * elem_nesting (plain_elem elem.now) + 1) (type_nesting (plain_type rest)) + 1) }
    ensures made { IfOk result
        (λ ty. paths (plain_type ty) ≡ all_front (plain_elem elem.now) (paths (plain_type rest))) }
    ensures full { IfOk result (λ ty. HasFullMeets (plain_type rest) → HasFullMeets (plain_type ty)) }
    ensures fields { IfOk result
        (λ ty. fields_in (plain_type ty) ≡ fields_in_elem (plain_elem elem.now) ++ fields_in (plain_type rest)) }
{
    match elem {
        PathElem::Call(domain) => Ok(Ty::Arrow(
            Rc::new(alloc, ty_of(alloc, domain)?)?,
            Rc::new(alloc, rest)?,
        )),
        PathElem::Field(name) => Ok(Ty::Field(*name, Rc::new(alloc, rest)?)),
    }
}
