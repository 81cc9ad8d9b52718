//! The path forms of types that are written around a phrase, each path once.

ghost use Rattle.std.specs.Prelude.{◌≡◌, IfOk, IsErrOf};
ghost use Rattle.fy_types.specs.Limits.{IsTooLarge};
ghost use Rattle.fy_types.specs.Once.{once as once_of};
ghost use Rattle.fy_types.specs.Paths.{all_paths, paths as paths_in_type};
ghost use Rattle.fy_types.specs.Reading.{plain_paths, plain_type, plain_types};

use crate::error::LeastError;
use crate::many::paths_of_call;
use fy_forms::{field_form, meet_with};
use fy_order::one_end;
use fy_types::{Paths, Ty, TyList};
use std::alloc::Global;

/// The paths of the type, each once. Repeats are left out part by part, so that a form that keeps the
/// limits is found where the type's own passes them.
#[cycle(written)]
pub(crate) fn once_in(alloc: Global, ty: &Ty) -> Result<Paths, LeastError>
    ensures ok { IfOk result (λ made. plain_paths made ≡ once_of (paths_in_type (plain_type ty.now))) }
    ensures large { IsErrOf result LeastError.TypeTooLarge → IsTooLarge (once_of (paths_in_type (plain_type ty.now))) }
{
    match ty {
        Ty::Ns => Ok(Paths::new(alloc)),
        Ty::Atom(end) => {
            let made = one_end(alloc, *end)?;
            Ok(made)
        }
        Ty::Arrow(domain, rest) => {
            let rests = once_in(alloc, rest)?;
            let made = paths_of_call(alloc, domain, &rests)?;
            Ok(made)
        }
        Ty::Field(name, part) => {
            let rests = once_in(alloc, part)?;
            let made = field_form(alloc, *name, &rests)?;
            Ok(made)
        }
        Ty::Meet(list) => once_in_all(alloc, list),
    }
}

// The paths of all members, each once.
#[cycle(written)]
fn once_in_all(alloc: Global, list: &TyList) -> Result<Paths, LeastError>
    ensures ok { IfOk result (λ made. plain_paths made ≡ once_of (all_paths (plain_types list.now))) }
    ensures large { IsErrOf result LeastError.TypeTooLarge → IsTooLarge (once_of (all_paths (plain_types list.now))) }
{
    let mut paths = Paths::new(alloc);
    for ty in list.as_slice() {
        let member = once_in(alloc, ty)?;
        paths = meet_with(alloc, paths, &member)?;
    }
    Ok(paths)
}
