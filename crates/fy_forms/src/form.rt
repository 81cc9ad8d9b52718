//! The path form of a type.

ghost use Rattle.std.specs.Prelude.{◌≡◌, IfOk, OnOk, IsErrOf};
ghost use Rattle.fy_types.specs.Paths.{paths, all_paths};
ghost use Rattle.fy_types.specs.Reading.{plain_type, plain_types, plain_paths};
ghost use Rattle.fy_types.specs.Limits.{IsWithinLimits, IsTooLarge};
ghost use Rattle.fy_forms.specs.Sized.{IsSized};

use crate::error::TypeError;
use crate::sized::Sized;
use fy_types::{Paths, Ty, TyList};
use std::alloc::Global;

/// The paths of a type, in order of text. `ns` has none. `A -> B` has those of B, each with a call
/// of A's paths in front; `i : A` has those of A, each with the field in front; a meet has those
/// of its members.
///
/// # Errors
///
/// `TypeTooLarge` comes exactly where the paths have over 4,096 nodes or nest more than 480. A node
/// is a path element, an end, or a node of a domain. An end nests 1, and an element one more than
/// what follows it or, where that nests more, its domain.
pub fn paths_of(alloc: Global, ty: &Ty) -> Result<Paths, TypeError>
    ensures ok { IfOk result (λ made. plain_paths made ≡ paths (plain_type ty.now)) }
    ensures within { OnOk result (IsWithinLimits (paths (plain_type ty.now))) }
    ensures large { IsErrOf result TypeError.TypeTooLarge → IsTooLarge (paths (plain_type ty.now)) }
{
    let sized = form_of(alloc, ty)?;
    let Sized { paths, .. } = sized;
    Ok(paths)
}

// What follows an arrow is taken before its domain, since an arrow to a type without paths has none,
// however large the domain is.
#[cycle(form)]
fn form_of(alloc: Global, ty: &Ty) -> Result<Sized, TypeError>
    ensures ok { IfOk result (λ s. IsSized s (paths (plain_type ty.now))) }
    ensures large { IsErrOf result TypeError.TypeTooLarge → IsTooLarge (paths (plain_type ty.now)) }
{
    match ty {
        Ty::Ns => Ok(Sized::none(alloc)),
        Ty::Atom(atom) => Ok(Sized::one(alloc, *atom)?),
        Ty::Arrow(domain, rest) => {
            let after = form_of(alloc, rest)?;
            if after.nodes == 0 {
                return Ok(after);
            }
            let call = form_of(alloc, domain)?;
            after.after_call(alloc, call)
        }
        Ty::Field(name, part) => {
            let after = form_of(alloc, part)?;
            after.after_field(alloc, *name)
        }
        Ty::Meet(all) => form_of_all(alloc, all),
    }
}

#[cycle(form)]
fn form_of_all(alloc: Global, all: &TyList) -> Result<Sized, TypeError>
    ensures ok { IfOk result (λ s. IsSized s (all_paths (plain_types all.now))) }
    ensures large { IsErrOf result TypeError.TypeTooLarge →
        IsTooLarge (all_paths (plain_types all.now)) }
{
    let mut form = Sized::none(alloc);
    for ty in all.as_slice() {
        let next = form_of(alloc, ty)?;
        form = form.followed_by(next)?;
    }
    Ok(form)
}
