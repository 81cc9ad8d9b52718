//! Path forms with a call or a field in front of each path.

ghost use Rattle.std.specs.Prelude.{◌≡◌, IfOk, OnOk, IsErrOf};
ghost use Rattle.fy_types.specs.Paths.{called, picked};
ghost use Rattle.fy_types.specs.Reading.{plain_paths};
ghost use Rattle.fy_types.specs.Limits.{IsTooLarge, IsWithinLimits};

use crate::error::TypeError;
use crate::sized::Sized;
use fy_types::{Name, Paths, copy_paths};
use std::alloc::Global;

/// The paths, each with the field in front.
///
/// # Errors
///
/// `TypeTooLarge` comes exactly where these paths have over 4,096 nodes or nest more than 480.
pub fn field_form(alloc: Global, name: Name, paths: &Paths) -> Result<Paths, TypeError>
    ensures ok { IfOk result (λ made. plain_paths made ≡ picked name (plain_paths paths.now)) }
    ensures within { OnOk result (IsWithinLimits (picked name (plain_paths paths.now))) }
    ensures large { IsErrOf result TypeError.TypeTooLarge → IsTooLarge (picked name (plain_paths paths.now)) }
{
    let copy = copy_paths(alloc, paths)?;
    let after = Sized::of(copy)?;
    let sized = after.after_field(alloc, name)?;
    let Sized { paths: made, .. } = sized;
    Ok(made)
}

/// The paths, each with a call in front whose argument has the paths of the domain.
///
/// # Errors
///
/// `TypeTooLarge` comes exactly where these paths have over 4,096 nodes or nest more than 480. It
/// never comes for no paths, however large the domain is.
pub fn call_form(alloc: Global, domain: &Paths, paths: &Paths) -> Result<Paths, TypeError>
    ensures ok { IfOk result
        (λ made. plain_paths made ≡ called (plain_paths domain.now) (plain_paths paths.now)) }
    ensures within { OnOk result (IsWithinLimits (called (plain_paths domain.now) (plain_paths paths.now))) }
    ensures large { IsErrOf result TypeError.TypeTooLarge →
        IsTooLarge (called (plain_paths domain.now) (plain_paths paths.now)) }
{
    let copy = copy_paths(alloc, paths)?;
    let after = Sized::of(copy)?;
    if after.nodes == 0 {
        return Ok(Paths::new(alloc));
    }
    let argument = copy_paths(alloc, domain)?;
    let call = Sized::of(argument)?;
    let sized = after.after_call(alloc, call)?;
    let Sized { paths: made, .. } = sized;
    Ok(made)
}
