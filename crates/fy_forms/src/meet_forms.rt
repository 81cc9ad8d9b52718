//! The meet of two path forms.

ghost use Rattle.std.specs.Prelude.{◌≡◌, IfOk, OnOk, IsErrOf};
ghost use Rattle.fy_types.specs.Reading.{plain_paths, type_of_form};
ghost use Rattle.fy_types.specs.Limits.{IsWithinLimits, IsTooLarge};
ghost use Rattle.fy_forms.specs.Sized.{IsSized};
ghost use Rattle.fy_types.specs.Bounds.{meet_of, IsGreatestLowerBound};
ghost use Rattle.fy_types.specs.Once.{once};

use crate::error::TypeError;
use crate::kept::{Places, keep_all, keep_each};
use crate::sized::Sized;
use fy_types::Paths;
use std::alloc::Global;

// Among so few paths a look through those that are kept costs less than slots for their numbers.
const FEW: usize = 16;

/// The paths of the first form and then those of the second, each once, at its first place. This
/// stands for a greatest lower bound of the two types.
///
/// # Errors
///
/// `TypeTooLarge` comes exactly where these paths have over 4,096 nodes or nest more than 480.
pub fn meet(alloc: Global, a: &Paths, b: &Paths) -> Result<Paths, TypeError>
    ensures ok { IfOk result
        (λ made. plain_paths made ≡ meet_of (plain_paths a.now) (plain_paths b.now)) }
    ensures bound { IfOk result
        (λ made. IsGreatestLowerBound (type_of_form made)
        (type_of_form a.now) (type_of_form b.now)) }
    ensures within { OnOk result (IsWithinLimits (meet_of (plain_paths a.now) (plain_paths b.now))) }
    ensures large { IsErrOf result TypeError.TypeTooLarge →
        IsTooLarge (meet_of (plain_paths a.now) (plain_paths b.now)) }
{
    let sized = meet_form(alloc, a, b)?;
    let Sized { paths, .. } = sized;
    Ok(paths)
}

// So many paths are sooner looked for among all.
const VERY_FEW: usize = 4;

/// The meet of a form, in which each path stands once, and another one: the paths of the first form, which is taken,
/// and then those of the second, each once, at its first place.
///
/// # Errors
///
/// `TypeTooLarge` comes exactly where these paths have over 4,096 nodes or nest more than 480.
pub fn meet_with(alloc: Global, a: Paths, b: &Paths) -> Result<Paths, TypeError>
    requires { once (plain_paths a) ≡ plain_paths a }
    ensures ok { IfOk result (λ made. plain_paths made ≡ meet_of (plain_paths a) (plain_paths b.now)) }
    ensures within { OnOk result (IsWithinLimits (meet_of (plain_paths a) (plain_paths b.now))) }
    ensures large { IsErrOf result TypeError.TypeTooLarge →
        IsTooLarge (meet_of (plain_paths a) (plain_paths b.now)) }
{
    if b.len() > VERY_FEW {
        return meet(alloc, &a, b);
    }
    let first = Sized::of(a)?;
    let Sized { paths, .. } = keep_each(alloc, first, b)?;
    Ok(paths)
}

/// The meet with its size.
pub(crate) fn meet_form(alloc: Global, a: &Paths, b: &Paths) -> Result<Sized, TypeError>
    ensures ok { IfOk result (λ s. IsSized s (meet_of (plain_paths a.now) (plain_paths b.now))) }
    ensures large { IsErrOf result TypeError.TypeTooLarge →
        IsTooLarge (meet_of (plain_paths a.now) (plain_paths b.now)) }
{
    let count = a.len().saturating_add(b.len());
    if count <= FEW {
        let few = keep_each(alloc, Sized::none(alloc), a)?;
        return keep_each(alloc, few, b);
    }
    let mut places = Places::new(alloc, count)?;
    let first = keep_all(alloc, Sized::none(alloc), &mut places, a)?;
    keep_all(alloc, first, &mut places, b)
}
