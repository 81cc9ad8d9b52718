//! The least types of the variables in scope.

ghost use Rattle.std.specs.Prelude.{◌≡◌, IfOk, IfSome, IsErrOf, OnSome, option_map, slice_get};
ghost use Rattle.fy_types.specs.Limits.{IsTooLarge, IsWithinLimits};
ghost use Rattle.fy_types.specs.Once.{once as once_of};
ghost use Rattle.fy_types.specs.Paths.{paths as paths_in_type};
ghost use Rattle.fy_types.specs.Reading.{plain_paths, plain_type};
ghost use Rattle.fy_derive.specs.Least.{paths_at};
ghost use Rattle.fy_least.specs.Scopes.{scope_forms};

use crate::bound::Bound;
use crate::context::Context;
use crate::error::LeastError;
use fy_base::Place;
use fy_memo::{Form, Table};
use fy_types::{Paths, Ty};
use std::alloc::Global;

/// The path forms of the types of the variables in scope, the innermost first.
#[derive(Clone, Copy, Drop)]
pub(crate) enum Scope<'a, 't> {
    /// The variables that are bound around the whole phrase, the outermost first, and the forms of the
    /// types that are written in it.
    Around(&'a Context<'t>, &'a Table<'t>),
    /// One that is bound in it, and those around.
    Under(&'a Bound<'a>, &'a Scope<'a, 't>),
}

/// The paths of a variable, each once, if the variable is in scope.
pub(crate) fn form_at(
    alloc: Global,
    scope: &Scope<'_, '_>,
    variable: u32,
) -> Result<Option<Paths>, LeastError>
    ensures ok { IfOk result
        (λ o. option_map plain_paths o ≡ option_map once_of (slice_get (scope_forms scope.now) variable)) }
    ensures large { IsErrOf result LeastError.TypeTooLarge →
        IsTooLarge (once_of (paths_at (scope_forms scope.now) variable)) }
{
    let mut rest = scope;
    let mut left = variable;
    loop {
        match rest {
            Scope::Around(context, _) => return context.form_at(alloc, left),
            Scope::Under(bound, outer) => {
                if left == 0 {
                    let made = bound.each(alloc)?;
                    return Ok(Some(made));
                }
                left -= 1;
                rest = outer;
            }
        }
    }
}

/// The form of a type, which is the one with the index among those that are written at the place in the
/// whole phrase. None, if it has to be made.
pub(crate) fn written_at<'a>(
    scope: &'a Scope<'a, '_>,
    at: Place,
    index: usize,
    ty: &Ty,
) -> Option<&'a Form>
    ensures form { IfSome result (λ form. plain_paths form.now.paths ≡ paths_in_type (plain_type ty.now)) }
    ensures within { OnSome result (IsWithinLimits (paths_in_type (plain_type ty.now))) }
{
    let mut rest = scope;
    loop {
        match rest {
            Scope::Around(_, table) => return table.find(at, index, ty),
            Scope::Under(_, outer) => rest = outer,
        }
    }
}
