//! A variable around a whole phrase, with the form of its type.

ghost use Rattle.std.specs.Prelude.{◌≡◌, true, IfOk, IsErrOf};
ghost use Rattle.fy_types.specs.Limits.{IsTooLarge};
ghost use Rattle.fy_types.specs.Once.{once as once_of};
ghost use Rattle.fy_types.specs.Paths.{paths as paths_in_type};
ghost use Rattle.fy_types.specs.Reading.{plain_paths, plain_type};
ghost use Rattle.fy_least.specs.Outers.{has_once};

use crate::error::LeastError;
use crate::written::once_in;
use fy_base::OutOfMemory;
use fy_memo::Form;
use fy_types::{Paths, Ty, copy_paths};
use std::alloc::Global;

/// The type of a variable around the whole phrase, and its paths, each once, which each use of the
/// variable copies; or none where they pass a limit.
#[derive(Drop)]
pub(crate) struct Outer<'a> {
    pub ty: &'a Ty,
    paths: Option<Paths>,
    ghost right: { has_once paths (plain_type ty.now) ≡ true },
}

impl<'a> Outer<'a> {
    /// The variable with the type.
    pub(crate) fn of(alloc: Global, ty: &'a Ty) -> Result<Outer<'a>, OutOfMemory>
        ensures { IfOk result (λ outer. plain_type outer.ty.now ≡ plain_type ty.now) }
    {
        if let Ok(form) = Form::of(alloc, ty) {
            let paths = copy_paths(alloc, form.each())?;
            return Ok(Outer {
                ty,
                paths: Some(paths),
            });
        }
        Ok(Outer {
            ty,
            paths: once_in(alloc, ty).ok(),
        })
    }

    /// The paths of the type, each once.
    pub(crate) fn each(&self, alloc: Global) -> Result<Paths, LeastError>
        ensures ok { IfOk result (λ made. plain_paths made ≡ once_of (paths_in_type (plain_type self.now.ty.now))) }
        ensures large { IsErrOf result LeastError.TypeTooLarge → IsTooLarge (once_of (paths_in_type (plain_type self.now.ty.now))) }
    {
        match &self.paths {
            Some(paths) => {
                let made = copy_paths(alloc, paths)?;
                Ok(made)
            }
            None => once_in(alloc, self.ty),
        }
    }
}
