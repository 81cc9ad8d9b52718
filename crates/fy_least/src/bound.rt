//! The path forms of the types of variables that are bound in a phrase.

ghost use Rattle.std.specs.Prelude.{◌≡◌, true, IfOk};
ghost use Rattle.fy_types.specs.Once.{are_same, once as once_of};
ghost use Rattle.fy_types.specs.Reading.{plain_paths};

use fy_base::OutOfMemory;
use fy_memo::Form;
use fy_types::{Paths, copy_paths};
use std::alloc::Global;

/// A path form, and each of its paths once, as each use of the variable has them.
#[derive(Drop)]
pub(crate) struct Bound<'a> {
    pub paths: &'a Paths,
    each: &'a Paths,
    ghost each_once: { are_same (once_of (plain_paths paths.now)) (plain_paths each.now) ≡ true },
}

impl<'a> Bound<'a> {
    /// The form of a type.
    pub(crate) fn of_form(form: &'a Form) -> Bound<'a>
        ensures { plain_paths result.paths.now ≡ plain_paths form.now.paths }
    {
        Bound {
            paths: &form.paths,
            each: form.each(),
        }
    }

    /// Paths of which each stands once.
    pub(crate) fn of_distinct(paths: &'a Paths) -> Bound<'a>
        requires { once_of (plain_paths paths.now) ≡ plain_paths paths.now }
        ensures { plain_paths result.paths.now ≡ plain_paths paths.now }
    {
        Bound { paths, each: paths }
    }

    /// The paths, each once.
    pub(crate) fn each(&self, alloc: Global) -> Result<Paths, OutOfMemory>
        ensures { IfOk result (λ made. plain_paths made ≡ once_of (plain_paths self.now.paths.now)) }
    {
        copy_paths(alloc, self.each)
    }
}
