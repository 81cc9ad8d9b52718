//! The path form of a type, as it is and with each path once.

ghost use Rattle.std.specs.Prelude.{◌≡◌, true, IfOk, IsErrOf, OnOk};
ghost use Rattle.fy_types.specs.Limits.{IsTooLarge, IsWithinLimits};
ghost use Rattle.fy_types.specs.Once.{once as once_of};
ghost use Rattle.fy_types.specs.Paths.{paths as paths_in_type};
ghost use Rattle.fy_types.specs.Reading.{plain_paths, plain_type};
ghost use Rattle.fy_memo.specs.Forms.{has_each};

use fy_forms::{TypeError, meet, paths_of};
use fy_types::{Paths, Ty};
use std::alloc::Global;

/// The path form of a type.
#[derive(Drop)]
pub struct Form {
    /// The paths, in order of text.
    pub paths: Paths,
    // Each of them once, where one stands there twice.
    others: Option<Paths>,
    ghost each_once: { has_each paths others ≡ true },
}

impl Form {
    /// The form of a type.
    ///
    /// # Errors
    ///
    /// `TypeTooLarge` comes exactly where the paths have over 4,096 nodes or nest more than 480.
    pub fn of(alloc: Global, ty: &Ty) -> Result<Form, TypeError>
        ensures ok { IfOk result (λ form. plain_paths form.paths ≡ paths_in_type (plain_type ty.now)) }
        ensures within { OnOk result (IsWithinLimits (paths_in_type (plain_type ty.now))) }
        ensures large { IsErrOf result TypeError.TypeTooLarge → IsTooLarge (paths_in_type (plain_type ty.now)) }
    {
        let paths = paths_of(alloc, ty)?;
        let each = meet(alloc, &Paths::new(alloc), &paths)?;
        if each.len() == paths.len() {
            return Ok(Form {
                paths,
                others: None,
            });
        }
        Ok(Form {
            paths,
            others: Some(each),
        })
    }

    /// Each path once, where it first stands.
    pub fn each(&self) -> &Paths
        ensures { plain_paths result.now ≡ once_of (plain_paths self.now.paths) }
    {
        match &self.others {
            None => &self.paths,
            Some(each) => each,
        }
    }
}
