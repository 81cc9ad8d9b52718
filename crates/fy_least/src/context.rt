//! The variables around a whole phrase.

ghost use Rattle.std.specs.Prelude.{◌≡◌, IfOk, IsErrOf, map, option_map, slice_get};
ghost use Rattle.fy_types.specs.Limits.{IsTooLarge};
ghost use Rattle.fy_types.specs.Once.{once as once_of};
ghost use Rattle.fy_types.specs.Reading.{plain_paths, plain_type};
ghost use Rattle.fy_derive.specs.Least.{paths_at};
ghost use Rattle.fy_least.specs.Scopes.{context_forms, outer_type};

use crate::error::LeastError;
use crate::outer::Outer;
use fy_base::OutOfMemory;
use fy_types::{Paths, Ty};
use std::alloc::Global;

/// The variables around the whole phrase, the outermost first.
#[derive(Drop)]
pub(crate) struct Context<'a> {
    outers: Vec<Outer<'a>>,
}

impl<'a> Context<'a> {
    /// The context of variables of the types.
    pub(crate) fn of(alloc: Global, types: &'a [Ty]) -> Result<Context<'a>, OutOfMemory>
        ensures { IfOk result (λ context. map outer_type context.outers.items ≡ map plain_type types.now) }
    {
        let mut outers = Vec::with_capacity(alloc, types.len())?;
        for ty in types {
            outers.push(Outer::of(alloc, ty)?)?;
        }
        Ok(Context { outers })
    }

    /// The paths of a variable, each once, if the variable is in the context.
    pub(crate) fn form_at(&self, alloc: Global, variable: u32) -> Result<Option<Paths>, LeastError>
        ensures ok { IfOk result
            (λ o. option_map plain_paths o ≡ option_map once_of (slice_get (context_forms self.now) variable)) }
        ensures large { IsErrOf result LeastError.TypeTooLarge →
            IsTooLarge (once_of (paths_at (context_forms self.now) variable)) }
    {
        let place = variable as usize;
        if place >= self.outers.len() {
            return Ok(None);
        }
        let made = self.outers[self.outers.len() - 1 - place].each(alloc)?;
        Ok(Some(made))
    }
}
