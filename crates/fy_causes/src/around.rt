//! Phrases where they stand, with the variables in scope there.

ghost use Rattle.std.specs.Prelude.{◌≡◌, ◌∷◌, IfOk, option_map};
ghost use Rattle.fy_types.specs.Once.{once as once_of};
ghost use Rattle.fy_types.specs.Reading.{plain_paths};
ghost use Rattle.fy_phrase.specs.Reads.{reads};
ghost use Rattle.fy_derive.specs.Least.{paths_at as paths_at_of};
ghost use Rattle.fy_causes.specs.Hollow.{definition_in as definition_in_of, definition_of as definition_of_name};
ghost use Rattle.fy_causes.specs.Occurrences.{bound_by, forms_around, occurs};
ghost use Rattle.fy_causes.specs.Readings.{around_read, bound_read, occurrence_read};

use crate::error::CauseError;
use fy_base::OutOfMemory;
use fy_forms::{meet, paths_of};
use fy_phrase::Phrase;
use fy_types::{Paths, Ty};
use std::alloc::Global;
use std::rc::Rc;

/// A variable in scope.
#[derive(Drop)]
pub struct Variable<'a> {
    /// What its type is known by.
    pub bound: Bound<'a>,
    /// The phrase that binds it.
    pub binder: &'a Phrase,
}

/// What the type of a variable is known by. Paths of a type that is written are made only where they are asked for.
#[derive(Drop)]
pub enum Bound<'a> {
    Paths(Paths),
    Written(&'a Ty),
}

/// The variables in scope, the innermost first, which phrases share.
#[derive(Drop)]
pub enum Around<'a> {
    Nothing,
    Under(Variable<'a>, Rc<Around<'a>>),
}

/// A phrase, and the variables in scope where it stands.
#[derive(Drop)]
pub struct Occurrence<'a> {
    pub around: Rc<Around<'a>>,
    pub phrase: &'a Phrase,
}

/// The phrase where these variables are in scope.
pub(crate) fn occurring<'a>(
    around: &Rc<Around<'a>>,
    phrase: &'a Phrase,
) -> Result<Occurrence<'a>, OutOfMemory>
    ensures { IfOk result (λ o. occurrence_read o ≡ occurs (around_read around.now.value) (reads phrase.now)) }
{
    let around = around.clone()?;
    Ok(Occurrence { around, phrase })
}

/// The scope with one variable more.
#[tactic(auto, using(crate::proofs::AroundLemmas::readings))]
pub(crate) fn under<'a>(
    alloc: Global,
    bound: Bound<'a>,
    binder: &'a Phrase,
    around: &Rc<Around<'a>>,
) -> Result<Rc<Around<'a>>, OutOfMemory>
    ensures { IfOk result
        (λ made. around_read made.value ≡ bound_by (reads binder.now) (bound_read bound.entry) ∷ around_read around.now.value) }
{
    let outer = around.clone()?;
    let made = Rc::new(alloc, Around::Under(Variable { bound, binder }, outer))?;
    Ok(made)
}

/// The paths of the variable with the number, each once, and none where it isn't in scope.
#[tactic(auto, using(crate::proofs::AroundLemmas::readings))]
pub(crate) fn paths_at(alloc: Global, around: &Around<'_>, number: u32) -> Result<Paths, CauseError>
    ensures { IfOk result
        (λ made. plain_paths made ≡ once_of (paths_at_of (forms_around (around_read around.now)) number)) }
{
    match around {
        Around::Nothing => Ok(Paths::new(alloc)),
        Around::Under(variable, outer) => {
            if number == 0 {
                match &variable.bound {
                    Bound::Paths(paths) => {
                        let made = meet(alloc, &Paths::new(alloc), paths)?;
                        Ok(made)
                    }
                    Bound::Written(ty) => {
                        let paths = paths_of(alloc, ty)?;
                        let made = meet(alloc, &Paths::new(alloc), &paths)?;
                        Ok(made)
                    }
                }
            } else {
                paths_at(alloc, outer, number - 1)
            }
        }
    }
}

/// The definition of the variable with the number, if it is a name that `let` defines.
#[tactic(auto, using(crate::proofs::AroundLemmas::readings))]
pub(crate) fn definition_of<'a>(
    around: &Around<'a>,
    number: u32,
) -> Result<Option<Occurrence<'a>>, OutOfMemory>
    ensures { IfOk result
        (λ o. option_map occurrence_read o ≡ definition_of_name (around_read around.now) number) }
{
    match around {
        Around::Nothing => Ok(None),
        Around::Under(variable, outer) => {
            if number == 0 {
                definition_in(variable.binder, outer)
            } else {
                definition_of(outer, number - 1)
            }
        }
    }
}

// What the phrase defines, if it is a `let` in that scope.
fn definition_in<'a>(
    binder: &'a Phrase,
    around: &Rc<Around<'a>>,
) -> Result<Option<Occurrence<'a>>, OutOfMemory>
    ensures { IfOk result
        (λ o. option_map occurrence_read o ≡ definition_in_of (reads binder.now) (around_read around.now.value)) }
{
    match binder {
        Phrase::LetIn(_, defined, _, _) => {
            let found = occurring(around, defined)?;
            Ok(Some(found))
        }
        _ => Ok(None),
    }
}
