//! The types of the variables in scope.

ghost use Rattle.std.specs.Prelude.{◌≡◌, IfOk, OnOk, slice_get};
ghost use Rattle.fy_phrase.specs.Premises.{plain_binder};
ghost use Rattle.fy_derive.specs.Contexts.{numbers};
ghost use Rattle.fy_derive.specs.Judging.{under};
ghost use Rattle.fy_derive.specs.Shown.{all_shown, AreIn, Extends};

use crate::reading::number_of_given;
use crate::table::TypeTable;
use fy_base::OutOfMemory;
use fy_phrase::Binds;
use std::alloc::Global;

/// The numbers of the types of the variables in scope, the innermost first.
#[derive(Clone, Copy, Drop)]
pub enum Context<'a> {
    /// The variables that are bound around the whole phrase.
    Outside(&'a [usize]),
    /// One that is bound in it, and those around.
    Under(usize, &'a Context<'a>),
}

/// The number of a variable's type, if the variable is in scope.
pub fn number_at(context: &Context<'_>, variable: u32) -> Option<usize>
    ensures { result ≡ slice_get (numbers context.now) variable }
{
    let mut rest = context;
    let mut left = variable;
    loop {
        match rest {
            Context::Outside(numbers) => return numbers.get(left as usize).copied(),
            Context::Under(number, outer) => {
                if left == 0 {
                    return Some(*number);
                }
                left -= 1;
                rest = outer;
            }
        }
    }
}

/// The context of a premise, from the conclusions of the premises before it.
pub fn under<'a>(
    alloc: Global,
    table: &mut TypeTable,
    context: &'a Context<'a>,
    binds: Binds<'_>,
    done: &[usize],
) -> Result<Context<'a>, OutOfMemory>
    requires context { AreIn table.old (numbers context.now) }
    requires done { AreIn table.old done.now }
    ensures shown { IfOk result (λ made. all_shown table.new (numbers made)
        ≡ under (plain_binder binds.entry) (all_shown table.old done.now) (all_shown table.old (numbers context.now))) }
    ensures within { IfOk result (λ made. AreIn table.new (numbers made)) }
    ensures extends { OnOk result (Extends table.old table.new) }
{
    match binds {
        Binds::Nothing => Ok(*context),
        Binds::First => match done.first() {
            Some(number) => Ok(Context::Under(*number, context)),
            None => Ok(*context),
        },
        Binds::Given(given) => {
            let number = number_of_given(alloc, table, given)?;
            Ok(Context::Under(number, context))
        }
    }
}
