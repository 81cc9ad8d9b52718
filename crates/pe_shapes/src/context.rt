//! The shapes of the variables in scope.

ghost use Rattle.std.specs.Prelude.{◌≡◌, slice_get, map};
ghost use Rattle.std.specs.Option.{option_map};
ghost use Rattle.pe_shapes.specs.Contexts.{bounds, plain_bound, bounds_under, numbers_of};

use fy_phrase::{Binds, Given};

/// What is known of a variable's type: its shapes, or the type.
#[derive(Clone, Copy, Drop)]
pub enum Bound<'a> {
    Shapes(&'a [usize]),
    Given(Given<'a>),
}

/// What is known of the variables in scope, the innermost first.
#[derive(Clone, Copy, Drop)]
pub enum Context<'a> {
    Empty,
    Under(Bound<'a>, &'a Context<'a>),
}

/// What is known of a variable, if it is in scope.
pub fn bound_at<'a>(context: &Context<'a>, variable: u32) -> Option<Bound<'a>>
    ensures { option_map plain_bound result ≡ slice_get (bounds context.now) variable }
{
    let mut rest = context;
    let mut left = variable;
    while let Context::Under(bound, outer) = rest {
        if left == 0 {
            return Some(*bound);
        }
        left -= 1;
        rest = outer;
    }
    None
}

/// The context of a premise, from the shapes of the premises before it.
pub fn under<'a>(context: &'a Context<'a>, binds: Binds<'a>, done: &'a [Vec<usize>]) -> Context<'a>
    ensures { bounds result ≡ bounds_under binds.entry (map numbers_of done.now) (bounds context.now) }
{
    match binds {
        Binds::Nothing => *context,
        Binds::First => match done.first() {
            Some(set) => Context::Under(Bound::Shapes(set.as_slice()), context),
            None => *context,
        },
        Binds::Given(given) => Context::Under(Bound::Given(given), context),
    }
}
