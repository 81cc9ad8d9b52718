//! Why reading stopped.

ghost use Rattle.std.specs.Prelude.{◌≡◌};
ghost use Rattle.fy_grammar.specs.declared.stop.Stop.TheVariants.{OutOfMemory};

use fy_base::OutOfMemory;
use fy_lexer::Token;

// Why nothing was read: the tokens from the one that can't follow, or that would nest too deep.
#[derive(Clone, Copy, Debug)]
pub(crate) enum Stop<'a> {
    Wrong(&'a [Token]),
    Deep(&'a [Token]),
    OutOfMemory,
}

impl<'a> From<OutOfMemory> for Stop<'a> {
    ghost from_gives = { λ _ e. e ≡ OutOfMemory };

    fn from(_error: OutOfMemory) -> Stop<'a> {
        Stop::OutOfMemory
    }
}
