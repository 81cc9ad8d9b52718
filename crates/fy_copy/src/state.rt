//! The state of the copy rule, with the number of its steps.

ghost use Rattle.std.specs.Prelude.{◌≡◌, ◌<◌, ◌^◌, vec_len, vec_capacity};
ghost use Rattle.fy_copy.specs.declared.state.Phase.{Phase};
ghost use Rattle.fy_copy.specs.Kept.{IsKept};
ghost use Rattle.fy_copy.specs.Shown.{state_of};

use crate::context::Core;

/// Whether a state goes on, waits for a byte or is over.
#[derive(Clone, Copy, PartialEq, Eq, Debug)]
pub enum Phase {
    Going,
    Waiting,
    Over,
}

/// A state of the copy rule: a phrase in focus, what waits for it, the store, the load, and the
/// number of steps that were made.
#[derive(Debug, Drop)]
pub struct CopyState {
    pub(crate) core: Core,
    pub(crate) steps: u64,
    pub(crate) phase: Phase,
    ghost kept: { (phase ≡ Phase.Over → ⊥) → IsKept steps (state_of core) },
    ghost room: { phase ≡ Phase.Waiting → vec_len core.contexts < vec_capacity core.contexts },
    ghost few: { phase ≡ Phase.Waiting → steps < 2 ^ 48 },
}
