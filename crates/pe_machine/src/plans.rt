//! Plans: what stays of the stacks, and what a step comes to then.

ghost use Rattle.std.specs.Prelude.{◌≡◌, ◌-◌, ◌<◌, [], length, IfSome, MatchOption};
ghost use Rattle.pe_machine.specs.Step.{answered, completion_meets, datum_focused, is_target, jumped, taken};
ghost use Rattle.pe_machine.specs.Shown.{context_of};
ghost use Rattle.pe_machine.specs.Names.{IsPlacedContext, IsPlacedDemand, IsPlacedTurn};
ghost use Rattle.pe_machine.specs.Places.{IsHeldAt};
ghost use Rattle.pe_machine.specs.Turns.{IsFair, demand_move, frames_of, plan_move, state_of, turn_move};

use crate::answers::{complete, meet_completion, meet_datum};
use crate::contexts::{Context, Held};
use crate::core_state::Core;
use crate::demands::meet_demand;
use crate::sequences::pick;
use crate::turns::{Demand, Kept, Plan, Turn};
use fy_base::Datum;
use pe_code::PeCode;

/// A step that cuts nothing.
pub fn stay(core: &Core, turn: Turn) -> Plan
    ensures moves { plan_move result (state_of core.now) ≡ turn_move turn (state_of core.now) }
    ensures fair { IsFair core.now.limit (state_of core.now) result.kept }
    ensures placed { IsPlacedTurn (frames_of core.now) turn → IsPlacedTurn (frames_of core.now) result.turn }
{
    let kept = Kept {
        contexts: core.contexts.len(),
        frames: core.frames.len(),
        load: core.load,
    };
    Plan { kept, turn }
}

/// The newest context.
pub fn newest(core: &Core) -> Option<Held>
    ensures held { MatchOption result ((state_of core.now).contexts ≡ []) (λ held. IsHeldAt held (length core.now.contexts.items - 1) core.now.contexts.items) }
    ensures placed { IfSome result (λ held. IsPlacedContext (frames_of core.now) held.context) }
{
    core.contexts.as_slice().last().copied()
}

/// What stays where the context at a place and those after it are taken off, with the load and the frames that it keeps.
pub fn kept_before(core: &Core, place: usize, held: Held) -> Kept
    requires { IsHeldAt held place core.now.contexts.items }
    ensures kept { result ≡ record { contexts = place; frames = held.frames; load = held.base } }
    ensures fair { IsFair core.now.limit (state_of core.now) result }
{
    Kept {
        contexts: place,
        frames: held.frames as usize,
        load: held.base,
    }
}

/// What stays where the newest context alone is taken off.
pub fn kept_taken(core: &Core) -> Kept
    requires { 0 < length core.now.contexts.items }
    ensures contexts { result.contexts ≡ length core.now.contexts.items - 1 }
    ensures frames { result.frames ≡ length core.now.frames.items }
    ensures load { result.load ≡ core.now.load }
    ensures fair { IsFair core.now.limit (state_of core.now) result }
{
    Kept {
        contexts: core.contexts.len() - 1,
        frames: core.frames.len(),
        load: core.load,
    }
}

/// A datum meets the newest context.
pub fn answer(code: &PeCode, v: Datum, core: &Core) -> Plan
    ensures moves { plan_move result (state_of core.now) ≡ datum_focused code.now v (state_of core.now).contexts (state_of core.now) }
    ensures fair { IsFair core.now.limit (state_of core.now) result.kept }
    ensures placed { IsPlacedTurn (frames_of core.now) result.turn }
{
    match newest(core) {
        None => stay(core, Turn::Stuck),
        Some(held) => match held.context {
            Context::Element(is_written, name) => pick(v, is_written, name, held, core),
            _ => Plan {
                kept: kept_before(core, core.contexts.len() - 1, held),
                turn: meet_datum(code, v, held.context),
            },
        },
    }
}

/// A finished command meets the newest context.
pub fn finish(core: &Core) -> Plan
    ensures moves { plan_move result (state_of core.now) ≡ answered completion_meets (state_of core.now).contexts (state_of core.now) }
    ensures fair { IsFair core.now.limit (state_of core.now) result.kept }
    ensures placed { IsPlacedTurn (frames_of core.now) result.turn }
{
    match newest(core) {
        None => stay(core, Turn::Stuck),
        Some(held) => Plan {
            kept: kept_before(core, core.contexts.len() - 1, held),
            turn: meet_completion(held.context),
        },
    }
}

/// The newest context is asked, and taken off.
pub fn ask(demand: Demand, core: &Core) -> Plan
    requires { IsPlacedDemand (frames_of core.now) demand }
    ensures moves { plan_move result (state_of core.now) ≡ taken (demand_move demand) (state_of core.now).contexts (state_of core.now) }
    ensures fair { IsFair core.now.limit (state_of core.now) result.kept }
    ensures placed { IsPlacedTurn (frames_of core.now) result.turn }
{
    match newest(core) {
        None => stay(core, Turn::Stuck),
        Some(held) => Plan {
            kept: kept_taken(core),
            turn: meet_demand(demand, held.context, core),
        },
    }
}

// Whether a context is that of the jump.
fn is_target(n: u64, context: Context) -> bool
    ensures { result ≡ is_target n (context_of context) }
{
    match context {
        Context::Escape(m) => m == n,
        _ => false,
    }
}

/// A jump to the context of its number.
pub fn jump(n: u64, core: &Core) -> Plan
    ensures moves { plan_move result (state_of core.now) ≡ jumped n (state_of core.now).contexts (state_of core.now) }
    ensures fair { IsFair core.now.limit (state_of core.now) result.kept }
    ensures placed { IsPlacedTurn (frames_of core.now) result.turn }
{
    for place in (0..core.contexts.len()).rev() {
        let held = core.contexts[place];
        if is_target(n, held.context) {
            return Plan {
                kept: kept_before(core, place, held),
                turn: complete(),
            };
        }
    }
    stay(core, Turn::Stuck)
}
