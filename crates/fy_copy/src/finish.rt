//! A finished command meets the newest context, and jumps.

ghost use Rattle.std.specs.Prelude.{◌≡◌, []};
ghost use Rattle.fy_phrase.specs.Reads.{reads};
ghost use Rattle.fy_phrase.specs.Copy.{answered, goes, jumped, skip_meets};
ghost use Rattle.fy_copy.specs.Shown.{context_of, state_of};
ghost use Rattle.fy_copy.specs.Moves.{Moved};

use crate::context::{Context, Core, Frame};
use crate::progress::Turn;
use crate::store::drop_row;
use crate::words::set_focus;
use fy_base::Place;
use fy_phrase::Phrase;

fn go_on(core: &mut Core, base: u64, focus: Phrase) -> Turn
    ensures { Moved result (goes (record (state_of core.old) { focus = reads focus; load = base })) (state_of core.new) }
{
    core.load = base;
    set_focus(core, focus);
    Turn::Going
}

fn meet(here: Place, frame: Frame, core: &mut Core) -> Turn
    ensures { Moved result (skip_meets here (context_of frame.context) (record (state_of core.old) { load = frame.base })) (state_of core.new) }
{
    let Frame { base, context } = frame;
    match context {
        Context::Then(q) => go_on(core, base, q),
        Context::Body(whole) => go_on(core, base, whole),
        Context::Loop(whole) => go_on(core, base, whole),
        Context::Drop(n) => {
            drop_row(&mut core.store, n);
            go_on(core, base, Phrase::Skip(here))
        }
        Context::Escape(_) => go_on(core, base, Phrase::Skip(here)),
        _ => Turn::Stuck,
    }
}

/// A finished command meets the newest context, which is taken off.
#[tactic(auto, using(crate::proofs::Stacks::stacks))]
pub fn finish(here: Place, core: &mut Core) -> Turn
    ensures { Moved result (answered (skip_meets here) (state_of core.old).contexts (state_of core.old)) (state_of core.new) }
{
    match core.contexts.pop() {
        None => Turn::Stuck,
        Some(frame) => meet(here, frame, core),
    }
}

/// Takes off all contexts to that of the jump and it too, with the rows of those that are dropped.
#[tactic(auto, using(crate::proofs::Stacks::stacks))]
pub fn jump(n: u64, here: Place, core: &mut Core) -> Turn
    ensures { Moved result (jumped n here (state_of core.old).contexts (state_of core.old)) (state_of core.new) }
{
    while let Some(frame) = core.contexts.pop() {
        let Frame { base, context } = frame;
        match context {
            Context::Escape(m) => {
                if m == n {
                    return go_on(core, base, Phrase::Skip(here));
                }
            }
            Context::Drop(m) => drop_row(&mut core.store, m),
            _ => {}
        }
    }
    Turn::Stuck
}
