//! Steps of the copy rule, from the outside.

ghost use Rattle.std.specs.Prelude.{◌≡◌, ℕ, ◌≤◌, ◌<◌, ◌^◌, true, false, vec_len, vec_capacity, IfOk, OnErr, OnOk, if◌then◌else◌};
ghost use Rattle.fy_phrase.specs.Reads.{reads};
ghost use Rattle.fy_phrase.specs.Sizes.{depth, fits};
ghost use Rattle.fy_phrase.specs.Copy.{byte_or_end, copy_step, ended, going, standing_of, takes};
ghost use Rattle.fy_phrase.specs.Copy.{start as start_of};
ghost use Rattle.fy_copy.specs.Enters.{Asks};
ghost use Rattle.fy_copy.specs.Kept.{IsKept};
ghost use Rattle.fy_copy.specs.Moves.{given};
ghost use Rattle.fy_copy.specs.Shown.{state_of};
ghost use Rattle.fy_copy.specs.Seen.{IsStart, Stepped, seen, went_on_with};

use crate::advance::advance;
use crate::context::{Context, Core};
use crate::progress::{Progress, Turn};
use crate::sizes::is_held;
use crate::state::{CopyState, Phase};
use crate::words::{push_context, set_focus, take};
use fy_base::{Datum, OutOfMemory};
use fy_phrase::{Phrase, copy_phrase};
use std::alloc::Global;

// Whether a finished command is in focus without a context.
fn is_at_end(core: &Core) -> bool
    ensures { standing_of (state_of core.now) ≡ (if result then ended else going) }
{
    match &core.focus {
        Phrase::Skip(_) => core.contexts.is_empty(),
        _ => false,
    }
}

fn is_asking(core: &Core) -> bool
    ensures asks { result ≡ true → Asks (reads core.now.focus) }
    ensures silent { result ≡ false → Asks (reads core.now.focus) → ⊥ }
{
    match &core.focus {
        Phrase::Read(..) => true,
        _ => false,
    }
}

// Goes on to the acceptor, for which a byte is wanted, and answers whether it is within the limit.
fn ask(core: &mut Core) -> Result<bool, OutOfMemory>
    requires { Asks (reads core.old.focus) }
    ensures asks { OnOk result (copy_step (state_of core.old) ≡ takes (given (state_of core.new))) }
    ensures held { IfOk result (λ held. held ≡ fits (reads core.new.focus)) }
    ensures room { OnOk result (vec_len core.new.contexts < vec_capacity core.new.contexts) }
    ensures kept { (n : ℕ) → IsKept n (state_of core.old) → IsKept n (state_of core.new) }
    ensures err { OnErr result (state_of core.new ≡ state_of core.old) }
{
    core.contexts.reserve(1)?;
    match &mut core.focus {
        Phrase::Read(p, _) => {
            let p = take(p);
            set_focus(core, p);
        }
        _ => unreachable!(),
    }
    Ok(is_held(&core.focus))
}

/// The state in which a phrase is in focus, and nothing else. The phrase is meant to be closed: a
/// free variable in focus is stuck. No binder of it is deeper than 1,023.
pub fn start(alloc: Global, p: &Phrase) -> Result<CopyState, OutOfMemory>
    requires { depth (reads p.now) ≤ 1023 }
    ensures { IfOk result (λ state. IsStart (seen state) (start_of (reads p.now))) }
{
    let focus = copy_phrase(alloc, p)?;
    let core = Core {
        focus,
        contexts: Vec::new(alloc),
        store: Vec::new(alloc),
        next: 0,
        load: 0,
    };
    Ok(CopyState {
        core,
        steps: 0,
        phase: Phase::Going,
    })
}

// Goes on to the acceptor, and waits for a byte.
fn step_to_input(state: &mut CopyState) -> Result<Progress, OutOfMemory>
    requires going { (seen state.old).phase ≡ Phase.Going }
    requires few { (seen state.old).steps < 2 ^ 48 }
    requires standing { standing_of (seen state.old).state ≡ going }
    requires asks { Asks (seen state.old).state.focus }
    ensures did { IfOk result (λ progress. Stepped progress (seen state.old) (seen state.new)) }
    ensures err { OnErr result (seen state.new ≡ seen state.old) }
{
    if ask(&mut state.core)? {
        state.phase = Phase::Waiting;
        return Ok(Progress::WantByte);
    }
    state.phase = Phase::Over;
    Ok(Progress::TooBig)
}

// Makes a step that asks for no input. The new focus is measured whatever the step was.
fn step_on(alloc: Global, state: &mut CopyState) -> Result<Progress, OutOfMemory>
    requires going { (seen state.old).phase ≡ Phase.Going }
    requires few { (seen state.old).steps < 2 ^ 48 }
    requires standing { standing_of (seen state.old).state ≡ going }
    requires no_input { Asks (seen state.old).state.focus → ⊥ }
    ensures did { IfOk result (λ progress. Stepped progress (seen state.old) (seen state.new)) }
    ensures err { OnErr result (seen state.new ≡ seen state.old) }
{
    match advance(alloc, &mut state.core)? {
        Turn::Going => {
            if is_held(&state.core.focus) {
                state.steps += 1;
                return Ok(Progress::Going);
            }
            state.phase = Phase::Over;
            Ok(Progress::TooBig)
        }
        Turn::Put(text) => {
            if is_held(&state.core.focus) {
                state.steps += 1;
                return Ok(Progress::Put(text));
            }
            state.phase = Phase::Over;
            Ok(Progress::TooBig)
        }
        Turn::Fault { kind, place } => {
            state.steps += 1;
            state.phase = Phase::Over;
            Ok(Progress::Fault { kind, place })
        }
        Turn::Stuck => {
            state.steps += 1;
            state.phase = Phase::Over;
            Ok(Progress::Stuck)
        }
        Turn::TooBig => {
            state.phase = Phase::Over;
            Ok(Progress::TooBig)
        }
    }
}

/// Makes one step of the copy rule. The state must go on, after fewer than 2^48 steps.
///
/// `Ended` comes exactly where the state is at its end, and `TooBig` exactly where the next focus
/// would pass the limit on held phrases; then no step is made. `WantByte` leaves the state waiting
/// for `give`. After `Ended`, `Fault`, `Stuck` or `TooBig` the state is over.
///
/// # Errors
///
/// After want of memory the state is unchanged.
pub fn step(alloc: Global, state: &mut CopyState) -> Result<Progress, OutOfMemory>
    requires going { (seen state.old).phase ≡ Phase.Going }
    requires few { (seen state.old).steps < 2 ^ 48 }
    ensures did { IfOk result (λ progress. Stepped progress (seen state.old) (seen state.new)) }
    ensures err { OnErr result (seen state.new ≡ seen state.old) }
{
    if is_at_end(&state.core) {
        state.phase = Phase::Over;
        return Ok(Progress::Ended);
    }
    if is_asking(&state.core) {
        return step_to_input(state);
    }
    step_on(alloc, state)
}

/// Completes the step of a state that waits for a byte; `None` is the end of input, which the phrase
/// sees as -1.
pub fn give(state: &mut CopyState, byte: Option<u8>)
    requires { (seen state.old).phase ≡ Phase.Waiting }
    ensures { seen state.new ≡ went_on_with byte (seen state.old) }
{
    let datum = match byte {
        Some(byte) => Datum::Int(i64::from(byte)),
        None => Datum::Int(-1),
    };
    push_context(&mut state.core, Context::Store(datum));
    state.steps += 1;
    state.phase = Phase::Going;
}

/// Whether a state is at its end.
pub fn is_over(state: &CopyState) -> bool
    ensures { standing_of (seen state.now).state ≡ (if result then ended else going) }
{
    is_at_end(&state.core)
}

/// The load of a state.
pub fn load_of(state: &CopyState) -> u64
    ensures { result ≡ (seen state.now).state.load }
{
    state.core.load
}
