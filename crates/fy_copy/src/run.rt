//! Runs of the copy rule over a source and a sink.

ghost use Rattle.std.specs.Prelude.{◌≡◌, ◌≢◌, ◌≤◌, ◌<◌, ◌^◌, IsTrue, IfOk, IfSome, OnErr, Some, None, Ok};
ghost use Rattle.std.specs.Option.{option_map};
ghost use Rattle.fy_base.specs.Outside.{IsAtEnd, Rose};
ghost use Rattle.fy_phrase.specs.Reads.{reads};
ghost use Rattle.fy_phrase.specs.Sizes.{depth};
ghost use Rattle.fy_runs.specs.Exchange.{Exchange};
ghost use Rattle.fy_copy.specs.Ends.{IsCopyEnd, DoesPart, RunsTo, close_of, count_of, held_machine, run_at_end};
ghost use Rattle.fy_copy.specs.Seen.{IsFurther, seen};

use crate::copier::{give, is_over, load_of, start, step};
use crate::progress::Progress;
use crate::state::{CopyState, Phase};
use fy_base::{Ending, Failed, OutOfMemory, Sink, Source, next_byte};
use fy_phrase::Phrase;
use std::alloc::Global;

/// How a run ended, how many steps were made, and the greatest load among the states. The last step
/// counts, also where it faulted or was stuck, or where its read or its put failed.
#[derive(Clone, Copy, PartialEq, Eq, Debug)]
pub struct CopyRun {
    pub end: Ending,
    pub steps: u64,
    pub peak: u64,
}

// Makes one step with its input and output: how the run ended by it, or `None` where it goes on.
fn turn<I: Source, O: Sink>(
    alloc: Global,
    state: &mut CopyState,
    input: &mut I,
    output: &mut O,
    over: &mut bool,
) -> Result<Option<Ending>, OutOfMemory>
    requires going { (seen state.old).phase ≡ Phase.Going }
    requires few { (seen state.old).steps < 2 ^ 48 }
    requires at_end { IsTrue over.old → IsAtEnd (I.left input.old) }
    ensures did { IfOk result (λ end. Exchange held_machine (seen state.old).state (seen state.new).state
        (record { left = I.left input.old; over = over.old; held = O.held output.old }) (record { left = I.left input.new; over = over.new; held = O.held output.new }) (count_of end) (option_map close_of end)) }
    ensures further { IfOk result (λ end. end ≡ None → IsFurther (seen state.old) (seen state.new)) }
    ensures unread { OnErr result (I.left input.new ≡ I.left input.old) }
    ensures unwritten { OnErr result (O.held output.new ≡ O.held output.old) }
    ensures end { IfOk result (λ end. IfSome end IsCopyEnd) }
    ensures input_fault { IfOk result (λ end. end ≡ Some Ending.InputFault → Rose (I.faults input.old) (I.faults input.new)) }
    ensures output_fault { IfOk result (λ end. end ≡ Some Ending.OutputFault → Rose (O.faults output.old) (O.faults output.new)) }
    ensures input_later { I.faults input.old ≤ I.faults input.new }
    ensures output_later { O.faults output.old ≤ O.faults output.new }
    ensures input_quiet { result ≢ Ok (Some Ending.InputFault) → I.faults input.new ≡ I.faults input.old }
    ensures output_quiet { result ≢ Ok (Some Ending.OutputFault) → O.faults output.new ≡ O.faults output.old }
{
    match step(alloc, state)? {
        Progress::Going => Ok(None),
        Progress::Put(text) => match output.put(text.as_slice()) {
            Ok(()) => Ok(None),
            Err(Failed) => Ok(Some(Ending::OutputFault)),
        },
        Progress::WantByte => match next_byte(input, over) {
            Ok(byte) => {
                give(state, byte);
                Ok(None)
            }
            Err(Failed) => Ok(Some(Ending::InputFault)),
        },
        Progress::Ended => Ok(Some(Ending::Ended)),
        Progress::Fault { kind, place } => Ok(Some(Ending::Fault { kind, place })),
        Progress::Stuck => Ok(Some(Ending::Stuck)),
        Progress::TooBig => Ok(Some(Ending::TooBig)),
    }
}

// The run that ended in its step number `k + 1`, or before it.
fn run_ended(end: Ending, k: u64, peak: u64, load: u64) -> CopyRun
    requires { k < 2 ^ 48 }
    ensures { result ≡ run_at_end end k peak load }
{
    match end {
        Ending::Ended | Ending::TooBig => CopyRun {
            end,
            steps: k,
            peak,
        },
        Ending::OutputFault => CopyRun {
            end,
            steps: k + 1,
            peak: peak.max(load),
        },
        _ => CopyRun {
            end,
            steps: k + 1,
            peak,
        },
    }
}

/// Runs a phrase by the copy rule for at most `steps` steps, which are at most 1,000,000,000,000. It
/// takes one byte of input at a time, and asks for no more after the end of input. The phrase is
/// meant to be closed, and no binder of it is deeper than 1,023.
///
/// The end is `Ended`, `Fault` or `Stuck` exactly as the copy rule says, `TooBig` exactly where the
/// next focus, of a step that is still allowed, would have more than 1,048,576 nodes or nest more than
/// 2,048, and `Spent` exactly where the run still goes on after `steps` steps. `InputFault` and `OutputFault` come only where that
/// object's count of faults rose in this call; then the last step reads, or puts. At every other end,
/// and after want of memory, that count is as before. The end is never `Exhausted`, `Gone` or `Trap`.
///
/// # Errors
///
/// After want of memory what was put and what was taken is what the steps that were made put and
/// took, so a beginning of what is due.
pub fn run_copy<I: Source, O: Sink>(
    alloc: Global,
    p: &Phrase,
    input: &mut I,
    output: &mut O,
    steps: u64,
) -> Result<CopyRun, OutOfMemory>
    requires depth { depth (reads p.now) ≤ 1023 }
    requires steps { steps ≤ 1000000000000 }
    ensures steps { IfOk result (λ done. done.steps ≤ steps) }
    ensures did { IfOk result (λ done. RunsTo (reads p.now) steps done (I.left input.old) (I.left input.new) (O.held output.old) (O.held output.new)) }
    ensures memory { OnErr result (DoesPart (reads p.now) steps (I.left input.old) (I.left input.new) (O.held output.old) (O.held output.new)) }
    ensures end { IfOk result (λ done. IsCopyEnd done.end) }
    ensures input_fault { IfOk result (λ done. done.end ≡ Ending.InputFault → Rose (I.faults input.old) (I.faults input.new)) }
    ensures output_fault { IfOk result (λ done. done.end ≡ Ending.OutputFault → Rose (O.faults output.old) (O.faults output.new)) }
    ensures input_later { I.faults input.old ≤ I.faults input.new }
    ensures output_later { O.faults output.old ≤ O.faults output.new }
    ensures input_quiet { IfOk result (λ done. done.end ≢ Ending.InputFault → I.faults input.new ≡ I.faults input.old) }
    ensures output_quiet { IfOk result (λ done. done.end ≢ Ending.OutputFault → O.faults output.new ≡ O.faults output.old) }
    ensures memory_quiet { OnErr result ((I.faults input.new ≡ I.faults input.old) × (O.faults output.new ≡ O.faults output.old)) }
{
    let mut state = start(alloc, p)?;
    let mut over = false;
    let mut peak = 0;
    for k in 0..steps {
        if let Some(end) = turn(alloc, &mut state, input, output, &mut over)? {
            return Ok(run_ended(end, k, peak, load_of(&state)));
        }
        peak = peak.max(load_of(&state));
    }
    if is_over(&state) {
        return Ok(CopyRun {
            end: Ending::Ended,
            steps,
            peak,
        });
    }
    Ok(CopyRun {
        end: Ending::Spent,
        steps,
        peak,
    })
}
