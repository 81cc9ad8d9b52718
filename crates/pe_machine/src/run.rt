//! Runs of the machine over a source and a sink.

ghost use Rattle.std.specs.Prelude.{◌≡◌, ◌≢◌, ◌≤◌, ◌<◌, ◌^◌, IsTrue, IfOk, IfSome, OnErr, Some, None, Ok};
ghost use Rattle.std.specs.Option.{option_map};
ghost use Rattle.fy_base.specs.Outside.{IsAtEnd, Rose};
ghost use Rattle.fy_runs.specs.Exchange.{Exchange};
ghost use Rattle.pe_machine.specs.Ends.{IsPeEnd, DoesPart, RunsTo, close_of, count_of, word_machine};
ghost use Rattle.pe_machine.specs.Seen.{IsFurther, seen};

use crate::events::{PeEvent, Phase};
use crate::machine::PeState;
use fy_base::{Ending, Failed, OutOfMemory, Sink, Source, next_byte, put_text};
use pe_code::PeCode;
use std::alloc::Global;

// Makes one step with its input and output: how the run ended by it, or `None` where it goes on.
fn turn<I: Source, O: Sink>(
    alloc: Global,
    code: &PeCode,
    state: &mut PeState,
    input: &mut I,
    output: &mut O,
    over: &mut bool,
) -> Result<Option<Ending>, OutOfMemory>
    requires going { (seen state.old).phase ≡ Phase.Going }
    requires few { (seen state.old).steps < 2 ^ 48 }
    requires at_end { IsTrue over.old → IsAtEnd (I.left input.old) }
    ensures did { IfOk result (λ end. Exchange (word_machine code.now (seen state.old).limit) (seen state.old).state (seen state.new).state
        (record { left = I.left input.old; over = over.old; held = O.held output.old }) (record { left = I.left input.new; over = over.new; held = O.held output.new }) (count_of end) (option_map close_of end)) }
    ensures further { IfOk result (λ end. end ≡ None → IsFurther (seen state.old) (seen state.new)) }
    ensures unread { OnErr result (I.left input.new ≡ I.left input.old) }
    ensures unwritten { OnErr result (O.held output.new ≡ O.held output.old) }
    ensures end { IfOk result (λ end. IfSome end IsPeEnd) }
    ensures input_fault { IfOk result (λ end. end ≡ Some Ending.InputFault → Rose (I.faults input.old) (I.faults input.new)) }
    ensures output_fault { IfOk result (λ end. end ≡ Some Ending.OutputFault → Rose (O.faults output.old) (O.faults output.new)) }
    ensures input_later { I.faults input.old ≤ I.faults input.new }
    ensures output_later { O.faults output.old ≤ O.faults output.new }
    ensures input_quiet { result ≢ Ok (Some Ending.InputFault) → I.faults input.new ≡ I.faults input.old }
    ensures output_quiet { result ≢ Ok (Some Ending.OutputFault) → O.faults output.new ≡ O.faults output.old }
{
    match state.step(code) {
        PeEvent::Going => Ok(None),
        PeEvent::Put(kind, v) => match put_text(alloc, kind, v)? {
            Some(text) => match output.put(text.as_slice()) {
                Ok(()) => Ok(None),
                Err(Failed) => Ok(Some(Ending::OutputFault)),
            },
            None => unreachable!(),
        },
        PeEvent::WantByte => match next_byte(input, over) {
            Ok(byte) => {
                state.give(byte);
                Ok(None)
            }
            Err(Failed) => Ok(Some(Ending::InputFault)),
        },
        PeEvent::Ended => Ok(Some(Ending::Ended)),
        PeEvent::Fault { kind, place } => Ok(Some(Ending::Fault { kind, place })),
        PeEvent::Exhausted => Ok(Some(Ending::Exhausted)),
        PeEvent::Gone => Ok(Some(Ending::Gone)),
        PeEvent::Stuck => Ok(Some(Ending::Stuck)),
    }
}

/// Runs a code on the machine for at most `steps` steps, which are at most 1,000,000,000,000, with `stack_words`
/// words for its load. It takes one byte of input at a time, and asks for no more after the end of input.
///
/// The end is `Ended`, `Fault`, `Stuck` or `Gone` exactly as the machine's run says, `Exhausted` exactly where the
/// next load, of a step that is still allowed, would pass the words, and `Spent` exactly where the run still goes
/// on after `steps` steps. `InputFault` and `OutputFault` come only where that object's count of faults rose in this call;
/// then the last step reads, or puts. At every other end, and after want of memory, that count is as before. The end is
/// never `TooBig` or `Trap`.
///
/// # Errors
///
/// `OutOfMemory` comes before the first step, or from the text of a put. What was put and what was taken is what the
/// steps before that put and took, so a beginning of what is due.
pub fn run_pe<I: Source, O: Sink>(
    alloc: Global,
    code: &PeCode,
    stack_words: u32,
    input: &mut I,
    output: &mut O,
    steps: u64,
) -> Result<Ending, OutOfMemory>
    requires { steps ≤ 1000000000000 }
    ensures did { IfOk result (λ end. RunsTo code.now stack_words steps end (I.left input.old) (I.left input.new) (O.held output.old) (O.held output.new)) }
    ensures memory { OnErr result (DoesPart code.now stack_words steps (I.left input.old) (I.left input.new) (O.held output.old) (O.held output.new)) }
    ensures end { IfOk result IsPeEnd }
    ensures input_fault { IfOk result (λ end. end ≡ Ending.InputFault → Rose (I.faults input.old) (I.faults input.new)) }
    ensures output_fault { IfOk result (λ end. end ≡ Ending.OutputFault → Rose (O.faults output.old) (O.faults output.new)) }
    ensures input_later { I.faults input.old ≤ I.faults input.new }
    ensures output_later { O.faults output.old ≤ O.faults output.new }
    ensures input_quiet { IfOk result (λ end. end ≢ Ending.InputFault → I.faults input.new ≡ I.faults input.old) }
    ensures output_quiet { IfOk result (λ end. end ≢ Ending.OutputFault → O.faults output.new ≡ O.faults output.old) }
    ensures memory_quiet { OnErr result ((I.faults input.new ≡ I.faults input.old) × (O.faults output.new ≡ O.faults output.old)) }
{
    let mut state = PeState::load(alloc, code, stack_words)?;
    let mut over = false;
    for k in 0..steps {
        if let Some(end) = turn(alloc, code, &mut state, input, output, &mut over)? {
            return Ok(end);
        }
    }
    if state.is_over() {
        return Ok(Ending::Ended);
    }
    Ok(Ending::Spent)
}
