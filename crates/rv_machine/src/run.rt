//! Runs of the machine over a source and a sink.

ghost use Rattle.std.specs.Prelude.{◌≡◌, ◌≢◌, ◌≤◌, IsTrue, IfSome, None, length};
ghost use Rattle.fy_base.specs.Outside.{IsAtEnd, Rose};
ghost use Rattle.rv_machine.specs.Ends.{IsMachineEnd, RunsTo, Watched, status_at, status_by};
ghost use Rattle.rv_insn.specs.Step.{Core, instruction_step, status_after};
ghost use Rattle.rv_machine.specs.Turn.{Turned, put_count};
ghost use Rattle.rv_insn.specs.declared.events.Status.TheVariants.{Running};

use crate::machine::Machine;
use crate::watch::{Unwatched, Watch};
use fy_base::{Ending, Failed, Sink, Source, next_byte};
use rv_insn::Event;

/// How a run ended, how many instructions were executed, and how many bytes were put, which isn't
/// told where a put failed. The last instruction counts, also where it trapped, or where its read
/// or its put failed.
#[derive(Clone, Copy, PartialEq, Eq, Debug)]
pub struct MachineRun {
    pub end: Ending,
    pub steps: u64,
    pub bytes: u64,
}

// The input or output of the instruction that led to an event: how the run ended by it, or `None`
// where it goes on.
fn exchange<I: Source, O: Sink>(
    m: &mut Machine,
    event: Event,
    input: &mut I,
    output: &mut O,
    over: &mut bool,
) -> Option<Ending>
    requires status { m.old.core.status ≡ status_after event }
    requires at_end { IsTrue over.old → IsAtEnd (I.left input.old) }
    ensures program { m.new.program ≡ m.old.program }
    ensures status { m.new.core.status ≡ status_by result }
    ensures did { (last : Core) → instruction_step m.old.program last ≡ record { event = event; core = m.old.core } → Turned result m.old.program last m.new.core (I.left input.old) (I.left input.new) over.old over.new (O.held output.old) (O.held output.new) }
    ensures same { event ≡ Event.Going → (result ≡ None) × (m.new.core ≡ m.old.core) × (I.left input.new ≡ I.left input.old) × (over.new ≡ over.old) × (O.held output.new ≡ O.held output.old) }
    ensures end { IfSome result IsMachineEnd }
    ensures spent { result ≡ Some Ending.Spent → ⊥ }
    ensures input_fault { result ≡ Some Ending.InputFault → Rose (I.faults input.old) (I.faults input.new) }
    ensures output_fault { result ≡ Some Ending.OutputFault → Rose (O.faults output.old) (O.faults output.new) }
    ensures input_later { I.faults input.old ≤ I.faults input.new }
    ensures output_later { O.faults output.old ≤ O.faults output.new }
    ensures input_quiet { result ≢ Some Ending.InputFault → I.faults input.new ≡ I.faults input.old }
    ensures output_quiet { result ≢ Some Ending.OutputFault → O.faults output.new ≡ O.faults output.old }
{
    match event {
        Event::Going => None,
        Event::Put(byte) => match output.put(&[byte]) {
            Ok(()) => None,
            Err(Failed) => Some(Ending::OutputFault),
        },
        Event::WantByte => match next_byte(input, over) {
            Ok(byte) => {
                m.give(byte);
                None
            }
            Err(Failed) => Some(Ending::InputFault),
        },
        Event::Ended => Some(Ending::Ended),
        Event::Fault { kind, place } => Some(Ending::Fault { kind, place }),
        Event::Exhausted => Some(Ending::Exhausted),
        Event::Trap(kind) => Some(Ending::Trap(kind)),
    }
}

// How many bytes the instruction that led to an event puts.
fn put_count(event: Event) -> u64
    ensures count { result ≡ put_count event }
    ensures few { result ≤ 1 }
{
    match event {
        Event::Put(_) => 1,
        _ => 0,
    }
}

/// Runs the machine for at most `steps` instructions, and tells the watch of each word that is
/// fetched. It takes one byte of input at a time and puts one byte of output at a time. After the
/// end of input it asks for no more. The machine must be running.
///
/// The end is `Ended`, `Fault`, `Exhausted` or `Trap` exactly as the machine's run says, and
/// `Spent` exactly where that still goes on after `steps` instructions. `InputFault` and
/// `OutputFault` come only where that object's count of faults rose in this call; then the last
/// instruction reads, or puts. At every other end that count is as before. The end is never `TooBig`,
/// `Stuck` or `Gone`.
pub fn run_watched<I: Source, O: Sink, W: Watch>(
    m: &mut Machine,
    input: &mut I,
    output: &mut O,
    watch: &mut W,
    steps: u64,
) -> MachineRun
    requires running { m.old.core.status ≡ Running }
    requires room { length (W.held watch.old) ≤ W.room watch.old }
    ensures program { m.new.program ≡ m.old.program }
    ensures steps { result.steps ≤ steps }
    ensures did { Watched m.old.program m.old.core steps result m.new.core (I.left input.old) (I.left input.new) (O.held output.old) (O.held output.new) (W.room watch.old) (W.held watch.old) (W.held watch.new) }
    ensures room { W.room watch.new ≡ W.room watch.old }
    ensures end { IsMachineEnd result.end }
    ensures spent { result.end ≡ Ending.Spent → result.steps ≡ steps }
    ensures status { m.new.core.status ≡ status_at result.end }
    ensures input_fault { result.end ≡ Ending.InputFault → Rose (I.faults input.old) (I.faults input.new) }
    ensures output_fault { result.end ≡ Ending.OutputFault → Rose (O.faults output.old) (O.faults output.new) }
    ensures input_later { I.faults input.old ≤ I.faults input.new }
    ensures output_later { O.faults output.old ≤ O.faults output.new }
    ensures input_quiet { result.end ≢ Ending.InputFault → I.faults input.new ≡ I.faults input.old }
    ensures output_quiet { result.end ≢ Ending.OutputFault → O.faults output.new ≡ O.faults output.old }
{
    let mut over = false;
    let mut done = 0;
    let mut bytes = 0;
    'turns: while done < steps {
        let row = m.stride(watch, steps - done);
        done += row.steps;
        if let Some(end) = exchange(m, row.event, input, output, &mut over) {
            let steps = done;
            return MachineRun { end, steps, bytes };
        }
        bytes += put_count(row.event);
    }
    let end = Ending::Spent;
    MachineRun { end, steps, bytes }
}

/// Runs the machine for at most `steps` instructions, as `run_watched` does, unwatched.
pub fn run_machine<I: Source, O: Sink>(
    m: &mut Machine,
    input: &mut I,
    output: &mut O,
    steps: u64,
) -> MachineRun
    requires { m.old.core.status ≡ Running }
    ensures program { m.new.program ≡ m.old.program }
    ensures steps { result.steps ≤ steps }
    ensures did { RunsTo m.old.program m.old.core steps result m.new.core (I.left input.old) (I.left input.new) (O.held output.old) (O.held output.new) }
    ensures end { IsMachineEnd result.end }
    ensures spent { result.end ≡ Ending.Spent → result.steps ≡ steps }
    ensures status { m.new.core.status ≡ status_at result.end }
    ensures input_fault { result.end ≡ Ending.InputFault → Rose (I.faults input.old) (I.faults input.new) }
    ensures output_fault { result.end ≡ Ending.OutputFault → Rose (O.faults output.old) (O.faults output.new) }
    ensures input_later { I.faults input.old ≤ I.faults input.new }
    ensures output_later { O.faults output.old ≤ O.faults output.new }
    ensures input_quiet { result.end ≢ Ending.InputFault → I.faults input.new ≡ I.faults input.old }
    ensures output_quiet { result.end ≢ Ending.OutputFault → O.faults output.new ≡ O.faults output.old }
{
    run_watched(m, input, output, &mut Unwatched, steps)
}
