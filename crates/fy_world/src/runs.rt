//! Runs of images and of phrases, and how they are told.

ghost use Rattle.std.specs.Prelude.{◌≡◌, ◌≢◌, ◌≤◌, ◌++◌, [], ◌∷◌, ◌⊎◌, Some, None, Err, OnOk, OnErr, IfOk, IfErr, map};
ghost use Rattle.std.specs.Option.{option_to_list};
ghost use Rattle.fy_base.specs.Outside.{GainedPart, appended};
ghost use Rattle.fy_build.specs.Shown.{RunEnd, ending_of_run};
ghost use Rattle.fy_derive.specs.Typing.{HasType};
ghost use Rattle.fy_phrase.specs.Reads.{reads};
ghost use Rattle.fy_phrase.specs.Sizes.{depth};
ghost use Rattle.fy_sample.specs.Sample.{summary};
ghost use Rattle.fy_types.specs.Types.{atom};
ghost use Rattle.fy_types.specs.declared.types.Atom.TheVariants.{Comm};
ghost use Rattle.rv_insn.specs.declared.events.Status.TheVariants.{Running};
ghost use Rattle.rv_insn.specs.Program.{Program, AreRead};
ghost use Rattle.fy_world.specs.Counted.{Counted};
ghost use Rattle.fy_world.specs.Note.{texts, ended_lines};
ghost use Rattle.fy_world.specs.Shown.{shown};
ghost use Rattle.fy_world.specs.Runs.{run_status, run_note, end_notes, CopyEnd, ending_of_copy, copy_status, copy_note, copy_notes};
ghost use Rattle.fy_world.specs.Steps.{StepEnd, ending_of_steps, step_status, step_note};
ghost use Rattle.fy_world.specs.Did.{IsOwn};
ghost use Rattle.fy_world.specs.Working.{IsUnbegun, AreFetched, TellsLines, HasRun, HasSampled, HasCopied, SumsUp};

use crate::note::Note;
use crate::shown::line_of;
use crate::telling::tell;
use crate::trace::Trace;
use crate::world::{Stop, World};
use fy_base::{Ending, OutOfMemory};
use fy_copy::CopyRun;
use fy_phrase::Phrase;
use fy_sample::summary;
use rv_machine::{Machine, MachineRun, Unwatched};
use std::alloc::Global;

/// The status that a run's end is told by.
pub(crate) fn status_of(end: Ending) -> u8
    ensures machine { (own : RunEnd) → end ≡ ending_of_run own → result ≡ run_status own }
    ensures copy { (own : CopyEnd) → end ≡ ending_of_copy own → result ≡ copy_status own }
    ensures steps { (own : StepEnd) → end ≡ ending_of_steps own → result ≡ step_status own }
    ensures own { IsOwn result }
{
    match end {
        Ending::Ended => 0,
        Ending::Fault { .. } => 1,
        Ending::Exhausted => 3,
        Ending::Trap(_) => 10,
        _ => 4,
    }
}

/// The note that a run's end is told by, if it has one.
pub(crate) fn note_of(end: Ending) -> Option<Note>
    ensures machine { (own : RunEnd) → end ≡ ending_of_run own → result ≡ run_note own }
    ensures copy { (own : CopyEnd) → end ≡ ending_of_copy own → result ≡ copy_note own }
    ensures steps { (own : StepEnd) → end ≡ ending_of_steps own → result ≡ step_note own }
{
    match end {
        Ending::Fault { kind, place } => Some(Note::Fault { kind, place }),
        Ending::Exhausted => Some(Note::StackExhausted),
        Ending::Spent => Some(Note::StepsSpent),
        Ending::TooBig => Some(Note::CopyLimit),
        Ending::Trap(kind) => Some(Note::Trapped(kind)),
        _ => None,
    }
}

// Tells how a run ended, by its note if it has one, and then what it counted.
fn tell_counted<W: World>(note: Option<Note>, count: Note, world: &mut W) -> Result<(), Stop>
    ensures told { OnOk result (W.holds world.new ≡ record (W.holds world.old) { notes = appended (W.holds world.old).notes (ended_lines (texts (option_to_list note ++ count ∷ []))) }) }
    ensures rest { W.holds world.new ≡ record (W.holds world.old) { notes = (W.holds world.new).notes } }
    ensures part { OnErr result (GainedPart (W.holds world.old).notes (W.holds world.new).notes (ended_lines (texts (option_to_list note ++ count ∷ [])))) }
    ensures stop { IfErr result (λ stop. stop ≡ Stop.Notes) }
    ensures counted { Counted [] [] (W.counts world.old) (W.counts world.new) result }
    ensures same { W.names world.new ≡ W.names world.old }
    ensures called { W.calls world.new ≡ W.calls world.old }
{
    match note {
        None => tell(&[count], world),
        Some(note) => tell(&[note, count], world),
    }
}

// Tells how a run ended.
fn tell_end<W: World>(run: MachineRun, world: &mut W) -> Result<(), Stop>
    ensures told { (own : RunEnd) → run.end ≡ ending_of_run own → OnOk result (W.holds world.new ≡ record (W.holds world.old) { notes = appended (W.holds world.old).notes (ended_lines (texts (end_notes own run.steps))) }) }
    ensures rest { W.holds world.new ≡ record (W.holds world.old) { notes = (W.holds world.new).notes } }
    ensures part { (own : RunEnd) → run.end ≡ ending_of_run own → OnErr result (GainedPart (W.holds world.old).notes (W.holds world.new).notes (ended_lines (texts (end_notes own run.steps)))) }
    ensures stop { IfErr result (λ stop. stop ≡ Stop.Notes) }
    ensures counted { Counted [] [] (W.counts world.old) (W.counts world.new) result }
    ensures same { W.names world.new ≡ W.names world.old }
    ensures called { W.calls world.new ≡ W.calls world.old }
{
    tell_counted(note_of(run.end), Note::Instructions(run.steps), world)
}

// Tells the last words that a run fetched.
fn tell_trace<W: World>(alloc: Global, mut trace: Trace, world: &mut W) -> Result<(), Stop>
    ensures told { (program : Program) → AreFetched program trace.words.items → TellsLines (map (shown program) trace.words.items) (W.holds world.old) (W.holds world.new) result }
    ensures rest { W.holds world.new ≡ record (W.holds world.old) { notes = (W.holds world.new).notes } }
    ensures counted { Counted [] [] (W.counts world.old) (W.counts world.new) result }
    ensures stop { IfErr result (λ stop. (stop ≡ Stop.Notes) ⊎ (stop ≡ Stop.Memory)) }
    ensures same { W.names world.new ≡ W.names world.old }
    ensures called { W.calls world.new ≡ W.calls world.old }
{
    while let Some(fetched) = trace.pop() {
        let line = match line_of(alloc, fetched) {
            Ok(line) => line,
            Err(OutOfMemory) => return Err(Stop::Memory),
        };
        if let Err(stop) = world.note(line.as_slice()) {
            return Err(stop);
        }
    }
    Ok(())
}

/// Runs a machine for at most so many instructions, and tells how it ended. It takes no memory.
pub fn run_machine<W: World>(machine: &mut Machine, steps: u64, world: &mut W) -> Result<u8, Stop>
    requires { machine.old.core.status ≡ Running }
    ensures run { HasRun machine.old.program machine.old.core steps None None (W.holds world.old) (W.holds world.new) result }
    ensures own { IfOk result IsOwn }
    ensures counted { Counted [] [] (W.counts world.old) (W.counts world.new) result }
    ensures memory { result ≢ Err Stop.Memory }
    ensures same { W.names world.new ≡ W.names world.old }
    ensures called { W.calls world.new ≡ W.calls world.old }
{
    let run = world.run(machine, &mut Unwatched, steps);
    match run.end {
        Ending::InputFault => Err(Stop::Input),
        Ending::OutputFault => Err(Stop::Output),
        _ => match tell_end(run, world) {
            Ok(()) => Ok(status_of(run.end)),
            Err(stop) => Err(stop),
        },
    }
}

// Puts the summary of a run to the output.
fn put_summary<W: World>(status: u8, bytes: u64, world: &mut W) -> Result<(), Stop>
    ensures put { OnOk result (W.holds world.new ≡ record (W.holds world.old) { output = appended (W.holds world.old).output (summary status bytes) }) }
    ensures rest { W.holds world.new ≡ record (W.holds world.old) { output = (W.holds world.new).output } }
    ensures part { OnErr result (GainedPart (W.holds world.old).output (W.holds world.new).output (summary status bytes)) }
    ensures stop { IfErr result (λ stop. stop ≡ Stop.Output) }
    ensures counted { Counted [] [] (W.counts world.old) (W.counts world.new) result }
    ensures same { W.names world.new ≡ W.names world.old }
    ensures called { W.calls world.new ≡ W.calls world.old }
{
    let text = summary(status, bytes);
    world.put(text.as_str().as_bytes())
}

// Writes the summary of a run, and then tells how it ended.
fn sum_up<W: World>(run: MachineRun, world: &mut W) -> Result<u8, Stop>
    ensures sums { (own : RunEnd) → run.end ≡ ending_of_run own → SumsUp run own (W.holds world.old) (W.holds world.new) result }
    ensures own { IfOk result IsOwn }
    ensures counted { Counted [] [] (W.counts world.old) (W.counts world.new) result }
    ensures memory { result ≢ Err Stop.Memory }
    ensures same { W.names world.new ≡ W.names world.old }
    ensures called { W.calls world.new ≡ W.calls world.old }
{
    let status = status_of(run.end);
    match put_summary(status, run.bytes, world) {
        Ok(()) => match tell_end(run, world) {
            Ok(()) => Ok(status),
            Err(stop) => Err(stop),
        },
        Err(stop) => Err(stop),
    }
}

/// Runs a machine as `run_machine` does, and before it tells how it ended it writes a summary behind the
/// output.
pub(crate) fn run_sampled<W: World>(
    machine: &mut Machine,
    steps: u64,
    world: &mut W,
) -> Result<u8, Stop>
    requires { machine.old.core.status ≡ Running }
    ensures run { HasSampled machine.old.program machine.old.core steps None (W.holds world.old) (W.holds world.new) result }
    ensures own { IfOk result IsOwn }
    ensures counted { Counted [] [] (W.counts world.old) (W.counts world.new) result }
    ensures memory { result ≢ Err Stop.Memory }
    ensures same { W.names world.new ≡ W.names world.old }
    ensures called { W.calls world.new ≡ W.calls world.old }
{
    let run = world.run(machine, &mut Unwatched, steps);
    match run.end {
        Ending::InputFault => Err(Stop::Input),
        Ending::OutputFault => Err(Stop::Output),
        _ => sum_up(run, world),
    }
}

// Tells the last words of a run, and how it ended.
fn tell_traced<W: World>(
    alloc: Global,
    trace: Trace,
    run: MachineRun,
    world: &mut W,
) -> Result<(), Stop>
    ensures told { (program : Program) (own : RunEnd) → AreFetched program trace.words.items → run.end ≡ ending_of_run own
        → TellsLines (map (shown program) trace.words.items ++ texts (end_notes own run.steps)) (W.holds world.old) (W.holds world.new) result }
    ensures rest { W.holds world.new ≡ record (W.holds world.old) { notes = (W.holds world.new).notes } }
    ensures counted { Counted [] [] (W.counts world.old) (W.counts world.new) result }
    ensures stop { IfErr result (λ stop. (stop ≡ Stop.Notes) ⊎ (stop ≡ Stop.Memory)) }
    ensures same { W.names world.new ≡ W.names world.old }
    ensures called { W.calls world.new ≡ W.calls world.old }
{
    match tell_trace(alloc, trace, world) {
        Ok(()) => tell_end(run, world),
        Err(stop) => Err(stop),
    }
}

/// Runs a machine as `run_machine` does, and tells the last words that it fetched before how it
/// ended, the oldest first.
pub fn run_traced<W: World>(
    alloc: Global,
    machine: &mut Machine,
    steps: u64,
    count: u32,
    world: &mut W,
) -> Result<u8, Stop>
    requires running { machine.old.core.status ≡ Running }
    requires read { AreRead machine.old.program.words machine.old.program.instructions }
    ensures run { IsUnbegun (W.holds world.old) (W.holds world.new) result
        ⊎ HasRun machine.old.program machine.old.core steps (Some count) None (W.holds world.old) (W.holds world.new) result }
    ensures own { IfOk result IsOwn }
    ensures counted { Counted [] [] (W.counts world.old) (W.counts world.new) result }
    ensures same { W.names world.new ≡ W.names world.old }
    ensures called { W.calls world.new ≡ W.calls world.old }
{
    let mut trace = match Trace::new(alloc, count) {
        Ok(trace) => trace,
        Err(OutOfMemory) => return Err(Stop::Memory),
    };
    let run = world.run(machine, &mut trace, steps);
    match run.end {
        Ending::InputFault => Err(Stop::Input),
        Ending::OutputFault => Err(Stop::Output),
        _ => match tell_traced(alloc, trace, run, world) {
            Ok(()) => Ok(status_of(run.end)),
            Err(stop) => Err(stop),
        },
    }
}

// Tells how a run of the copy rule ended.
fn tell_copy<W: World>(run: CopyRun, world: &mut W) -> Result<(), Stop>
    ensures told { (own : CopyEnd) → run.end ≡ ending_of_copy own
        → OnOk result (W.holds world.new ≡ record (W.holds world.old) { notes = appended (W.holds world.old).notes (ended_lines (texts (copy_notes own run.steps run.peak))) }) }
    ensures rest { W.holds world.new ≡ record (W.holds world.old) { notes = (W.holds world.new).notes } }
    ensures part { (own : CopyEnd) → run.end ≡ ending_of_copy own
        → OnErr result (GainedPart (W.holds world.old).notes (W.holds world.new).notes (ended_lines (texts (copy_notes own run.steps run.peak)))) }
    ensures stop { IfErr result (λ stop. stop ≡ Stop.Notes) }
    ensures counted { Counted [] [] (W.counts world.old) (W.counts world.new) result }
    ensures same { W.names world.new ≡ W.names world.old }
    ensures called { W.calls world.new ≡ W.calls world.old }
{
    let count = Note::Copied {
        steps: run.steps,
        peak: run.peak,
    };
    tell_counted(note_of(run.end), count, world)
}

/// Runs a command by the copy rule for at most so many steps, and tells how it ended.
pub fn run_copied<W: World>(
    alloc: Global,
    p: &Phrase,
    steps: u64,
    world: &mut W,
) -> Result<u8, Stop>
    requires depth { depth (reads p.now) ≤ 1023 }
    requires command { HasType [] (reads p.now) (atom Comm) }
    requires steps { steps ≤ 1000000000 }
    ensures run { HasCopied (reads p.now) steps (W.holds world.old) (W.holds world.new) result }
    ensures own { IfOk result IsOwn }
    ensures counted { Counted [] [] (W.counts world.old) (W.counts world.new) result }
    ensures same { W.names world.new ≡ W.names world.old }
    ensures called { W.calls world.new ≡ W.calls world.old }
{
    let run = match world.copy(alloc, p, steps) {
        Ok(run) => run,
        Err(stop) => return Err(stop),
    };
    match run.end {
        Ending::InputFault => Err(Stop::Input),
        Ending::OutputFault => Err(Stop::Output),
        _ => match tell_copy(run, world) {
            Ok(()) => Ok(status_of(run.end)),
            Err(stop) => Err(stop),
        },
    }
}
