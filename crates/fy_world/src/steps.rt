//! Runs of push-enter code, and the lines of their steps.

ghost use Rattle.std.specs.Prelude.{◌≡◌, ◌≢◌, ◌≤◌, ◌<◌, ◌^◌, ◌⊎◌, [], ◌∷◌, ◌++◌, None, IsTrue, IsSome, is_none, OnOk, OnErr, IfOk, IfErr, IfSome};
ghost use Rattle.std.specs.Option.{option_copied, option_to_list};
ghost use Rattle.fy_base.specs.Arithmetic.{written_text};
ghost use Rattle.fy_base.specs.Outside.{Drew, GainedPart, IsAtEnd, appended};
ghost use Rattle.pe_code.specs.Code.{item_at};
ghost use Rattle.pe_machine.specs.Seen.{address_of, seen};
ghost use Rattle.pe_machine.specs.declared.events.Phase.TheVariants.{Going as PhaseGoing};
ghost use Rattle.fy_world.specs.Did.{IsOwn};
ghost use Rattle.fy_world.specs.Counted.{Counted};
ghost use Rattle.fy_world.specs.Note.{texts, ended_lines};
ghost use Rattle.fy_world.specs.Steps.{insn_text, step_text};
ghost use Rattle.fy_world.specs.Stepping.{HasEnded, HasStepped, HasStopped, IsLastEnd, IsNeverLost, IsStepEnd, StepPart, TurnStopped, Turned, begun, text_of};
ghost use Rattle.fy_world.specs.Working.{IsUnbegun};

use crate::note::Note;
use crate::runs::{note_of, status_of};
use crate::telling::tell;
use crate::world::{Stop, World};
use fy_base::{Datum, Ending, OutOfMemory, PutKind, Text, put_text};
use fy_types::Names;
use pe_code::{PeCode, PeItem, print_pe};
use pe_machine::{PeEvent, PeState};
use std::alloc::Global;

// The words of the machine's stack.
const STACK_WORDS: u32 = 1_048_576;

// The item at an address.
fn item_at(code: &PeCode, address: u32) -> Option<&PeItem>
    ensures { option_copied result ≡ item_at code.now address }
{
    code.items.as_slice().get(address as usize)
}

// The print of the instruction at an address, or nothing where there is none.
fn insn_text(alloc: Global, code: &PeCode, names: &Names, address: u32) -> Result<Text, OutOfMemory>
    ensures { IfOk result (λ text. text ≡ insn_text names.now (item_at code.now address)) }
{
    match item_at(code, address) {
        Some(item) => print_pe(alloc, names, &item.insn),
        None => Ok(Text::new(alloc)),
    }
}

// The line of a step: the address and the print of its instruction, or `- answer` where there is none.
fn step_line(
    alloc: Global,
    code: &PeCode,
    names: &Names,
    address: Option<u32>,
) -> Result<Vec<u8>, OutOfMemory>
    ensures { IfOk result (λ line. line.items ≡ step_text code.now names.now address ++ 10 ∷ []) }
{
    let mut line = Vec::with_capacity(alloc, 64)?;
    match address {
        Some(address) => {
            line.extend_from_slice(itoa::Buffer::new().format(address).as_bytes())?;
            line.push(b' ')?;
            line.extend_from_slice(insn_text(alloc, code, names, address)?.as_slice())?;
        }
        None => line.extend_from_slice(b"- answer")?,
    }
    line.push(b'\n')?;
    Ok(line)
}

// Puts the line of a step to the notes.
fn tell_step<W: World>(
    alloc: Global,
    code: &PeCode,
    names: &Names,
    address: Option<u32>,
    world: &mut W,
) -> Result<(), Stop>
    ensures told { OnOk result (W.holds world.new ≡ record (W.holds world.old) { notes = appended (W.holds world.old).notes (step_text code.now names.now address ++ 10 ∷ []) }) }
    ensures part { IfErr result (StepPart (step_text code.now names.now address ++ 10 ∷ []) [] (W.holds world.old) (W.holds world.new)) }
    ensures stop { IfErr result (λ stop. stop ≢ Stop.Input) }
    ensures unput { IfErr result (λ stop. stop ≢ Stop.Output) }
    ensures counted { Counted [] [] (W.counts world.old) (W.counts world.new) result }
    ensures same { W.names world.new ≡ W.names world.old }
    ensures called { W.calls world.new ≡ W.calls world.old }
{
    match step_line(alloc, code, names, address) {
        Ok(line) => world.note(line.as_slice()),
        Err(OutOfMemory) => Err(Stop::Memory),
    }
}

// Puts the line of a step to the notes, behind which the run goes on, or ends so.
fn end_told<W: World>(
    alloc: Global,
    code: &PeCode,
    names: &Names,
    address: Option<u32>,
    end: Option<Ending>,
    world: &mut W,
) -> Result<Option<Ending>, Stop>
    ensures end { IfOk result (λ given. given ≡ end) }
    ensures told { OnOk result (W.holds world.new ≡ record (W.holds world.old) { notes = appended (W.holds world.old).notes (step_text code.now names.now address ++ 10 ∷ []) }) }
    ensures part { IfErr result (StepPart (step_text code.now names.now address ++ 10 ∷ []) [] (W.holds world.old) (W.holds world.new)) }
    ensures stop { IfErr result (λ stop. stop ≢ Stop.Input) }
    ensures unput { IfErr result (λ stop. stop ≢ Stop.Output) }
    ensures counted { Counted [] [] (W.counts world.old) (W.counts world.new) result }
    ensures same { W.names world.new ≡ W.names world.old }
    ensures called { W.calls world.new ≡ W.calls world.old }
{
    match tell_step(alloc, code, names, address, world) {
        Ok(()) => Ok(end),
        Err(stop) => Err(stop),
    }
}

// Puts a datum to the output.
fn put_datum<W: World>(
    alloc: Global,
    kind: PutKind,
    value: Datum,
    world: &mut W,
) -> Result<(), Stop>
    requires { IsSome (written_text kind value) }
    ensures put { OnOk result (W.holds world.new ≡ record (W.holds world.old) { output = appended (W.holds world.old).output (text_of kind value) }) }
    ensures part { IfErr result (StepPart [] (text_of kind value) (W.holds world.old) (W.holds world.new)) }
    ensures stop { IfErr result (λ stop. stop ≢ Stop.Input) }
    ensures counted { Counted [] [] (W.counts world.old) (W.counts world.new) result }
    ensures same { W.names world.new ≡ W.names world.old }
    ensures called { W.calls world.new ≡ W.calls world.old }
{
    match put_text(alloc, kind, value) {
        Ok(Some(text)) => world.put(text.as_slice()),
        Ok(None) => unreachable!(),
        Err(OutOfMemory) => Err(Stop::Memory),
    }
}

// Puts the line of a step to the notes, and then a datum to the output.
fn put_told<W: World>(
    alloc: Global,
    code: &PeCode,
    names: &Names,
    address: Option<u32>,
    kind: PutKind,
    value: Datum,
    world: &mut W,
) -> Result<Option<Ending>, Stop>
    requires { IsSome (written_text kind value) }
    ensures end { IfOk result (λ end. end ≡ None) }
    ensures put { OnOk result (W.holds world.new ≡ record (W.holds world.old) { output = appended (W.holds world.old).output (text_of kind value); notes = appended (W.holds world.old).notes (step_text code.now names.now address ++ 10 ∷ []) }) }
    ensures part { IfErr result (StepPart (step_text code.now names.now address ++ 10 ∷ []) (text_of kind value) (W.holds world.old) (W.holds world.new)) }
    ensures stop { IfErr result (λ stop. stop ≢ Stop.Input) }
    ensures counted { Counted [] [] (W.counts world.old) (W.counts world.new) result }
    ensures same { W.names world.new ≡ W.names world.old }
    ensures called { W.calls world.new ≡ W.calls world.old }
{
    match tell_step(alloc, code, names, address, world) {
        Err(stop) => Err(stop),
        Ok(()) => match put_datum(alloc, kind, value, world) {
            Ok(()) => Ok(None),
            Err(stop) => Err(stop),
        },
    }
}

// Puts the line of a step to the notes, and then takes a byte.
fn take_told<W: World>(
    alloc: Global,
    code: &PeCode,
    names: &Names,
    address: Option<u32>,
    over: &mut bool,
    world: &mut W,
) -> Result<Option<u8>, Stop>
    requires { IsTrue over.old → IsAtEnd (W.holds world.old).input }
    ensures drew { IfOk result (λ byte. Drew (W.holds world.old).input (W.holds world.new).input over.old over.new (option_to_list byte)) }
    ensures over { IfOk result (λ byte. over.new ≡ is_none byte) }
    ensures told { OnOk result (W.holds world.new ≡ record (W.holds world.old) { input = (W.holds world.new).input; notes = appended (W.holds world.old).notes (step_text code.now names.now address ++ 10 ∷ []) }) }
    ensures part { IfErr result (StepPart (step_text code.now names.now address ++ 10 ∷ []) [] (W.holds world.old) (W.holds world.new)) }
    ensures unput { IfErr result (λ stop. stop ≢ Stop.Output) }
    ensures counted { Counted [] [] (W.counts world.old) (W.counts world.new) result }
    ensures same { W.names world.new ≡ W.names world.old }
    ensures called { W.calls world.new ≡ W.calls world.old }
{
    match tell_step(alloc, code, names, address, world) {
        Err(stop) => Err(stop),
        Ok(()) => world.take(over),
    }
}

// Makes one step, behind which the run goes on, or ends so. Its line is put before its byte is taken
// or its text is put.
fn turn<W: World>(
    alloc: Global,
    code: &PeCode,
    names: &Names,
    state: &mut PeState,
    over: &mut bool,
    world: &mut W,
) -> Result<Option<Ending>, Stop>
    requires going { (seen state.old).phase ≡ PhaseGoing }
    requires few { (seen state.old).steps < 2 ^ 48 }
    requires at_end { IsTrue over.old → IsAtEnd (W.holds world.old).input }
    ensures turned { IfOk result (Turned code.now names.now (seen state.old) (seen state.new) over.old over.new (W.holds world.old) (W.holds world.new)) }
    ensures stopped { IfErr result (TurnStopped code.now names.now (seen state.old) (W.holds world.old) (W.holds world.new)) }
    ensures end { IfOk result (λ end. IfSome end IsStepEnd) }
    ensures counted { Counted [] [] (W.counts world.old) (W.counts world.new) result }
    ensures same { W.names world.new ≡ W.names world.old }
    ensures called { W.calls world.new ≡ W.calls world.old }
{
    let address = state.address();
    match state.step(code) {
        PeEvent::Going => end_told(alloc, code, names, address, None, world),
        PeEvent::Put(kind, value) => put_told(alloc, code, names, address, kind, value, world),
        PeEvent::WantByte => match take_told(alloc, code, names, address, over, world) {
            Ok(byte) => {
                state.give(byte);
                Ok(None)
            }
            Err(stop) => Err(stop),
        },
        PeEvent::Ended => Ok(Some(Ending::Ended)),
        PeEvent::Exhausted => Ok(Some(Ending::Exhausted)),
        PeEvent::Fault { kind, place } => {
            let end = Ending::Fault { kind, place };
            end_told(alloc, code, names, address, Some(end), world)
        }
        PeEvent::Gone => end_told(alloc, code, names, address, Some(Ending::Gone), world),
        PeEvent::Stuck => end_told(alloc, code, names, address, Some(Ending::Stuck), world),
    }
}

// Whether a run that made all its steps is over, or its steps are spent.
fn end_of(code: &PeCode, state: &mut PeState) -> Ending
    requires going { (seen state.old).phase ≡ PhaseGoing }
    requires few { (seen state.old).steps < 2 ^ 48 }
    ensures { IsLastEnd result (seen state.old).state }
{
    match state.step(code) {
        PeEvent::Ended => Ending::Ended,
        _ => Ending::Spent,
    }
}

// Makes at most so many steps, and answers how the run ended.
fn make_steps<W: World>(
    alloc: Global,
    code: &PeCode,
    names: &Names,
    state: &mut PeState,
    steps: u64,
    world: &mut W,
) -> Result<Ending, Stop>
    requires begun { seen state.old ≡ begun }
    requires steps { steps ≤ 1000000 }
    ensures ended { IfOk result (HasEnded code.now names.now steps (W.holds world.old) (W.holds world.new)) }
    ensures stopped { IfErr result (HasStopped code.now names.now steps (W.holds world.old) (W.holds world.new)) }
    ensures counted { Counted [] [] (W.counts world.old) (W.counts world.new) result }
    ensures same { W.names world.new ≡ W.names world.old }
    ensures called { W.calls world.new ≡ W.calls world.old }
{
    let mut over = false;
    for k in 0..steps {
        match turn(alloc, code, names, state, &mut over, world) {
            Ok(None) => {}
            Ok(Some(end)) => return Ok(end),
            Err(stop) => return Err(stop),
        }
    }
    Ok(end_of(code, state))
}

// Tells how a run ended, by its note if it has one.
fn tell_status<W: World>(note: Option<Note>, world: &mut W) -> Result<(), Stop>
    ensures told { OnOk result (W.holds world.new ≡ record (W.holds world.old) { notes = appended (W.holds world.old).notes (ended_lines (texts (option_to_list note))) }) }
    ensures rest { W.holds world.new ≡ record (W.holds world.old) { notes = (W.holds world.new).notes } }
    ensures part { OnErr result (GainedPart (W.holds world.old).notes (W.holds world.new).notes (ended_lines (texts (option_to_list note)))) }
    ensures stop { IfErr result (λ stop. stop ≡ Stop.Notes) }
    ensures untold { OnErr result (option_to_list note ≢ []) }
    ensures counted { Counted [] [] (W.counts world.old) (W.counts world.new) result }
    ensures same { W.names world.new ≡ W.names world.old }
    ensures called { W.calls world.new ≡ W.calls world.old }
{
    match note {
        None => tell(&[], world),
        Some(note) => tell(&[note], world),
    }
}

/// Runs code on a machine with 1,048,576 words of stack for at most so many steps, puts a line for
/// each step to the notes, and tells how the run ended. No step of the code is undefined, and none
/// looks for a frame that is gone.
pub fn run_stepped<W: World>(
    alloc: Global,
    code: &PeCode,
    names: &Names,
    steps: u64,
    world: &mut W,
) -> Result<u8, Stop>
    requires lost { IsNeverLost code.now }
    requires steps { steps ≤ 1000000 }
    ensures run { IsUnbegun (W.holds world.old) (W.holds world.new) result
        ⊎ HasStepped code.now names.now steps (W.holds world.old) (W.holds world.new) result }
    ensures own { IfOk result IsOwn }
    ensures counted { Counted [] [] (W.counts world.old) (W.counts world.new) result }
    ensures same { W.names world.new ≡ W.names world.old }
    ensures called { W.calls world.new ≡ W.calls world.old }
{
    let mut state = match PeState::load(alloc, code, STACK_WORDS) {
        Ok(state) => state,
        Err(OutOfMemory) => return Err(Stop::Memory),
    };
    match make_steps(alloc, code, names, &mut state, steps, world) {
        Err(stop) => Err(stop),
        Ok(end) => match tell_status(note_of(end), world) {
            Ok(()) => Ok(status_of(end)),
            Err(stop) => Err(stop),
        },
    }
}
