//! The four objects of a call as one.

ghost use Rattle.std.specs.Prelude.{◌≡◌, ◌≢◌, ◌≤◌, ◌⊎◌, IsTrue, is_none, OnOk, OnErr, IfOk, IfErr, MatchOption, List, [], ◌∷◌, Some, Err, length};
ghost use Rattle.std.specs.Option.{ForSome, option_to_list};
ghost use Rattle.std.specs.Borrow.{GName};
ghost use Rattle.fy_base.specs.Outside.{Drew, GainedPart, IsAtEnd, Tells, IsLong, OthersStay, FileCalls, appended, once_fetched, once_kept};
ghost use Rattle.fy_copy.specs.Ends.{DoesPart, IsCopyEnd, RunsTo as CopyRunsTo};
ghost use Rattle.fy_phrase.specs.Reads.{reads};
ghost use Rattle.fy_phrase.specs.Sizes.{depth};
ghost use Rattle.rv_machine.specs.Ends.{Watched, IsMachineEnd};
ghost use Rattle.fy_world.specs.Did.{files_after};
ghost use Rattle.rv_insn.specs.declared.events.Status.TheVariants.{Running};
ghost use Rattle.fy_world.specs.World.{Contents, Counts};
ghost use Rattle.fy_world.specs.Counted.{Counted, Faulted, IsReadStop};

use fy_base::{Ending, FetchError, Files, KeepError, OutOfMemory, Sink, Source, next_byte};
use fy_copy::{CopyRun, run_copy};
use fy_phrase::Phrase;
use rv_machine::{Machine, MachineRun, Watch, run_watched};
use std::alloc::Global;

/// Why a call stopped.
#[derive(Clone, Copy, PartialEq, Eq, Debug)]
pub enum Stop {
    /// A file wasn't fetched.
    Fetch,
    /// A file wasn't kept.
    Keep,
    Input,
    Output,
    Notes,
    Memory,
}

/// All that a call touches.
pub trait World {
    ghost holds: { Self → Contents };

    ghost counts: { Self → Counts };

    /// How often files were fetched and kept.
    ghost calls: { Self → FileCalls };

    /// Which references a value holds; each call keeps them.
    ghost names: { Self → List GName };

    /// The content of a file, or `None` where it is longer than the limit.
    fn fetch(&mut self, alloc: Global, name: &str, limit: usize) -> Result<Option<Vec<u8>>, Stop>
        ensures holds { holds self.new ≡ holds self.old }
        ensures content { IfOk result (λ content. MatchOption content (IsLong (holds self.old).files name.now limit)
            (λ bytes. Tells (holds self.old).files name.now (Some bytes.items) × (length bytes.items ≤ limit))) }
        ensures stop { IfErr result IsReadStop }
        ensures counted { Counted (name.now ∷ []) [] (counts self.old) (counts self.new) result }
        ensures same { names self.new ≡ names self.old }
        ensures called { calls self.new ≡ once_fetched (calls self.old) };

    /// Makes the named file hold the bytes.
    fn keep(&mut self, alloc: Global, name: &str, bytes: &[u8]) -> Result<(), Stop>
        ensures kept { OnOk result (holds self.new ≡ record (holds self.old) { files = files_after (holds self.old).files (Some (name.now, bytes.now)) }) }
        ensures rest { holds self.new ≡ record (holds self.old) { files = (holds self.new).files } }
        ensures memory { result ≡ Err Stop.Memory → (holds self.new).files ≡ (holds self.old).files }
        ensures unknown { result ≡ Err Stop.Keep → OthersStay (holds self.old).files (holds self.new).files name.now }
        ensures stop { IfErr result (λ stop. (stop ≡ Stop.Keep) ⊎ (stop ≡ Stop.Memory)) }
        ensures counted { Counted [] (name.now ∷ []) (counts self.old) (counts self.new) result }
        ensures same { names self.new ≡ names self.old }
        ensures called { calls self.new ≡ once_kept (calls self.old) };

    /// Puts bytes to the notes.
    fn note(&mut self, bytes: &[u8]) -> Result<(), Stop>
        ensures put { OnOk result (holds self.new ≡ record (holds self.old) { notes = appended (holds self.old).notes bytes.now }) }
        ensures rest { holds self.new ≡ record (holds self.old) { notes = (holds self.new).notes } }
        ensures part { OnErr result (GainedPart (holds self.old).notes (holds self.new).notes bytes.now) }
        ensures stop { IfErr result (λ stop. stop ≡ Stop.Notes) }
        ensures counted { Counted [] [] (counts self.old) (counts self.new) result }
        ensures same { names self.new ≡ names self.old }
        ensures called { calls self.new ≡ calls self.old };

    /// Puts bytes to the output.
    fn put(&mut self, bytes: &[u8]) -> Result<(), Stop>
        ensures put { OnOk result (holds self.new ≡ record (holds self.old) { output = appended (holds self.old).output bytes.now }) }
        ensures rest { holds self.new ≡ record (holds self.old) { output = (holds self.new).output } }
        ensures part { OnErr result (GainedPart (holds self.old).output (holds self.new).output bytes.now) }
        ensures stop { IfErr result (λ stop. stop ≡ Stop.Output) }
        ensures counted { Counted [] [] (counts self.old) (counts self.new) result }
        ensures same { names self.new ≡ names self.old }
        ensures called { calls self.new ≡ calls self.old };

    /// Takes the next byte of the input, or `None` at its end, after which no more is asked for.
    fn take(&mut self, over: &mut bool) -> Result<Option<u8>, Stop>
        requires { IsTrue over.old → IsAtEnd (holds self.old).input }
        ensures drew { IfOk result (λ byte. Drew (holds self.old).input (holds self.new).input over.old over.new (option_to_list byte)) }
        ensures over { IfOk result (λ byte. over.new ≡ is_none byte) }
        ensures rest { holds self.new ≡ record (holds self.old) { input = (holds self.new).input } }
        ensures none { OnErr result (holds self.new ≡ holds self.old) }
        ensures stop { IfErr result (λ stop. stop ≡ Stop.Input) }
        ensures counted { Counted [] [] (counts self.old) (counts self.new) result }
        ensures same { names self.new ≡ names self.old }
        ensures called { calls self.new ≡ calls self.old };

    /// Runs a machine on the input and the output, and tells the watch of each word that is fetched.
    fn run<V: Watch>(&mut self, machine: &mut Machine, watch: &mut V, steps: u64) -> MachineRun
        requires running { machine.old.core.status ≡ Running }
        requires room { length (V.held watch.old) ≤ V.room watch.old }
        ensures did { Watched machine.old.program machine.old.core steps result machine.new.core
            (holds self.old).input (holds self.new).input (holds self.old).output (holds self.new).output (V.room watch.old) (V.held watch.old) (V.held watch.new) }
        ensures program { machine.new.program ≡ machine.old.program }
        ensures steps { result.steps ≤ steps }
        ensures rest { holds self.new ≡ record (holds self.old) { input = (holds self.new).input; output = (holds self.new).output } }
        ensures end { IsMachineEnd result.end }
        ensures input_fault { result.end ≡ Ending.InputFault → Faulted [] [] Stop.Input (counts self.old) (counts self.new) }
        ensures output_fault { result.end ≡ Ending.OutputFault → Faulted [] [] Stop.Output (counts self.old) (counts self.new) }
        ensures quiet { result.end ≢ Ending.InputFault → result.end ≢ Ending.OutputFault → counts self.new ≡ counts self.old }
        ensures same { names self.new ≡ names self.old }
        ensures called { calls self.new ≡ calls self.old };

    /// Runs a phrase by the copy rule on the input and the output.
    fn copy(&mut self, alloc: Global, p: &Phrase, steps: u64) -> Result<CopyRun, Stop>
        requires depth { depth (reads p.now) ≤ 1023 }
        requires steps { steps ≤ 1000000000000 }
        ensures did { IfOk result (λ done. CopyRunsTo (reads p.now) steps done
            (holds self.old).input (holds self.new).input (holds self.old).output (holds self.new).output) }
        ensures memory { OnErr result (DoesPart (reads p.now) steps
            (holds self.old).input (holds self.new).input (holds self.old).output (holds self.new).output) }
        ensures steps { IfOk result (λ done. done.steps ≤ steps) }
        ensures rest { holds self.new ≡ record (holds self.old) { input = (holds self.new).input; output = (holds self.new).output } }
        ensures end { IfOk result (λ done. IsCopyEnd done.end) }
        ensures stop { IfErr result (λ stop. stop ≡ Stop.Memory) }
        ensures input_fault { IfOk result (λ done. done.end ≡ Ending.InputFault → Faulted [] [] Stop.Input (counts self.old) (counts self.new)) }
        ensures output_fault { IfOk result (λ done. done.end ≡ Ending.OutputFault → Faulted [] [] Stop.Output (counts self.old) (counts self.new)) }
        ensures quiet { IfOk result (λ done. done.end ≢ Ending.InputFault → done.end ≢ Ending.OutputFault → counts self.new ≡ counts self.old) }
        ensures memory_quiet { OnErr result (counts self.new ≡ counts self.old) }
        ensures same { names self.new ≡ names self.old }
        ensures called { calls self.new ≡ calls self.old };
}

/// The objects of a call.
#[derive(Drop)]
pub struct Outside<'f, 'i, 'o, 'n, F, I, O, N> {
    pub files: &'f mut F,
    pub input: &'i mut I,
    pub output: &'o mut O,
    pub notes: &'n mut N,
}

impl<F: Files, I: Source, O: Sink, N: Sink> World for Outside<'_, '_, '_, '_, F, I, O, N> {
    ghost holds = { λ w. record { files = F.held w.files.now; input = I.left w.input.now; output = O.held w.output.now; notes = N.held w.notes.now } };

    ghost counts = { λ w. record { fetches = F.fetch_faults w.files.now; keeps = F.keep_faults w.files.now; input = I.faults w.input.now; output = O.faults w.output.now; notes = N.faults w.notes.now } };

    ghost calls = { λ w. F.calls w.files.now };

    ghost names = { λ w. w.files.ghost_name ∷ w.input.ghost_name ∷ w.output.ghost_name ∷ w.notes.ghost_name ∷ [] };

    fn fetch(&mut self, alloc: Global, name: &str, limit: usize) -> Result<Option<Vec<u8>>, Stop> {
        match self.files.fetch(alloc, name, limit) {
            Ok(bytes) => Ok(Some(bytes)),
            Err(FetchError::TooLong) => Ok(None),
            Err(FetchError::OutOfMemory) => Err(Stop::Memory),
            Err(FetchError::Missing) => Err(Stop::Fetch),
            Err(FetchError::Failed) => Err(Stop::Fetch),
        }
    }

    fn note(&mut self, bytes: &[u8]) -> Result<(), Stop> {
        match self.notes.put(bytes) {
            Ok(()) => Ok(()),
            Err(_) => Err(Stop::Notes),
        }
    }

    fn keep(&mut self, alloc: Global, name: &str, bytes: &[u8]) -> Result<(), Stop> {
        match self.files.keep(alloc, name, bytes) {
            Ok(()) => Ok(()),
            Err(KeepError::Failed) => Err(Stop::Keep),
            Err(KeepError::OutOfMemory) => Err(Stop::Memory),
        }
    }

    fn put(&mut self, bytes: &[u8]) -> Result<(), Stop> {
        match self.output.put(bytes) {
            Ok(()) => Ok(()),
            Err(_) => Err(Stop::Output),
        }
    }

    fn take(&mut self, over: &mut bool) -> Result<Option<u8>, Stop> {
        match next_byte(self.input, over) {
            Ok(byte) => Ok(byte),
            Err(_) => Err(Stop::Input),
        }
    }

    fn run<V: Watch>(&mut self, machine: &mut Machine, watch: &mut V, steps: u64) -> MachineRun {
        run_watched(machine, self.input, self.output, watch, steps)
    }

    fn copy(&mut self, alloc: Global, p: &Phrase, steps: u64) -> Result<CopyRun, Stop> {
        match run_copy(alloc, p, self.input, self.output, steps) {
            Ok(run) => Ok(run),
            Err(OutOfMemory) => Err(Stop::Memory),
        }
    }
}
