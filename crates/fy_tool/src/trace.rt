//! `trace`: a run of push-enter code, step by step.

ghost use Rattle.std.specs.Prelude.{◌≡◌, ◌≤◌, [], ◌⊎◌, Some, IfOk};
ghost use Rattle.fy_words.specs.Order.{trace, trace_steps_wanted};
ghost use Rattle.fy_world.specs.Counted.{Counted};
ghost use Rattle.fy_world.specs.Did.{IsOwn};
ghost use Rattle.fy_world.specs.Working.{IsUnbegun};
ghost use Rattle.fy_build.specs.Selected.{IsCodeWanted};
ghost use Rattle.fy_phrase.specs.Reads.{reads};
ghost use Rattle.fy_tool.specs.Answers.{Serves};
ghost use Rattle.fy_tool.specs.Working.{HasTraced, IsOfSomeText};

use crate::texts::program_in;
use crate::wanted::trace_steps_wanted;
use fy_base::OutOfMemory;
use fy_build::{code_of, straight_code_of};
use fy_front::Program;
use fy_world::{Note, Stop, World, refuse, run_stepped};
use pe_code::PeCode;
use std::alloc::Global;

// The push-enter code of a program, with nodes that are evaluated in one step or with none.
fn code_wanted(alloc: Global, program: &Program, straight: bool) -> Result<PeCode, OutOfMemory>
    requires { IsOfSomeText program.now }
    ensures { IfOk result (λ code. IsCodeWanted straight (reads program.now.phrase) program.now.table code) }
{
    if straight {
        straight_code_of(alloc, &program.phrase, &program.table)
    } else {
        code_of(alloc, &program.phrase, &program.table)
    }
}

// Runs that code, and tells each step.
fn trace_program<W: World>(
    alloc: Global,
    program: &Program,
    straight: bool,
    steps: u64,
    world: &mut W,
) -> Result<u8, Stop>
    requires text { IsOfSomeText program.now }
    requires steps { steps ≤ 1000000 }
    ensures traced { IsUnbegun (W.holds world.old) (W.holds world.new) result
        ⊎ HasTraced program.now straight steps (W.holds world.old) (W.holds world.new) result }
    ensures own { IfOk result IsOwn }
    ensures counted { Counted [] [] (W.counts world.old) (W.counts world.new) result }
    ensures same { W.names world.new ≡ W.names world.old }
    ensures called { W.calls world.new ≡ W.calls world.old }
{
    match code_wanted(alloc, program, straight) {
        Ok(code) => run_stepped(alloc, &code, &program.names, steps, world),
        Err(OutOfMemory) => Err(Stop::Memory),
    }
}

/// Runs the push-enter code of the text in a file, and tells each step.
pub(crate) fn trace_file<W: World>(
    alloc: Global,
    file: &str,
    steps: Option<u64>,
    straight: bool,
    world: &mut W,
) -> Result<u8, Stop>
    requires { trace_steps_wanted steps ≤ 1000000 }
    ensures serves { Serves (Some (trace file.now steps straight)) (W.holds world.old) (W.holds world.new) (W.counts world.old) (W.counts world.new) (W.calls world.old) (W.calls world.new) result }
    ensures same { W.names world.new ≡ W.names world.old }
{
    match program_in(alloc, file, world) {
        Err(stop) => Err(stop),
        Ok(Err(why)) => refuse(2, Note::Refused(why), world),
        Ok(Ok(program)) => {
            trace_program(alloc, &program, straight, trace_steps_wanted(steps), world)
        }
    }
}
