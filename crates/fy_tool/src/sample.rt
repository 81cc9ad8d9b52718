//! `sample`: a sample program, its image, kept and run.

ghost use Rattle.std.specs.Prelude.{◌≡◌, ◌≤◌, [], ◌∷◌, Some, codes, IfOk, IfErr};
ghost use Rattle.fy_words.specs.Order.{sample};
ghost use Rattle.fy_world.specs.Counted.{Counted, HasCalled};
ghost use Rattle.fy_world.specs.Did.{IsOwn};
ghost use Rattle.fy_tool.specs.Answers.{Serves};
ghost use Rattle.fy_tool.specs.Working.{BuildsAndSamples, IsBuildable, IsSampleOf};

use crate::build::image_for;
use crate::texts::program_from;
use crate::wanted::{RUN_LIMIT, STACK_WORDS};
use fy_base::OutOfMemory;
use fy_build::runs_show_copy_rule;
use fy_front::{Program, Refusal};
use fy_sample::{sample_text, samples_are_short};
use fy_world::{Note, Stop, World, keep_and_sample, refuse};
use std::alloc::Global;

// The name under which the image is kept.
const IMAGE_NAME: &str = "sample.img";

// The program of a sample, or why its text is none.
fn program_for(alloc: Global, number: u32, size: u32) -> Result<Result<Program, Refusal>, Stop>
    requires { size ≤ 2000 }
    ensures program { IfOk result (IsSampleOf number size) }
    ensures memory { IfErr result (λ stop. stop ≡ Stop.Memory) }
{
    samples_are_short();
    let text = match sample_text(alloc, number, size) {
        Ok(text) => text,
        Err(OutOfMemory) => return Err(Stop::Memory),
    };
    program_from(alloc, text.as_slice())
}

// Keeps the image of a program, runs it and writes a summary.
fn sample_program<W: World>(alloc: Global, program: &Program, world: &mut W) -> Result<u8, Stop>
    requires { IsBuildable program.now }
    ensures samples { BuildsAndSamples program.now 1048576 1000000000 (codes "sample.img") (W.holds world.old) (W.holds world.new) result }
    ensures own { IfOk result IsOwn }
    ensures counted { Counted [] (codes "sample.img" ∷ []) (W.counts world.old) (W.counts world.new) result }
    ensures same { W.names world.new ≡ W.names world.old }
    ensures called { HasCalled 0 1 (W.calls world.old) (W.calls world.new) }
{
    let image = match image_for(alloc, program, STACK_WORDS) {
        Ok(image) => image,
        Err(stop) => return Err(stop),
    };
    keep_and_sample(alloc, &image, IMAGE_NAME, RUN_LIMIT, world)
}

/// Makes the sample program of a number and a size, keeps its image, runs it, and writes a summary
/// behind its output.
pub(crate) fn run_sample<W: World>(
    alloc: Global,
    number: u32,
    size: u32,
    world: &mut W,
) -> Result<u8, Stop>
    requires { size ≤ 2000 }
    ensures serves { Serves (Some (sample number size)) (W.holds world.old) (W.holds world.new) (W.counts world.old) (W.counts world.new) (W.calls world.old) (W.calls world.new) result }
    ensures same { W.names world.new ≡ W.names world.old }
{
    runs_show_copy_rule();
    match program_for(alloc, number, size) {
        Err(stop) => Err(stop),
        Ok(Err(why)) => refuse(2, Note::Refused(why), world),
        Ok(Ok(program)) => sample_program(alloc, &program, world),
    }
}
