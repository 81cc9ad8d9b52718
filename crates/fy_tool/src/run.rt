//! `run`: an image of a text, kept and run.

ghost use Rattle.std.specs.Prelude.{◌≡◌, [], ◌∷◌, ◌++◌, Some, codes, string_bytes, IfOk, IfErr};
ghost use Rattle.std.specs.Option.{option_map};
ghost use Rattle.fy_build.specs.Building.{IsStackSize};
ghost use Rattle.fy_words.specs.Order.{IsStackInRange, run};
ghost use Rattle.fy_world.specs.Counted.{Counted, HasCalled};
ghost use Rattle.fy_world.specs.Did.{IsOwn};
ghost use Rattle.fy_tool.specs.Answers.{Serves};
ghost use Rattle.fy_tool.specs.Due.{kept_as};
ghost use Rattle.fy_tool.specs.Working.{BuildsAndRuns, IsBuildable};

use crate::build::image_for;
use crate::given::given_in;
use crate::wanted::{stack_wanted, steps_wanted};
use fy_build::runs_show_copy_rule;
use fy_front::Program;
use fy_world::{Stop, World, keep_and_run, refuse};
use std::alloc::Global;

// Keeps the image of a program and runs it.
fn run_program<W: World>(
    alloc: Global,
    program: &Program,
    name: &str,
    steps: u64,
    stack_words: u32,
    world: &mut W,
) -> Result<u8, Stop>
    requires given { IsBuildable program.now }
    requires stack { IsStackSize stack_words }
    ensures runs { BuildsAndRuns program.now stack_words steps name.now (W.holds world.old) (W.holds world.new) result }
    ensures own { IfOk result IsOwn }
    ensures counted { Counted [] (name.now ∷ []) (W.counts world.old) (W.counts world.new) result }
    ensures same { W.names world.new ≡ W.names world.old }
    ensures called { HasCalled 0 1 (W.calls world.old) (W.calls world.new) }
{
    let image = match image_for(alloc, program, stack_words) {
        Ok(image) => image,
        Err(stop) => return Err(stop),
    };
    keep_and_run(alloc, &image, name, steps, world)
}

// Builds an image of the text in a file, keeps it under a name and runs it.
fn run_as<W: World>(
    alloc: Global,
    file: &str,
    name: &str,
    steps: Option<u64>,
    stack: Option<u32>,
    derivation: Option<&str>,
    image: Option<&str>,
    world: &mut W,
) -> Result<u8, Stop>
    requires stack { IsStackInRange stack }
    requires name { name.now ≡ kept_as file.now (option_map (λ name. name.now) image) }
    ensures serves { Serves (Some (run file.now steps stack (option_map (λ name. name.now) derivation.entry) (option_map (λ name. name.now) image.entry))) (W.holds world.old) (W.holds world.new) (W.counts world.old) (W.counts world.new) (W.calls world.old) (W.calls world.new) result }
    ensures same { W.names world.new ≡ W.names world.old }
{
    runs_show_copy_rule();
    match given_in(alloc, file, derivation, world) {
        Err(stop) => Err(stop),
        Ok(Err(down)) => refuse(down.status, down.note, world),
        Ok(Ok(program)) => run_program(
            alloc,
            &program,
            name,
            steps_wanted(steps),
            stack_wanted(stack),
            world,
        ),
    }
}

// FILE followed by `.img`.
fn named_after(alloc: Global, file: &str) -> Result<String, Stop>
    ensures name { IfOk result (λ name. string_bytes name ≡ file.now ++ codes ".img") }
    ensures memory { IfErr result (λ stop. stop ≡ Stop.Memory) }
{
    match format!(in alloc; "{file}.img") {
        Ok(name) => Ok(name),
        Err(_) => Err(Stop::Memory),
    }
}

/// Builds an image of the text in a file, by the derivation that is named or by one that is found, keeps
/// it and runs it.
pub(crate) fn run_file<W: World>(
    alloc: Global,
    file: &str,
    steps: Option<u64>,
    stack: Option<u32>,
    derivation: Option<&str>,
    image: Option<&str>,
    world: &mut W,
) -> Result<u8, Stop>
    requires { IsStackInRange stack }
    ensures serves { Serves (Some (run file.now steps stack (option_map (λ name. name.now) derivation.entry) (option_map (λ name. name.now) image.entry))) (W.holds world.old) (W.holds world.new) (W.counts world.old) (W.counts world.new) (W.calls world.old) (W.calls world.new) result }
    ensures same { W.names world.new ≡ W.names world.old }
{
    match image {
        Some(name) => run_as(alloc, file, name, steps, stack, derivation, image, world),
        None => match named_after(alloc, file) {
            Ok(name) => run_as(
                alloc,
                file,
                name.as_str(),
                steps,
                stack,
                derivation,
                image,
                world,
            ),
            Err(stop) => Err(stop),
        },
    }
}
