//! `build`: an image of a text.

ghost use Rattle.std.specs.Prelude.{◌≡◌, [], ◌∷◌, Some, IfOk, IfErr};
ghost use Rattle.std.specs.Option.{option_map};
ghost use Rattle.fy_build.specs.Building.{IsStackSize};
ghost use Rattle.fy_image.specs.Ranges.{IsImage};
ghost use Rattle.fy_words.specs.Order.{IsStackInRange, build};
ghost use Rattle.fy_world.specs.Counted.{Counted, HasCalled};
ghost use Rattle.fy_world.specs.Did.{IsOwn};
ghost use Rattle.fy_tool.specs.Answers.{Serves};
ghost use Rattle.fy_tool.specs.Working.{Builds, IsBuildable, IsImageFor};

use crate::given::given_in;
use crate::wanted::stack_wanted;
use fy_base::OutOfMemory;
use fy_build::image_of;
use fy_front::Program;
use fy_image::Image;
use fy_world::{Stop, World, keep_image, refuse};
use std::alloc::Global;

/// The image of a program.
pub(crate) fn image_for(alloc: Global, program: &Program, stack_words: u32) -> Result<Image, Stop>
    requires given { IsBuildable program.now }
    requires stack { IsStackSize stack_words }
    ensures image { IfOk result (IsImageFor program.now stack_words) }
    ensures ranges { IfOk result IsImage }
    ensures memory { IfErr result (λ stop. stop ≡ Stop.Memory) }
{
    match image_of(alloc, &program.phrase, &program.table, stack_words) {
        Ok(image) => Ok(image),
        Err(OutOfMemory) => Err(Stop::Memory),
    }
}

/// Keeps the image of a program.
pub(crate) fn build_program<W: World>(
    alloc: Global,
    program: &Program,
    name: &str,
    stack_words: u32,
    world: &mut W,
) -> Result<u8, Stop>
    requires given { IsBuildable program.now }
    requires stack { IsStackSize stack_words }
    ensures builds { Builds program.now stack_words name.now (W.holds world.old) (W.holds world.new) result }
    ensures own { IfOk result IsOwn }
    ensures counted { Counted [] (name.now ∷ []) (W.counts world.old) (W.counts world.new) result }
    ensures same { W.names world.new ≡ W.names world.old }
    ensures called { HasCalled 0 1 (W.calls world.old) (W.calls world.new) }
{
    let image = match image_for(alloc, program, stack_words) {
        Ok(image) => image,
        Err(stop) => return Err(stop),
    };
    keep_image(alloc, &image, name, world)
}

/// Builds an image of the text in a file, by the derivation that is named or by one that is found, and
/// keeps it.
pub(crate) fn build_file<W: World>(
    alloc: Global,
    file: &str,
    name: &str,
    stack: Option<u32>,
    derivation: Option<&str>,
    world: &mut W,
) -> Result<u8, Stop>
    requires { IsStackInRange stack }
    ensures serves { Serves (Some (build file.now name.now stack (option_map (λ name. name.now) derivation.entry))) (W.holds world.old) (W.holds world.new) (W.counts world.old) (W.counts world.new) (W.calls world.old) (W.calls world.new) result }
    ensures same { W.names world.new ≡ W.names world.old }
{
    match given_in(alloc, file, derivation, world) {
        Err(stop) => Err(stop),
        Ok(Err(down)) => refuse(down.status, down.note, world),
        Ok(Ok(program)) => build_program(alloc, &program, name, stack_wanted(stack), world),
    }
}
