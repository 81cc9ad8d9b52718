//! `list`: the listing of a text's image.

ghost use Rattle.std.specs.Prelude.{◌≡◌, [], IfOk, Some};
ghost use Rattle.fy_words.specs.Order.{list};
ghost use Rattle.fy_world.specs.Counted.{Counted};
ghost use Rattle.fy_world.specs.Did.{IsOwn};
ghost use Rattle.fy_tool.specs.Answers.{Serves};
ghost use Rattle.fy_tool.specs.Working.{IsBuildable, Lists};

use crate::build::image_for;
use crate::texts::program_in;
use crate::wanted::STACK_WORDS;
use fy_front::Program;
use fy_world::{Note, Stop, World, list_image, refuse};
use std::alloc::Global;

// Writes the listing of the image of a program.
fn list_program<W: World>(alloc: Global, program: &Program, world: &mut W) -> Result<u8, Stop>
    requires { IsBuildable program.now }
    ensures lists { Lists program.now 1048576 (W.holds world.old) (W.holds world.new) result }
    ensures own { IfOk result IsOwn }
    ensures counted { Counted [] [] (W.counts world.old) (W.counts world.new) result }
    ensures same { W.names world.new ≡ W.names world.old }
    ensures called { W.calls world.new ≡ W.calls world.old }
{
    let image = match image_for(alloc, program, STACK_WORDS) {
        Ok(image) => image,
        Err(stop) => return Err(stop),
    };
    list_image(alloc, &image, world)
}

/// Lists the image of the text in a file.
pub(crate) fn list_file<W: World>(alloc: Global, file: &str, world: &mut W) -> Result<u8, Stop>
    ensures serves { Serves (Some (list file.now)) (W.holds world.old) (W.holds world.new) (W.counts world.old) (W.counts world.new) (W.calls world.old) (W.calls world.new) result }
    ensures same { W.names world.new ≡ W.names world.old }
{
    match program_in(alloc, file, world) {
        Err(stop) => Err(stop),
        Ok(Err(why)) => refuse(2, Note::Refused(why), world),
        Ok(Ok(program)) => list_program(alloc, &program, world),
    }
}
