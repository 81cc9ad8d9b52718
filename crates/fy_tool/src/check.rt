//! `check`: whether a text is a program.

ghost use Rattle.std.specs.Prelude.{◌≡◌, Some};
ghost use Rattle.fy_words.specs.Order.{check};
ghost use Rattle.fy_tool.specs.Answers.{Serves};

use crate::texts::program_in;
use fy_world::{Note, Stop, World, refuse, write};
use std::alloc::Global;

/// Checks the text in a file.
pub(crate) fn check_file<W: World>(alloc: Global, file: &str, world: &mut W) -> Result<u8, Stop>
    ensures serves { Serves (Some (check file.now)) (W.holds world.old) (W.holds world.new) (W.counts world.old) (W.counts world.new) (W.calls world.old) (W.calls world.new) result }
    ensures same { W.names world.new ≡ W.names world.old }
{
    match program_in(alloc, file, world) {
        Err(stop) => Err(stop),
        Ok(Err(why)) => refuse(2, Note::Refused(why), world),
        Ok(Ok(_)) => write(b"accepted\n", world),
    }
}
