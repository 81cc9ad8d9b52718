//! `copy`: a run by the copy rule.

ghost use Rattle.std.specs.Prelude.{◌≡◌, ◌≤◌, Some};
ghost use Rattle.fy_words.specs.Order.{copy, copy_wanted};
ghost use Rattle.fy_tool.specs.Answers.{Serves};

use crate::texts::program_in;
use crate::wanted::copy_wanted;
use fy_world::{Note, Stop, World, refuse, run_copied};
use std::alloc::Global;

/// Runs the text in a file by the copy rule.
pub(crate) fn copy_file<W: World>(
    alloc: Global,
    file: &str,
    steps: Option<u64>,
    world: &mut W,
) -> Result<u8, Stop>
    requires { copy_wanted steps ≤ 1000000000 }
    ensures serves { Serves (Some (copy file.now steps)) (W.holds world.old) (W.holds world.new) (W.counts world.old) (W.counts world.new) (W.calls world.old) (W.calls world.new) result }
    ensures same { W.names world.new ≡ W.names world.old }
{
    match program_in(alloc, file, world) {
        Err(stop) => Err(stop),
        Ok(Err(why)) => refuse(2, Note::Refused(why), world),
        Ok(Ok(program)) => run_copied(alloc, &program.phrase, copy_wanted(steps), world),
    }
}
