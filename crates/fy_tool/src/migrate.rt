//! `migrate`: an image in the newest version.

ghost use Rattle.std.specs.Prelude.{◌≡◌, Some};
ghost use Rattle.fy_words.specs.Order.{migrate};
ghost use Rattle.fy_tool.specs.Answers.{Serves};

use crate::exec::image_in;
use fy_world::{Stop, World, keep_image, refuse};
use std::alloc::Global;

/// Keeps the image in a file under a name, in version 2.
pub(crate) fn migrate_file<W: World>(
    alloc: Global,
    from: &str,
    to: &str,
    world: &mut W,
) -> Result<u8, Stop>
    ensures serves { Serves (Some (migrate from.now to.now)) (W.holds world.old) (W.holds world.new) (W.counts world.old) (W.counts world.new) (W.calls world.old) (W.calls world.new) result }
    ensures same { W.names world.new ≡ W.names world.old }
{
    match image_in(alloc, from, world) {
        Err(stop) => Err(stop),
        Ok(Err(why)) => refuse(6, why, world),
        Ok(Ok(image)) => keep_image(alloc, &image, to, world),
    }
}
