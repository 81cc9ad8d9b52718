//! `exec`: a run of an image.

ghost use Rattle.std.specs.Prelude.{◌≡◌, [], ◌∷◌, Some, IfErr};
ghost use Rattle.fy_base.specs.Outside.{once_fetched};
ghost use Rattle.fy_words.specs.Order.{exec};
ghost use Rattle.fy_world.specs.Counted.{Counted, IsReadStop};
ghost use Rattle.fy_tool.specs.Answers.{Serves};
ghost use Rattle.fy_tool.specs.Working.{ReadsImage};

use crate::wanted::steps_wanted;
use fy_image::{Image, read_image};
use fy_world::{Note, Stop, World, execute, refusal_note, refuse};
use std::alloc::Global;

/// The most bytes that an image has, as an ELF file too.
pub(crate) const IMAGE_LIMIT: usize = 33_554_432;

/// The image in a file, or why its bytes are none.
pub(crate) fn image_in<W: World>(
    alloc: Global,
    name: &str,
    world: &mut W,
) -> Result<Result<Image, Note>, Stop>
    ensures holds { W.holds world.new ≡ W.holds world.old }
    ensures read { ReadsImage name.now (W.holds world.old).files result }
    ensures counted { Counted (name.now ∷ []) [] (W.counts world.old) (W.counts world.new) result }
    ensures input { IfErr result IsReadStop }
    ensures same { W.names world.new ≡ W.names world.old }
    ensures called { W.calls world.new ≡ once_fetched (W.calls world.old) }
{
    let Some(bytes) = world.fetch(alloc, name, IMAGE_LIMIT)? else {
        return Ok(Err(Note::ImageLength));
    };
    match read_image(alloc, bytes.as_slice()) {
        Ok(image) => Ok(Ok(image)),
        Err(error) => match refusal_note(error) {
            Some(why) => Ok(Err(why)),
            None => Err(Stop::Memory),
        },
    }
}

/// Runs the image in a file.
pub(crate) fn exec_file<W: World>(
    alloc: Global,
    name: &str,
    steps: Option<u64>,
    trace: Option<u32>,
    world: &mut W,
) -> Result<u8, Stop>
    ensures serves { Serves (Some (exec name.now steps trace)) (W.holds world.old) (W.holds world.new) (W.counts world.old) (W.counts world.new) (W.calls world.old) (W.calls world.new) result }
    ensures same { W.names world.new ≡ W.names world.old }
{
    match image_in(alloc, name, world) {
        Err(stop) => Err(stop),
        Ok(Err(why)) => refuse(6, why, world),
        Ok(Ok(image)) => execute(alloc, &image, steps_wanted(steps), trace, world),
    }
}
