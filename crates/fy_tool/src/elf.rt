//! `elf` and `unelf`: images as ELF files.

ghost use Rattle.std.specs.Prelude.{◌≡◌, [], ◌∷◌, Some, IfErr};
ghost use Rattle.fy_base.specs.Outside.{once_fetched};
ghost use Rattle.fy_words.specs.Order.{elf, unelf};
ghost use Rattle.fy_world.specs.Counted.{Counted, IsReadStop};
ghost use Rattle.fy_tool.specs.Answers.{Serves};
ghost use Rattle.fy_tool.specs.Working.{ReadsElf};

use crate::exec::{IMAGE_LIMIT, image_in};
use fy_elf::read_elf;
use fy_image::Image;
use fy_world::{Note, Stop, World, elf_note, keep_elf, keep_image, refuse};
use std::alloc::Global;

// The image whose ELF file a file holds, or why its bytes are none.
fn elf_in<W: World>(alloc: Global, name: &str, world: &mut W) -> Result<Result<Image, Note>, Stop>
    ensures holds { W.holds world.new ≡ W.holds world.old }
    ensures read { ReadsElf name.now (W.holds world.old).files result }
    ensures counted { Counted (name.now ∷ []) [] (W.counts world.old) (W.counts world.new) result }
    ensures input { IfErr result IsReadStop }
    ensures same { W.names world.new ≡ W.names world.old }
    ensures called { W.calls world.new ≡ once_fetched (W.calls world.old) }
{
    let Some(bytes) = world.fetch(alloc, name, IMAGE_LIMIT)? else {
        return Ok(Err(Note::ImageLength));
    };
    match read_elf(alloc, bytes.as_slice()) {
        Ok(image) => Ok(Ok(image)),
        Err(error) => match elf_note(error) {
            Some(why) => Ok(Err(why)),
            None => Err(Stop::Memory),
        },
    }
}

/// Keeps the ELF file of the image in a file under a name.
pub(crate) fn elf_file<W: World>(
    alloc: Global,
    from: &str,
    to: &str,
    world: &mut W,
) -> Result<u8, Stop>
    ensures serves { Serves (Some (elf from.now to.now)) (W.holds world.old) (W.holds world.new) (W.counts world.old) (W.counts world.new) (W.calls world.old) (W.calls world.new) result }
    ensures same { W.names world.new ≡ W.names world.old }
{
    match image_in(alloc, from, world) {
        Err(stop) => Err(stop),
        Ok(Err(why)) => refuse(6, why, world),
        Ok(Ok(image)) => keep_elf(alloc, &image, to, world),
    }
}

/// Keeps the image whose ELF file a file holds under a name, in version 2.
pub(crate) fn unelf_file<W: World>(
    alloc: Global,
    from: &str,
    to: &str,
    world: &mut W,
) -> Result<u8, Stop>
    ensures serves { Serves (Some (unelf from.now to.now)) (W.holds world.old) (W.holds world.new) (W.counts world.old) (W.counts world.new) (W.calls world.old) (W.calls world.new) result }
    ensures same { W.names world.new ≡ W.names world.old }
{
    match elf_in(alloc, from, world) {
        Err(stop) => Err(stop),
        Ok(Err(why)) => refuse(6, why, world),
        Ok(Ok(image)) => keep_image(alloc, &image, to, world),
    }
}
