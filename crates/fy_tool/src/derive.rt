//! `derive`: a derivation of a text.

ghost use Rattle.std.specs.Prelude.{◌≡◌, [], ◌⊎◌, Some, Err, IfOk};
ghost use Rattle.fy_derive.specs.Print.{derivation_text};
ghost use Rattle.fy_derive.specs.Reading.{plain_derivation};
ghost use Rattle.fy_words.specs.Order.{derive};
ghost use Rattle.fy_world.specs.Counted.{Counted};
ghost use Rattle.fy_world.specs.Did.{Did, IsOwn};
ghost use Rattle.fy_world.specs.Runs.{written};
ghost use Rattle.fy_world.specs.Working.{IsUnbegun};
ghost use Rattle.fy_tool.specs.Answers.{Serves};

use crate::texts::program_in;
use fy_base::OutOfMemory;
use fy_derive::{Derivation, print_derivation};
use fy_types::Names;
use fy_world::{Note, Stop, World, refuse, write};
use std::alloc::Global;

// Writes the text of a derivation.
fn write_derivation<W: World>(
    alloc: Global,
    names: &Names,
    derivation: &Derivation,
    world: &mut W,
) -> Result<u8, Stop>
    ensures did { IsUnbegun (W.holds world.old) (W.holds world.new) result
        ⊎ Did (written (derivation_text names.now (plain_derivation derivation.now))) (W.holds world.old) (W.holds world.new) result }
    ensures own { IfOk result IsOwn }
    ensures counted { Counted [] [] (W.counts world.old) (W.counts world.new) result }
    ensures ready { result ≡ Err Stop.Memory → W.holds world.new ≡ W.holds world.old }
    ensures same { W.names world.new ≡ W.names world.old }
    ensures called { W.calls world.new ≡ W.calls world.old }
{
    match print_derivation(alloc, names, derivation) {
        Ok(text) => write(text.as_slice(), world),
        Err(OutOfMemory) => Err(Stop::Memory),
    }
}

/// Writes a derivation of the text in a file.
pub(crate) fn derive_file<W: World>(alloc: Global, file: &str, world: &mut W) -> Result<u8, Stop>
    ensures serves { Serves (Some (derive file.now)) (W.holds world.old) (W.holds world.new) (W.counts world.old) (W.counts world.new) (W.calls world.old) (W.calls world.new) result }
    ensures same { W.names world.new ≡ W.names world.old }
{
    match program_in(alloc, file, world) {
        Err(stop) => Err(stop),
        Ok(Err(why)) => refuse(2, Note::Refused(why), world),
        Ok(Ok(program)) => write_derivation(alloc, &program.names, &program.derivation, world),
    }
}
