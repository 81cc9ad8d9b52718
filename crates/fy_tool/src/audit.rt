//! Images that are judged without their source.

ghost use Rattle.std.specs.Prelude.{◌≡◌, [], Some, Err, IfOk};
ghost use Rattle.fy_image.specs.Ranges.{IsImage};
ghost use Rattle.fy_words.specs.Order.{audit};
ghost use Rattle.fy_world.specs.Did.{IsOwn};
ghost use Rattle.fy_tool.specs.Answers.{Serves};
ghost use Rattle.fy_tool.specs.Audited.{Audits};
ghost use Rattle.fy_world.specs.Counted.{Counted};

use crate::exec::image_in;
use fy_audit::{AuditError, audit};
use fy_image::Image;
use fy_world::{Note, Stop, World, refuse, write};
use std::alloc::Global;

// Judges an image: writes that it is guarded, or tells the word at which it isn't.
fn audit_image<W: World>(alloc: Global, image: &Image, world: &mut W) -> Result<u8, Stop>
    requires { IsImage image.now }
    ensures audits { Audits image.now (W.holds world.old) (W.holds world.new) result }
    ensures own { IfOk result IsOwn }
    ensures counted { Counted [] [] (W.counts world.old) (W.counts world.new) result }
    ensures ready { result ≡ Err Stop.Memory → W.holds world.new ≡ W.holds world.old }
    ensures same { W.names world.new ≡ W.names world.old }
    ensures called { W.calls world.new ≡ W.calls world.old }
{
    match audit(alloc, image) {
        Ok(()) => write(b"audited\n", world),
        Err(AuditError::Unguarded(word)) => refuse(12, Note::Audit(word), world),
        Err(AuditError::OutOfMemory) => Err(Stop::Memory),
    }
}

/// Judges the image in a file.
pub(crate) fn audit_file<W: World>(alloc: Global, name: &str, world: &mut W) -> Result<u8, Stop>
    ensures serves { Serves (Some (audit name.now)) (W.holds world.old) (W.holds world.new) (W.counts world.old) (W.counts world.new) (W.calls world.old) (W.calls world.new) result }
    ensures same { W.names world.new ≡ W.names world.old }
{
    match image_in(alloc, name, world) {
        Err(stop) => Err(stop),
        Ok(Err(why)) => refuse(6, why, world),
        Ok(Ok(image)) => audit_image(alloc, &image, world),
    }
}
