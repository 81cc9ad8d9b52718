//! Lines at notes, and bytes at output.

ghost use Rattle.std.specs.Prelude.{◌≡◌, ◌≢◌, [], ◌∷◌, Err, OnOk, OnErr, IfOk, IfErr};
ghost use Rattle.fy_base.specs.Outside.{GainedPart, appended};
ghost use Rattle.fy_world.specs.Counted.{Counted};
ghost use Rattle.fy_world.specs.Note.{texts, ended_lines};
ghost use Rattle.fy_world.specs.Runs.{told, written};
ghost use Rattle.fy_world.specs.Did.{Did, IsOwn};

use crate::note::{Note, line_of};
use crate::world::{Stop, World};

/// Puts a line for each note.
pub fn tell<W: World>(notes: &[Note], world: &mut W) -> Result<(), Stop>
    ensures told { OnOk result (W.holds world.new ≡ record (W.holds world.old) { notes = appended (W.holds world.old).notes (ended_lines (texts notes.now)) }) }
    ensures rest { W.holds world.new ≡ record (W.holds world.old) { notes = (W.holds world.new).notes } }
    ensures part { OnErr result (GainedPart (W.holds world.old).notes (W.holds world.new).notes (ended_lines (texts notes.now))) }
    ensures stop { IfErr result (λ stop. stop ≡ Stop.Notes) }
    ensures untold { OnErr result (notes.now ≢ []) }
    ensures counted { Counted [] [] (W.counts world.old) (W.counts world.new) result }
    ensures same { W.names world.new ≡ W.names world.old }
    ensures called { W.calls world.new ≡ W.calls world.old }
{
    for note in notes {
        let line = line_of(*note);
        world.note(line.as_str().as_bytes())?;
    }
    Ok(())
}

/// A status that one note tells.
pub fn refuse<W: World>(status: u8, why: Note, world: &mut W) -> Result<u8, Stop>
    requires { IsOwn status }
    ensures did { Did (told status (why ∷ [])) (W.holds world.old) (W.holds world.new) result }
    ensures own { IfOk result IsOwn }
    ensures counted { Counted [] [] (W.counts world.old) (W.counts world.new) result }
    ensures memory { result ≢ Err Stop.Memory }
    ensures same { W.names world.new ≡ W.names world.old }
    ensures called { W.calls world.new ≡ W.calls world.old }
{
    match tell(&[why], world) {
        Ok(()) => Ok(status),
        Err(stop) => Err(stop),
    }
}

/// Writes bytes to output; where there are none, the output is left alone.
pub fn write<W: World>(bytes: &[u8], world: &mut W) -> Result<u8, Stop>
    ensures did { Did (written bytes.now) (W.holds world.old) (W.holds world.new) result }
    ensures own { IfOk result IsOwn }
    ensures counted { Counted [] [] (W.counts world.old) (W.counts world.new) result }
    ensures memory { result ≢ Err Stop.Memory }
    ensures same { W.names world.new ≡ W.names world.old }
    ensures called { W.calls world.new ≡ W.calls world.old }
{
    if bytes.is_empty() {
        return Ok(0);
    }
    match world.put(bytes) {
        Ok(()) => Ok(0),
        Err(stop) => Err(stop),
    }
}
