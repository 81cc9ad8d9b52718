//! `unit`: a part of a program that is typed apart.

ghost use Rattle.std.specs.Prelude.{◌≡◌, ◌≤◌, [], ◌∷◌, length, Some, IfOk, IfErr, MatchResult};
ghost use Rattle.fy_base.specs.Outside.{once_fetched};
ghost use Rattle.fy_expand.specs.Judged.{most_text};
ghost use Rattle.fy_words.specs.Order.{unit};
ghost use Rattle.fy_world.specs.Counted.{Counted, IsReadStop};
ghost use Rattle.fy_tool.specs.Answers.{Serves};
ghost use Rattle.fy_tool.specs.Units.{IsNoUnit};
ghost use Rattle.fy_tool.specs.Working.{AreUnitBytes, Compiles};

use crate::texts::TEXT_LIMIT;
use fy_base::OutOfMemory;
use fy_front::{FrontError, Refusal};
use fy_link::{compile_unit, write_unit};
use fy_types::Names;
use fy_world::{Note, Stop, World, keep_bytes, refuse};
use std::alloc::Global;

// The bytes of the unit whose source the text is, or why it is none's.
fn unit_of(alloc: Global, text: &[u8]) -> Result<Result<Vec<u8>, Refusal>, Stop>
    requires { length text.now ≤ most_text }
    ensures unit { IfOk result (λ found. MatchResult found (λ bytes. AreUnitBytes text.now bytes.items) (IsNoUnit text.now)) }
    ensures memory { IfErr result (λ stop. stop ≡ Stop.Memory) }
{
    let mut names = match Names::new(alloc) {
        Ok(names) => names,
        Err(OutOfMemory) => return Err(Stop::Memory),
    };
    let unit = match compile_unit(alloc, &mut names, text) {
        Ok(unit) => unit,
        Err(FrontError::Refused(why)) => return Ok(Err(why)),
        Err(FrontError::OutOfMemory) => return Err(Stop::Memory),
    };
    match write_unit(alloc, &names, &unit) {
        Ok(bytes) => Ok(Ok(bytes)),
        Err(OutOfMemory) => Err(Stop::Memory),
    }
}

// The bytes of the unit whose source is in a file, or why there is none.
fn unit_in<W: World>(
    alloc: Global,
    file: &str,
    world: &mut W,
) -> Result<Result<Vec<u8>, Refusal>, Stop>
    ensures holds { W.holds world.new ≡ W.holds world.old }
    ensures compiles { Compiles file.now (W.holds world.old).files result }
    ensures counted { Counted (file.now ∷ []) [] (W.counts world.old) (W.counts world.new) result }
    ensures input { IfErr result IsReadStop }
    ensures same { W.names world.new ≡ W.names world.old }
    ensures called { W.calls world.new ≡ once_fetched (W.calls world.old) }
{
    let Some(text) = world.fetch(alloc, file, TEXT_LIMIT)? else {
        return Ok(Err(Refusal::Length));
    };
    let found = unit_of(alloc, text.as_slice())?;
    Ok(found)
}

/// Keeps the unit whose source is in a file under a name.
pub(crate) fn unit_file<W: World>(
    alloc: Global,
    file: &str,
    to: &str,
    world: &mut W,
) -> Result<u8, Stop>
    ensures serves { Serves (Some (unit file.now to.now)) (W.holds world.old) (W.holds world.new) (W.counts world.old) (W.counts world.new) (W.calls world.old) (W.calls world.new) result }
    ensures same { W.names world.new ≡ W.names world.old }
{
    match unit_in(alloc, file, world) {
        Err(stop) => Err(stop),
        Ok(Err(why)) => refuse(2, Note::Refused(why), world),
        Ok(Ok(bytes)) => keep_bytes(alloc, bytes.as_slice(), to, world),
    }
}
