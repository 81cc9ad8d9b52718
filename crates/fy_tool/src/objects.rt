//! Units in files, one after another.

ghost use Rattle.std.specs.Prelude.{◌≡◌, ◌≤◌, ◌+◌, [], ◌∷◌, length, map, IfOk, IfErr};
ghost use Rattle.fy_base.specs.Outside.{once_fetched};
ghost use Rattle.fy_lexer.specs.Tokens.{HasAdded};
ghost use Rattle.fy_world.specs.Counted.{Counted, IsReadStop};
ghost use Rattle.fy_tool.specs.Working.{CallsObjects, ReadsObject, ReadsObjects, StopsObjects};

use fy_base::OutOfMemory;
use fy_link::{Unit, UnitList, UnitReadError, read_unit};
use fy_types::Names;
use fy_world::{Stop, World};
use std::alloc::Global;

// The most bytes of the file of a unit.
const OBJECT_LIMIT: usize = 20_000_000;

/// Units, and the list of their names.
#[derive(Debug, Drop)]
pub(crate) struct Objects {
    pub units: UnitList,
    pub names: Names,
}

// The unit in a file, if its bytes aren't too many and are one's.
fn object_in<W: World>(
    alloc: Global,
    names: &mut Names,
    file: &str,
    world: &mut W,
) -> Result<Option<Unit>, Stop>
    requires { length names.old ≤ 3000000000 }
    ensures holds { W.holds world.new ≡ W.holds world.old }
    ensures read { IfOk result (ReadsObject file.now (W.holds world.old).files names.old names.new) }
    ensures names { HasAdded names.old names.new }
    ensures few { length names.new ≤ length names.old + 20000000 }
    ensures counted { Counted (file.now ∷ []) [] (W.counts world.old) (W.counts world.new) result }
    ensures input { IfErr result IsReadStop }
    ensures same { W.names world.new ≡ W.names world.old }
    ensures called { W.calls world.new ≡ once_fetched (W.calls world.old) }
{
    let bytes = match world.fetch(alloc, file, OBJECT_LIMIT) {
        Ok(Some(bytes)) => bytes,
        Ok(None) => return Ok(None),
        Err(stop) => return Err(stop),
    };
    match read_unit(alloc, names, bytes.as_slice()) {
        Ok(unit) => Ok(Some(unit)),
        Err(UnitReadError::BadUnit) => Ok(None),
        Err(UnitReadError::OutOfMemory) => Err(Stop::Memory),
    }
}

/// The units in the files with these names, or the number of the first that holds none.
pub(crate) fn objects_in<W: World>(
    alloc: Global,
    files: &[&str],
    world: &mut W,
) -> Result<Result<Objects, u32>, Stop>
    requires { length files.now ≤ 64 }
    ensures holds { W.holds world.new ≡ W.holds world.old }
    ensures read { IfOk result (ReadsObjects (map (λ file. file.now) files.now) (W.holds world.old).files) }
    ensures counted { Counted (map (λ file. file.now) files.now) [] (W.counts world.old) (W.counts world.new) result }
    ensures stopped { IfErr result (StopsObjects (map (λ file. file.now) files.now) (W.holds world.old).files (W.counts world.old) (W.counts world.new) (W.calls world.old) (W.calls world.new)) }
    ensures input { IfErr result IsReadStop }
    ensures same { W.names world.new ≡ W.names world.old }
    ensures called { CallsObjects (W.calls world.old) (W.calls world.new) result }
{
    let mut names = match Names::new(alloc) {
        Ok(names) => names,
        Err(OutOfMemory) => return Err(Stop::Memory),
    };
    let mut units = Vec::new(alloc);
    for file in files {
        let unit = match object_in(alloc, &mut names, file, world) {
            Ok(Some(unit)) => unit,
            Ok(None) => return Ok(Err(units.as_slice().len() as u32)),
            Err(stop) => return Err(stop),
        };
        match units.push(unit) {
            Ok(()) => {}
            Err(_) => return Err(Stop::Memory),
        }
    }
    Ok(Ok(Objects {
        units: UnitList::from_vec(units),
        names,
    }))
}
