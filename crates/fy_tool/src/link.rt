//! `join` and `link`: units put together.

ghost use Rattle.std.specs.Prelude.{◌≡◌, ◌≤◌, ◌<◌, length, All, Some, IfOk, IfErr};
ghost use Rattle.fy_link.specs.Units.{IsUnit};
ghost use Rattle.fy_words.specs.Order.{IsStackInRange, join, link};
ghost use Rattle.fy_tool.specs.Answers.{Serves};
ghost use Rattle.fy_tool.specs.Units.{link_note};
ghost use Rattle.fy_tool.specs.Working.{CountsList, IsLinkedFrom, IsSomeLinked, LinksList, ShapesLinked};

use crate::build::build_program;
use crate::given::{TurnedDown, table_of};
use crate::listed::names_on;
use crate::objects::{Objects, objects_in};
use crate::wanted::stack_wanted;
use fy_base::OutOfMemory;
use fy_front::{Program, Refusal};
use fy_link::{LinkError, Linked, link};
use fy_types::Names;
use fy_world::{Note, Stop, Unlinked, World, keep_bytes, refuse};
use std::alloc::Global;

// The most bytes of a list, and one more.
const LIST_LIMIT: usize = 65_536;

/// Units put together, and the list of their names.
#[derive(Debug, Drop)]
pub(crate) struct Together {
    pub linked: Linked,
    pub names: Names,
}

// The status and the note of units that aren't linked.
fn unlinked(why: Unlinked) -> TurnedDown
    ensures { result ≡ record { status = 11; note = Note.Link why } }
{
    TurnedDown {
        status: 11,
        note: Note::Link(why),
    }
}

// The status and the note of units that aren't linked, or `None` where memory was wanting.
fn link_note(error: LinkError) -> Option<(u8, Note)>
    ensures { result ≡ link_note error }
{
    match error {
        LinkError::Double(unit) => Some((11, Note::Link(Unlinked::Double(unit)))),
        LinkError::Missing(unit) => Some((11, Note::Link(Unlinked::Missing(unit)))),
        LinkError::Interface(unit) => Some((11, Note::Link(Unlinked::Interface(unit)))),
        LinkError::NotMain => Some((11, Note::Link(Unlinked::Main))),
        LinkError::Text(why) => Some((2, Note::Refused(why))),
        LinkError::TooLarge => Some((11, Note::Link(Unlinked::Size))),
        LinkError::OutOfMemory => None,
    }
}

// The units put together, or why they aren't linked.
fn linked_of(alloc: Global, objects: Objects) -> Result<Result<Together, TurnedDown>, Stop>
    requires units { All (IsUnit objects.names) objects.units }
    requires some { 0 < length objects.units }
    requires few { length objects.units ≤ 64 }
    requires names { length objects.names ≤ 3000000000 }
    ensures linked { IfOk result (IsLinkedFrom objects) }
    ensures memory { IfErr result (λ stop. stop ≡ Stop.Memory) }
{
    let mut names = objects.names;
    match link(alloc, &mut names, &objects.units) {
        Ok(linked) => Ok(Ok(Together { linked, names })),
        Err(error) => match link_note(error) {
            Some(told) => Ok(Err(TurnedDown {
                status: told.0,
                note: told.1,
            })),
            None => Err(Stop::Memory),
        },
    }
}

// The units on the list in a file put together, or why they aren't linked.
fn linked_in<W: World>(
    alloc: Global,
    file: &str,
    world: &mut W,
) -> Result<Result<Together, TurnedDown>, Stop>
    ensures holds { W.holds world.new ≡ W.holds world.old }
    ensures links { LinksList file.now (W.holds world.old).files (W.calls world.old) (W.calls world.new) result }
    ensures counted { CountsList file.now (W.holds world.old).files (W.counts world.old) (W.counts world.new) (W.calls world.old) (W.calls world.new) result }
    ensures same { W.names world.new ≡ W.names world.old }
{
    let bytes = match world.fetch(alloc, file, LIST_LIMIT) {
        Ok(Some(bytes)) => bytes,
        Ok(None) => return Ok(Err(unlinked(Unlinked::List))),
        Err(stop) => return Err(stop),
    };
    let files = match names_on(alloc, bytes.as_slice()) {
        Ok(Some(files)) => files,
        Ok(None) => return Ok(Err(unlinked(Unlinked::List))),
        Err(OutOfMemory) => return Err(Stop::Memory),
    };
    match objects_in(alloc, &files, world) {
        Ok(Ok(objects)) => linked_of(alloc, objects),
        Ok(Err(unit)) => Ok(Err(unlinked(Unlinked::Object(unit)))),
        Err(stop) => Err(stop),
    }
}

// The program of units put together, or which limit the shapes of its derivation pass.
fn program_of(alloc: Global, together: Together) -> Result<Result<Program, Refusal>, Stop>
    requires { IsSomeLinked together.linked }
    ensures program { IfOk result (ShapesLinked together) }
    ensures memory { IfErr result (λ stop. stop ≡ Stop.Memory) }
{
    let linked = together.linked;
    match table_of(alloc, &linked.phrase, &linked.derivation) {
        Ok(Ok(table)) => Ok(Ok(Program {
            phrase: linked.phrase,
            derivation: linked.derivation,
            table,
            names: together.names,
        })),
        Ok(Err(why)) => Ok(Err(why)),
        Err(stop) => Err(stop),
    }
}

/// Keeps the joined text of the units on the list in a file under a name.
pub(crate) fn join_file<W: World>(
    alloc: Global,
    file: &str,
    to: &str,
    world: &mut W,
) -> Result<u8, Stop>
    ensures serves { Serves (Some (join file.now to.now)) (W.holds world.old) (W.holds world.new) (W.counts world.old) (W.counts world.new) (W.calls world.old) (W.calls world.new) result }
    ensures same { W.names world.new ≡ W.names world.old }
{
    match linked_in(alloc, file, world) {
        Err(stop) => Err(stop),
        Ok(Err(down)) => refuse(down.status, down.note, world),
        Ok(Ok(together)) => keep_bytes(alloc, together.linked.text.as_slice(), to, world),
    }
}

/// Links the units on the list in a file, and keeps the image under a name.
pub(crate) fn link_file<W: World>(
    alloc: Global,
    file: &str,
    to: &str,
    stack: Option<u32>,
    world: &mut W,
) -> Result<u8, Stop>
    requires { IsStackInRange stack }
    ensures serves { Serves (Some (link file.now to.now stack)) (W.holds world.old) (W.holds world.new) (W.counts world.old) (W.counts world.new) (W.calls world.old) (W.calls world.new) result }
    ensures same { W.names world.new ≡ W.names world.old }
{
    let together = match linked_in(alloc, file, world) {
        Err(stop) => return Err(stop),
        Ok(Err(down)) => return refuse(down.status, down.note, world),
        Ok(Ok(together)) => together,
    };
    match program_of(alloc, together) {
        Err(stop) => Err(stop),
        Ok(Err(why)) => refuse(2, Note::Refused(why), world),
        Ok(Ok(program)) => build_program(alloc, &program, to, stack_wanted(stack), world),
    }
}
