//! Derivations that are named, and the programs that they show to be commands.

ghost use Rattle.std.specs.Prelude.{◌≡◌, ◌≤◌, [], ◌∷◌, None, Some, length, IfOk, IfErr};
ghost use Rattle.std.specs.Option.{option_map, option_to_list};
ghost use Rattle.fy_derive.specs.Judging.{conclusion_of, refusal};
ghost use Rattle.fy_derive.specs.Limits.{KeepsLimits};
ghost use Rattle.fy_derive.specs.Reading.{plain_derivation};
ghost use Rattle.fy_phrase.specs.Reads.{reads};
ghost use Rattle.fy_phrase.specs.Sizes.{nodes};
ghost use Rattle.fy_world.specs.Counted.{Counted, IsReadStop};
ghost use Rattle.fy_tool.specs.Working.{ChecksGiven, GivenBy, ReadFrom, Tables, WasUngiven};

use crate::texts::{program_in, source_in};
use fy_derive::{Derivation, DeriveError, check};
use fy_front::{Core, Program, Refusal, shapes_refusal};
use fy_phrase::{Phrase, ShapeTable};
use fy_read::read_derivation;
use fy_types::Names;
use fy_world::{Note, Stop, World, read_note};
use pe_shapes::shapes_of;
use std::alloc::Global;

/// The most bytes that the text of a derivation has.
pub(crate) const WRITTEN_LIMIT: usize = 16_777_216;

/// With which status and note a text is turned down, or the derivation that is named for it.
#[derive(Clone, Copy, PartialEq, Eq, Debug)]
pub(crate) struct TurnedDown {
    pub status: u8,
    pub note: Note,
}

/// The derivation that is written, or why there is none. The names get those of its fields that are new.
pub(crate) fn read_named(
    alloc: Global,
    names: &mut Names,
    written: &[u8],
) -> Result<Result<Derivation, Note>, Stop>
    requires few { length names.old ≤ 4000000000 }
    requires short { length written.now ≤ 16777216 }
    ensures read { IfOk result (ReadFrom names.old names.new written.now) }
    ensures memory { IfErr result (λ stop. stop ≡ Stop.Memory) }
{
    match read_derivation(alloc, names, written) {
        Ok(derivation) => Ok(Ok(derivation)),
        Err(error) => match read_note(error) {
            Some(why) => Ok(Err(why)),
            None => Err(Stop::Memory),
        },
    }
}

/// The node of a derivation at which judging stops, if it does.
pub(crate) fn stop_of(
    alloc: Global,
    phrase: &Phrase,
    derivation: &Derivation,
) -> Result<Option<u32>, Stop>
    requires { KeepsLimits (plain_derivation derivation.now) }
    ensures node { IfOk result (λ node. refusal (conclusion_of (reads phrase.now) (plain_derivation derivation.now)) ≡ node) }
    ensures memory { IfErr result (λ stop. stop ≡ Stop.Memory) }
{
    match check(alloc, phrase, derivation) {
        Ok(()) => Ok(None),
        Err(DeriveError::Wrong(node)) => Ok(Some(node)),
        Err(DeriveError::OutOfMemory) => Err(Stop::Memory),
    }
}

/// The table of the demand shapes of a derivation that is accepted, or which limit they pass.
pub(crate) fn table_of(
    alloc: Global,
    phrase: &Phrase,
    derivation: &Derivation,
) -> Result<Result<ShapeTable, Refusal>, Stop>
    requires nodes { nodes (reads phrase.now) ≤ 65536 }
    requires limits { KeepsLimits (plain_derivation derivation.now) }
    requires accepted { refusal (conclusion_of (reads phrase.now) (plain_derivation derivation.now)) ≡ None }
    ensures table { IfOk result (Tables (reads phrase.now) (plain_derivation derivation.now)) }
    ensures memory { IfErr result (λ stop. stop ≡ Stop.Memory) }
{
    match shapes_of(alloc, phrase, derivation) {
        Ok(table) => Ok(Ok(table)),
        Err(error) => match shapes_refusal(error) {
            Some(why) => Ok(Err(why)),
            None => Err(Stop::Memory),
        },
    }
}

// The core phrase of a text with the derivation that is written, or why there is none.
fn given_by(alloc: Global, core: Core, written: &[u8]) -> Result<Result<Program, TurnedDown>, Stop>
    requires few { length core.names ≤ 4000000000 }
    requires nodes { nodes (reads core.phrase) ≤ 65536 }
    requires short { length written.now ≤ 16777216 }
    ensures given { IfOk result (GivenBy core written.now) }
    ensures memory { IfErr result (λ stop. stop ≡ Stop.Memory) }
{
    let mut names = core.names;
    let derivation = match read_named(alloc, &mut names, written) {
        Ok(Ok(derivation)) => derivation,
        Ok(Err(note)) => return Ok(Err(TurnedDown { status: 8, note })),
        Err(stop) => return Err(stop),
    };
    match stop_of(alloc, &core.phrase, &derivation) {
        Ok(None) => {}
        Ok(Some(node)) => {
            let note = Note::DerivationNode(node);
            return Ok(Err(TurnedDown { status: 8, note }));
        }
        Err(stop) => return Err(stop),
    }
    match table_of(alloc, &core.phrase, &derivation) {
        Ok(Ok(table)) => Ok(Ok(Program {
            phrase: core.phrase,
            derivation,
            table,
            names,
        })),
        Ok(Err(why)) => Ok(Err(TurnedDown {
            status: 2,
            note: Note::Refused(why),
        })),
        Err(stop) => Err(stop),
    }
}

// The program of the text in a file by the derivation in another, or why there is none.
fn named_in<W: World>(
    alloc: Global,
    file: &str,
    name: &str,
    world: &mut W,
) -> Result<Result<Program, TurnedDown>, Stop>
    ensures holds { W.holds world.new ≡ W.holds world.old }
    ensures given { ChecksGiven file.now (Some name.now) (W.holds world.old).files (W.calls world.old) (W.calls world.new) result }
    ensures counted { Counted (file.now ∷ name.now ∷ []) [] (W.counts world.old) (W.counts world.new) result }
    ensures stopped { IfErr result (WasUngiven file.now (Some name.now) (W.holds world.old).files (W.counts world.old) (W.counts world.new) (W.calls world.old) (W.calls world.new)) }
    ensures input { IfErr result IsReadStop }
    ensures same { W.names world.new ≡ W.names world.old }
{
    let source = match source_in(alloc, file, world) {
        Ok(Ok(source)) => source,
        Ok(Err(why)) => {
            return Ok(Err(TurnedDown {
                status: 2,
                note: Note::Refused(why),
            }));
        }
        Err(stop) => return Err(stop),
    };
    let written = match world.fetch(alloc, name, WRITTEN_LIMIT) {
        Ok(Some(written)) => written,
        Ok(None) => {
            return Ok(Err(TurnedDown {
                status: 8,
                note: Note::DerivationLength,
            }));
        }
        Err(stop) => return Err(stop),
    };
    given_by(alloc, source.core, written.as_slice())
}

// The program of the text in a file by a derivation that is found, or why there is none.
fn found_in<W: World>(
    alloc: Global,
    file: &str,
    world: &mut W,
) -> Result<Result<Program, TurnedDown>, Stop>
    ensures holds { W.holds world.new ≡ W.holds world.old }
    ensures given { ChecksGiven file.now None (W.holds world.old).files (W.calls world.old) (W.calls world.new) result }
    ensures counted { Counted (file.now ∷ []) [] (W.counts world.old) (W.counts world.new) result }
    ensures stopped { IfErr result (WasUngiven file.now None (W.holds world.old).files (W.counts world.old) (W.counts world.new) (W.calls world.old) (W.calls world.new)) }
    ensures input { IfErr result IsReadStop }
    ensures same { W.names world.new ≡ W.names world.old }
{
    match program_in(alloc, file, world) {
        Ok(Ok(program)) => Ok(Ok(program)),
        Ok(Err(why)) => Ok(Err(TurnedDown {
            status: 2,
            note: Note::Refused(why),
        })),
        Err(stop) => Err(stop),
    }
}

/// The program of the text in a file by the derivation that is named, or else by one that is found; or
/// why there is none. The stages are those of the core phrase, the named derivation's own, or those of
/// typing, and the limits on the derivation's shapes.
pub(crate) fn given_in<W: World>(
    alloc: Global,
    file: &str,
    named: Option<&str>,
    world: &mut W,
) -> Result<Result<Program, TurnedDown>, Stop>
    ensures holds { W.holds world.new ≡ W.holds world.old }
    ensures given { ChecksGiven file.now (option_map (λ name. name.now) named.entry) (W.holds world.old).files (W.calls world.old) (W.calls world.new) result }
    ensures counted { Counted (file.now ∷ option_to_list (option_map (λ name. name.now) named.entry)) [] (W.counts world.old) (W.counts world.new) result }
    ensures stopped { IfErr result (WasUngiven file.now (option_map (λ name. name.now) named.entry) (W.holds world.old).files (W.counts world.old) (W.counts world.new) (W.calls world.old) (W.calls world.new)) }
    ensures input { IfErr result IsReadStop }
    ensures same { W.names world.new ≡ W.names world.old }
{
    match named {
        Some(name) => named_in(alloc, file, name, world),
        None => found_in(alloc, file, world),
    }
}
