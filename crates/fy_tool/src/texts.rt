//! Texts in files, and what they stand for.

ghost use Rattle.std.specs.Prelude.{◌≡◌, ◌≤◌, [], ◌∷◌, length, IfOk, IfErr, MatchResult};
ghost use Rattle.fy_base.specs.Outside.{once_fetched};
ghost use Rattle.fy_expand.specs.Judged.{most_text};
ghost use Rattle.fy_front.specs.Checked.{IsRefusedFor, IsCore, IsOfText, IsUnjudged};
ghost use Rattle.fy_world.specs.Counted.{Counted, IsReadStop};
ghost use Rattle.fy_tool.specs.Working.{Checks, ReadsSource};

use fy_front::{Core, FrontError, Program, Refusal, core_of, program_of};
use fy_world::{Stop, World};
use std::alloc::Global;

/// The most bytes that a text has.
pub(crate) const TEXT_LIMIT: usize = 1_048_576;

/// A text with its core phrase.
#[derive(Debug, Drop)]
pub(crate) struct Source {
    pub text: Vec<u8>,
    pub core: Core,
}

// The core phrase of a text, or why it has none.
fn core_from(alloc: Global, text: &[u8]) -> Result<Result<Core, Refusal>, Stop>
    requires { length text.now ≤ most_text }
    ensures core { IfOk result (λ found. MatchResult found (IsCore text.now) (IsUnjudged text.now)) }
    ensures memory { IfErr result (λ stop. stop ≡ Stop.Memory) }
{
    match core_of(alloc, text) {
        Ok(core) => Ok(Ok(core)),
        Err(FrontError::Refused(why)) => Ok(Err(why)),
        Err(FrontError::OutOfMemory) => Err(Stop::Memory),
    }
}

/// The text in a file with its core phrase, or why it has none. The stages are its length, its tokens,
/// its syntax with its nesting, its expansion and the core limits; the first that refuses is told.
pub(crate) fn source_in<W: World>(
    alloc: Global,
    file: &str,
    world: &mut W,
) -> Result<Result<Source, Refusal>, Stop>
    ensures holds { W.holds world.new ≡ W.holds world.old }
    ensures read { ReadsSource file.now (W.holds world.old).files result }
    ensures counted { Counted (file.now ∷ []) [] (W.counts world.old) (W.counts world.new) result }
    ensures input { IfErr result IsReadStop }
    ensures same { W.names world.new ≡ W.names world.old }
    ensures called { W.calls world.new ≡ once_fetched (W.calls world.old) }
{
    let Some(text) = world.fetch(alloc, file, TEXT_LIMIT)? else {
        return Ok(Err(Refusal::Length));
    };
    let found = core_from(alloc, text.as_slice())?;
    match found {
        Ok(core) => Ok(Ok(Source { text, core })),
        Err(why) => Ok(Err(why)),
    }
}

/// The program of a text, or why it is none.
pub(crate) fn program_from(alloc: Global, text: &[u8]) -> Result<Result<Program, Refusal>, Stop>
    requires { length text.now ≤ most_text }
    ensures checked { IfOk result (λ found. MatchResult found (IsOfText text.now) (IsRefusedFor text.now)) }
    ensures memory { IfErr result (λ stop. stop ≡ Stop.Memory) }
{
    match program_of(alloc, text) {
        Ok(program) => Ok(Ok(program)),
        Err(FrontError::Refused(why)) => Ok(Err(why)),
        Err(FrontError::OutOfMemory) => Err(Stop::Memory),
    }
}

/// The program of the text in a file, or why it is none.
pub(crate) fn program_in<W: World>(
    alloc: Global,
    file: &str,
    world: &mut W,
) -> Result<Result<Program, Refusal>, Stop>
    ensures holds { W.holds world.new ≡ W.holds world.old }
    ensures read { Checks file.now (W.holds world.old).files result }
    ensures counted { Counted (file.now ∷ []) [] (W.counts world.old) (W.counts world.new) result }
    ensures input { IfErr result IsReadStop }
    ensures same { W.names world.new ≡ W.names world.old }
    ensures called { W.calls world.new ≡ once_fetched (W.calls world.old) }
{
    let Some(text) = world.fetch(alloc, file, TEXT_LIMIT)? else {
        return Ok(Err(Refusal::Length));
    };
    let found = program_from(alloc, text.as_slice())?;
    Ok(found)
}
