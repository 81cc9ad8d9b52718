//! `why`: whether a text is a program, and why it has no type.

ghost use Rattle.std.specs.Prelude.{◌≡◌, ◌≤◌, [], ◌∷◌, length, IfOk, IfErr};
ghost use Rattle.fy_base.specs.Outside.{once_fetched};
ghost use Rattle.fy_expand.specs.Judged.{most_text};
ghost use Rattle.fy_front.specs.Checked.{IfRefused, IsUnjudged};
ghost use Rattle.fy_words.specs.Order.{width_wanted, why};
ghost use Rattle.fy_world.specs.Counted.{Counted, IsReadStop};
ghost use Rattle.fy_tool.specs.Answers.{Serves};
ghost use Rattle.fy_tool.specs.Working.{Explains, ExplainsText, TellsWhy, untyped_at as untyped_at_of};

use crate::judge::{binders_of, tell_lines};
use crate::texts::{TEXT_LIMIT, program_from};
use fy_base::{Place, Text};
use fy_front::{FrontError, Refusal, core_of};
use fy_show::KnownNames;
use fy_why::print_why;
use fy_world::{Note, Stop, World, refuse, write};
use std::alloc::Global;

/// What is told of a text.
#[derive(Debug, Drop)]
pub(crate) enum Telling {
    Accepted,
    /// A stage other than the type refuses the text.
    Refused(Refusal),
    /// It has no type, and the lines tell why.
    Untyped { place: Place, lines: Text },
}

// The place of a phrase that has no type, if that is why the text is refused.
fn untyped_at(why: &Refusal) -> Option<Place>
    ensures { result ≡ untyped_at_of why.now }
{
    match why {
        Refusal::NoType(place) => Some(*place),
        _ => None,
    }
}

// What `why` tells of the phrase of a text, with phrases of so many bytes.
fn lines_of(alloc: Global, text: &[u8], width: usize) -> Result<Text, FrontError>
    requires { length text.now ≤ most_text }
    ensures lines { IfOk result (λ lines. TellsWhy text.now width lines) }
    ensures refused { IfErr result (IfRefused (IsUnjudged text.now)) }
{
    let core = core_of(alloc, text)?;
    let binders = binders_of(alloc, core.phrase.place(), text)?;
    let known = KnownNames {
        names: &core.names,
        binders: binders.as_slice(),
    };
    let lines = print_why(alloc, &known, width, &core.phrase)?;
    Ok(lines)
}

// What is told of a text, with phrases of so many bytes.
fn telling_of(alloc: Global, text: &[u8], width: usize) -> Result<Telling, Stop>
    requires { length text.now ≤ most_text }
    ensures told { IfOk result (ExplainsText text.now width) }
    ensures memory { IfErr result (λ stop. stop ≡ Stop.Memory) }
{
    let found = program_from(alloc, text)?;
    let why = match found {
        Ok(_) => return Ok(Telling::Accepted),
        Err(why) => why,
    };
    let Some(place) = untyped_at(&why) else {
        return Ok(Telling::Refused(why));
    };
    match lines_of(alloc, text, width) {
        Ok(lines) => Ok(Telling::Untyped { place, lines }),
        Err(FrontError::Refused(why)) => Ok(Telling::Refused(why)),
        Err(FrontError::OutOfMemory) => Err(Stop::Memory),
    }
}

// What is told of the text in a file.
fn telling_in<W: World>(
    alloc: Global,
    file: &str,
    width: usize,
    world: &mut W,
) -> Result<Telling, Stop>
    ensures holds { W.holds world.new ≡ W.holds world.old }
    ensures told { Explains file.now width (W.holds world.old).files result }
    ensures counted { Counted (file.now ∷ []) [] (W.counts world.old) (W.counts world.new) result }
    ensures input { IfErr result IsReadStop }
    ensures same { W.names world.new ≡ W.names world.old }
    ensures called { W.calls world.new ≡ once_fetched (W.calls world.old) }
{
    let Some(text) = world.fetch(alloc, file, TEXT_LIMIT)? else {
        return Ok(Telling::Refused(Refusal::Length));
    };
    let told = telling_of(alloc, text.as_slice(), width)?;
    Ok(told)
}

// The bytes of a phrase, where an option says it.
fn width_of(width: Option<u32>) -> usize
    ensures { result ≡ width_wanted width }
{
    match width {
        None => 78,
        Some(bytes) => bytes as usize,
    }
}

/// Tells why the text in a file has no type.
pub(crate) fn why_file<W: World>(
    alloc: Global,
    file: &str,
    width: Option<u32>,
    world: &mut W,
) -> Result<u8, Stop>
    ensures serves { Serves (Some (why file.now width)) (W.holds world.old) (W.holds world.new) (W.counts world.old) (W.counts world.new) (W.calls world.old) (W.calls world.new) result }
    ensures same { W.names world.new ≡ W.names world.old }
{
    match telling_in(alloc, file, width_of(width), world) {
        Err(stop) => Err(stop),
        Ok(Telling::Accepted) => write(b"accepted\n", world),
        Ok(Telling::Refused(why)) => refuse(2, Note::Refused(why), world),
        Ok(Telling::Untyped { place, lines }) => {
            let why = Note::Refused(Refusal::NoType(place));
            tell_lines(2, why, lines.as_slice(), world)
        }
    }
}
