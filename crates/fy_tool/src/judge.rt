//! `judge`: whether a derivation shows that a text is a program, and else why not.

ghost use Rattle.std.specs.Prelude.{◌≡◌, ◌≢◌, ◌≤◌, [], ◌∷◌, None, Some, Err, length, IfOk, IfErr};
ghost use Rattle.fy_derive.specs.Judging.{conclusion_of, refusal};
ghost use Rattle.fy_derive.specs.Limits.{KeepsLimits};
ghost use Rattle.fy_derive.specs.Reading.{plain_derivation};
ghost use Rattle.fy_expand.specs.Judged.{most_text};
ghost use Rattle.fy_front.specs.Checked.{IfRefused, IsCore, IsUnjudged};
ghost use Rattle.fy_phrase.specs.Reads.{reads};
ghost use Rattle.fy_phrase.specs.Sizes.{nodes};
ghost use Rattle.fy_reasons.specs.Reasons.{reason_of};
ghost use Rattle.fy_told.specs.ReasonTexts.{source_names, told_of};
ghost use Rattle.fy_words.specs.Order.{judge};
ghost use Rattle.fy_world.specs.Counted.{Counted, IsReadStop};
ghost use Rattle.fy_world.specs.Did.{Did, IsOwn};
ghost use Rattle.fy_tool.specs.Answers.{Serves};
ghost use Rattle.fy_tool.specs.Given.{HasBinders};
ghost use Rattle.fy_tool.specs.Due.{lined};
ghost use Rattle.fy_tool.specs.Working.{Judges, JudgesFor, JudgesUnder, JudgesWritten, WasUngiven};

use crate::given::{TurnedDown, WRITTEN_LIMIT, read_named, stop_of, table_of};
use crate::texts::{Source, source_in};
use fy_base::{OutOfMemory, Place, Text};
use fy_derive::Derivation;
use fy_front::{Core, FrontError};
use fy_grammar::parse;
use fy_lexer::lex;
use fy_phrase::Phrase;
use fy_show::{Binder, KnownNames, program_binders};
use fy_told::print_refusal;
use fy_types::Names;
use fy_world::{Note, Stop, World, refuse, tell, write};
use std::alloc::Global;

/// What judging comes to of the derivation that is named for a text.
#[derive(Debug, Drop)]
pub(crate) enum Judgement {
    Accepted,
    /// The text is turned down, or the derivation, but for a node.
    Down(TurnedDown),
    /// Judging stops at a node, and the lines tell why.
    Stopped { node: u32, lines: Text },
}

/// The names that a text gives its binders, where its phrase stands at that place.
pub(crate) fn binders_of(alloc: Global, at: Place, text: &[u8]) -> Result<Vec<Binder>, FrontError>
    requires { length text.now ≤ most_text }
    ensures binders { IfOk result (λ made. HasBinders text.now at made.items) }
    ensures refused { IfErr result (IfRefused (IsUnjudged text.now)) }
{
    let mut names = Names::new(alloc)?;
    let tokens = lex(alloc, &mut names, text)?;
    let tree = parse(alloc, tokens.as_slice())?;
    let binders = program_binders(alloc, at, &tree)?;
    Ok(binders)
}

// Why judging of a derivation stops for a phrase, with these names.
fn lines_of(
    alloc: Global,
    names: &Names,
    binders: &[Binder],
    phrase: &Phrase,
    derivation: &Derivation,
) -> Result<Text, Stop>
    requires { KeepsLimits (plain_derivation derivation.now) }
    ensures lines { IfOk result (λ text. text ≡ told_of (source_names names.now binders.now) (plain_derivation derivation.now) (reads phrase.now)
        (reason_of (plain_derivation derivation.now) (reads phrase.now))) }
    ensures memory { IfErr result (λ stop. stop ≡ Stop.Memory) }
{
    let known = KnownNames { names, binders };
    match print_refusal(alloc, &known, phrase, derivation) {
        Ok(text) => Ok(text),
        Err(OutOfMemory) => Err(Stop::Memory),
    }
}

// What judging comes to where it stops at a node.
fn stopped_at(
    alloc: Global,
    text: &[u8],
    phrase: &Phrase,
    names: &Names,
    derivation: &Derivation,
    node: u32,
) -> Result<Judgement, Stop>
    requires short { length text.now ≤ most_text }
    requires limits { KeepsLimits (plain_derivation derivation.now) }
    requires stops { refusal (conclusion_of (reads phrase.now) (plain_derivation derivation.now)) ≡ Some node }
    ensures judged { IfOk result (JudgesUnder text.now names.now (reads phrase.now) (plain_derivation derivation.now)) }
    ensures memory { IfErr result (λ stop. stop ≡ Stop.Memory) }
{
    let binders = match binders_of(alloc, phrase.place(), text) {
        Ok(binders) => binders,
        Err(FrontError::Refused(why)) => {
            return Ok(Judgement::Down(TurnedDown {
                status: 2,
                note: Note::Refused(why),
            }));
        }
        Err(FrontError::OutOfMemory) => return Err(Stop::Memory),
    };
    match lines_of(alloc, names, binders.as_slice(), phrase, derivation) {
        Ok(lines) => Ok(Judgement::Stopped { node, lines }),
        Err(stop) => Err(stop),
    }
}

// What judging comes to where it doesn't stop: the derivation's demand shapes may pass a limit.
fn accepted_for(alloc: Global, phrase: &Phrase, derivation: &Derivation) -> Result<Judgement, Stop>
    requires nodes { nodes (reads phrase.now) ≤ 65536 }
    requires limits { KeepsLimits (plain_derivation derivation.now) }
    requires accepted { refusal (conclusion_of (reads phrase.now) (plain_derivation derivation.now)) ≡ None }
    ensures judged { IfOk result (JudgesFor (reads phrase.now) (plain_derivation derivation.now)) }
    ensures memory { IfErr result (λ stop. stop ≡ Stop.Memory) }
{
    match table_of(alloc, phrase, derivation) {
        Ok(Ok(_)) => Ok(Judgement::Accepted),
        Ok(Err(why)) => Ok(Judgement::Down(TurnedDown {
            status: 2,
            note: Note::Refused(why),
        })),
        Err(stop) => Err(stop),
    }
}

// What judging comes to of the derivation that is written for a text with that core phrase.
fn judgement_of(alloc: Global, text: &[u8], core: Core, written: &[u8]) -> Result<Judgement, Stop>
    requires core { IsCore text.now core }
    requires text { length text.now ≤ most_text }
    requires short { length written.now ≤ 16777216 }
    ensures judged { IfOk result (JudgesWritten text.now written.now) }
    ensures memory { IfErr result (λ stop. stop ≡ Stop.Memory) }
{
    let mut names = core.names;
    let derivation = match read_named(alloc, &mut names, written) {
        Ok(Ok(derivation)) => derivation,
        Ok(Err(note)) => return Ok(Judgement::Down(TurnedDown { status: 8, note })),
        Err(stop) => return Err(stop),
    };
    match stop_of(alloc, &core.phrase, &derivation) {
        Ok(None) => accepted_for(alloc, &core.phrase, &derivation),
        Ok(Some(node)) => stopped_at(alloc, text, &core.phrase, &names, &derivation, node),
        Err(stop) => Err(stop),
    }
}

// What judging comes to of the derivation in a file for the text in another.
fn judgement_in<W: World>(
    alloc: Global,
    file: &str,
    name: &str,
    world: &mut W,
) -> Result<Judgement, Stop>
    ensures holds { W.holds world.new ≡ W.holds world.old }
    ensures judged { Judges file.now name.now (W.holds world.old).files (W.calls world.old) (W.calls world.new) result }
    ensures counted { Counted (file.now ∷ name.now ∷ []) [] (W.counts world.old) (W.counts world.new) result }
    ensures stopped { IfErr result (WasUngiven file.now (Some name.now) (W.holds world.old).files (W.counts world.old) (W.counts world.new) (W.calls world.old) (W.calls world.new)) }
    ensures input { IfErr result IsReadStop }
    ensures same { W.names world.new ≡ W.names world.old }
{
    let source = match source_in(alloc, file, world) {
        Ok(Ok(source)) => source,
        Ok(Err(why)) => {
            return Ok(Judgement::Down(TurnedDown {
                status: 2,
                note: Note::Refused(why),
            }));
        }
        Err(stop) => return Err(stop),
    };
    let written = match world.fetch(alloc, name, WRITTEN_LIMIT) {
        Ok(Some(written)) => written,
        Ok(None) => {
            return Ok(Judgement::Down(TurnedDown {
                status: 8,
                note: Note::DerivationLength,
            }));
        }
        Err(stop) => return Err(stop),
    };
    let Source { text, core } = source;
    judgement_of(alloc, text.as_slice(), core, written.as_slice())
}

/// Writes lines, and tells the note above them and a status.
pub(crate) fn tell_lines<W: World>(
    status: u8,
    why: Note,
    lines: &[u8],
    world: &mut W,
) -> Result<u8, Stop>
    requires own { IsOwn status }
    requires some { lines.now ≢ [] }
    ensures did { Did (lined status why lines.now) (W.holds world.old) (W.holds world.new) result }
    ensures own { IfOk result IsOwn }
    ensures counted { Counted [] [] (W.counts world.old) (W.counts world.new) result }
    ensures memory { result ≢ Err Stop.Memory }
    ensures same { W.names world.new ≡ W.names world.old }
    ensures called { W.calls world.new ≡ W.calls world.old }
{
    match world.put(lines) {
        Ok(()) => {}
        Err(stop) => return Err(stop),
    }
    match tell(&[why], world) {
        Ok(()) => Ok(status),
        Err(stop) => Err(stop),
    }
}

/// Judges the derivation in a file for the text in another.
pub(crate) fn judge_file<W: World>(
    alloc: Global,
    file: &str,
    name: &str,
    world: &mut W,
) -> Result<u8, Stop>
    ensures serves { Serves (Some (judge file.now name.now)) (W.holds world.old) (W.holds world.new) (W.counts world.old) (W.counts world.new) (W.calls world.old) (W.calls world.new) result }
    ensures same { W.names world.new ≡ W.names world.old }
{
    match judgement_in(alloc, file, name, world) {
        Err(stop) => Err(stop),
        Ok(Judgement::Down(down)) => refuse(down.status, down.note, world),
        Ok(Judgement::Stopped { node, lines }) => {
            tell_lines(8, Note::DerivationNode(node), lines.as_slice(), world)
        }
        Ok(Judgement::Accepted) => write(b"accepted\n", world),
    }
}
