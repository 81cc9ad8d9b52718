//! All passes of the front, in their order.

ghost use Rattle.std.specs.Prelude.{◌+◌, ◌≤◌, length, IfOk, IfErr};
ghost use Rattle.fy_grammar.specs.Program.{IsEnded};
ghost use Rattle.fy_phrase.specs.Reads.{reads};
ghost use Rattle.fy_phrase.specs.Sizes.{depth};
ghost use Rattle.fy_expand.specs.Judged.{most_text};
ghost use Rattle.fy_front.specs.Checked.{IsRefusedFor, IfRefused, IsCore, IsMeaningless, IsOfText, IsPhraseOf, IsUnjudged, IsUnjudgedFrom, Means};
ghost use Rattle.fy_lexer.specs.Tokens.{HasAdded};

use crate::error::FrontError;
use fy_derive::Derivation;
use fy_expand::expand;
use fy_grammar::parse;
use fy_least::find;
use fy_lexer::{Token, lex};
use fy_phrase::{Phrase, ShapeTable};
use fy_types::Names;
use pe_shapes::shapes_of;
use std::alloc::Global;

/// A core phrase, and the names of its text.
#[derive(Debug, Drop)]
pub struct Core {
    pub phrase: Phrase,
    pub names: Names,
}

/// What a text stands for: its core phrase, a derivation that this is a command, the table of the
/// derivation's demand shapes, and its names.
#[derive(Debug, Drop)]
pub struct Program {
    pub phrase: Phrase,
    pub derivation: Derivation,
    pub table: ShapeTable,
    pub names: Names,
}

/// The core phrase that a program of these tokens means.
///
/// # Errors
///
/// `Refused` where they are no program or it nests too deep, and where its expansion is refused, and
/// `OutOfMemory`.
pub fn phrase_of_tokens(alloc: Global, tokens: &[Token]) -> Result<Phrase, FrontError>
    requires { IsEnded tokens.now }
    ensures means { IfOk result (λ p. Means tokens.now (reads p)) }
    ensures shallow { IfOk result (λ p. depth (reads p) ≤ 1023) }
    ensures refused { IfErr result (IfRefused (IsMeaningless tokens.now)) }
{
    let tree = parse(alloc, tokens)?;
    let phrase = expand(alloc, &tree)?;
    Ok(phrase)
}

/// The core phrase of a text, whose names are numbered by the list, which gets those that are new. The
/// stages are its tokens, its syntax with its nesting, its expansion and the core limits.
///
/// # Errors
///
/// `Refused` as the first stage refuses that does, and `OutOfMemory`.
pub fn phrase_of(alloc: Global, names: &mut Names, text: &[u8]) -> Result<Phrase, FrontError>
    requires text { length text.now ≤ most_text }
    requires names { length names.old ≤ 3000000000 }
    ensures phrase { IfOk result (IsPhraseOf names.old text.now names.new) }
    ensures refused { IfErr result (IfRefused (IsUnjudgedFrom names.old text.now)) }
    ensures names { HasAdded names.old names.new }
    ensures few { length names.new ≤ length names.old + length text.now }
{
    let tokens = lex(alloc, names, text)?;
    let phrase = phrase_of_tokens(alloc, tokens.as_slice())?;
    Ok(phrase)
}

/// The core phrase of a text, with its names.
///
/// # Errors
///
/// As of `phrase_of`.
pub fn core_of(alloc: Global, text: &[u8]) -> Result<Core, FrontError>
    requires { length text.now ≤ most_text }
    ensures core { IfOk result (IsCore text.now) }
    ensures refused { IfErr result (IfRefused (IsUnjudged text.now)) }
{
    let mut names = Names::new(alloc)?;
    let phrase = phrase_of(alloc, &mut names, text)?;
    Ok(Core { phrase, names })
}

/// The program of a text: behind the stages of its core phrase come its typing with its limits, and the
/// limits on the demand shapes of the derivation that is found.
///
/// # Errors
///
/// `Refused` as the first stage refuses that does, and `OutOfMemory`.
pub fn program_of(alloc: Global, text: &[u8]) -> Result<Program, FrontError>
    requires { length text.now ≤ most_text }
    ensures program { IfOk result (IsOfText text.now) }
    ensures refused { IfErr result (IfRefused (IsRefusedFor text.now)) }
{
    let core = core_of(alloc, text)?;
    let derivation = find(alloc, &core.phrase)?;
    let table = shapes_of(alloc, &core.phrase, &derivation)?;
    Ok(Program {
        phrase: core.phrase,
        derivation,
        table,
        names: core.names,
    })
}
