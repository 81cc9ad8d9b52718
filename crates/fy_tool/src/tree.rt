//! `tree`: a derivation of a text as a tree.

ghost use Rattle.std.specs.Prelude.{◌≡◌, ◌≤◌, [], ◌∷◌, None, Some, length, IfOk, IfErr};
ghost use Rattle.std.specs.Option.{option_map, option_to_list};
ghost use Rattle.fy_derive.specs.Judging.{conclusion_of, refusal};
ghost use Rattle.fy_derive.specs.Limits.{KeepsLimits};
ghost use Rattle.fy_derive.specs.Reading.{plain_derivation};
ghost use Rattle.fy_expand.specs.Judged.{most_text};
ghost use Rattle.fy_front.specs.Checked.{IsCore};
ghost use Rattle.fy_phrase.specs.Reads.{reads};
ghost use Rattle.fy_phrase.specs.Sizes.{nodes};
ghost use Rattle.fy_words.specs.Order.{levels_wanted, line_wanted, tree};
ghost use Rattle.fy_world.specs.Counted.{Counted, IsReadStop};
ghost use Rattle.fy_tool.specs.Answers.{Serves};
ghost use Rattle.fy_tool.specs.Given.{form_of as form_wanted};
ghost use Rattle.fy_tool.specs.Working.{Draws, DrawsFor, DrawsUnder, DrawsWritten, IsDrawing, WasUngiven, drawing_wanted, tree_shown};

use crate::given::{TurnedDown, WRITTEN_LIMIT, read_named, stop_of, table_of};
use crate::judge::binders_of;
use crate::texts::{Source, TEXT_LIMIT, program_from, source_in};
use fy_base::{OutOfMemory, Text};
use fy_derive::Derivation;
use fy_front::{Core, FrontError, Refusal};
use fy_phrase::Phrase;
use fy_show::{Binder, KnownNames};
use fy_tree::{Form, Style, print_tree};
use fy_types::Names;
use fy_world::{Note, Stop, World, refuse, write};
use std::alloc::Global;

/// What is drawn: in which form and width, below which node, and down to how many levels.
#[derive(Clone, Copy, Debug)]
pub(crate) struct Drawing {
    pub style: Style,
    pub node: Option<u32>,
    pub levels: u32,
}

/// What drawing a derivation comes to.
#[derive(Debug, Drop)]
pub(crate) enum Drawn {
    /// The text is turned down, or the derivation.
    Down(TurnedDown),
    Lines(Text),
}

// The lines of a derivation, with these names.
fn lines_of(
    alloc: Global,
    names: &Names,
    binders: &[Binder],
    phrase: &Phrase,
    derivation: &Derivation,
    drawing: Drawing,
) -> Result<Text, Stop>
    requires { KeepsLimits (plain_derivation derivation.now) }
    ensures lines { IfOk result (λ text. text ≡ tree_shown names.now binders.now drawing (plain_derivation derivation.now) (reads phrase.now)) }
    ensures memory { IfErr result (λ stop. stop ≡ Stop.Memory) }
{
    let known = KnownNames { names, binders };
    match print_tree(
        alloc,
        &known,
        drawing.style,
        drawing.node,
        drawing.levels,
        phrase,
        derivation,
    ) {
        Ok(text) => Ok(text),
        Err(OutOfMemory) => Err(Stop::Memory),
    }
}

// What drawing comes to of a derivation in use for the phrase of a text.
fn drawn_under(
    alloc: Global,
    text: &[u8],
    phrase: &Phrase,
    names: &Names,
    derivation: &Derivation,
    drawing: Drawing,
) -> Result<Drawn, Stop>
    requires short { length text.now ≤ most_text }
    requires limits { KeepsLimits (plain_derivation derivation.now) }
    ensures drawn { IfOk result (DrawsUnder text.now names.now drawing (reads phrase.now) (plain_derivation derivation.now)) }
    ensures memory { IfErr result (λ stop. stop ≡ Stop.Memory) }
{
    let binders = match binders_of(alloc, phrase.place(), text) {
        Ok(binders) => binders,
        Err(FrontError::Refused(why)) => {
            return Ok(Drawn::Down(TurnedDown {
                status: 2,
                note: Note::Refused(why),
            }));
        }
        Err(FrontError::OutOfMemory) => return Err(Stop::Memory),
    };
    match lines_of(
        alloc,
        names,
        binders.as_slice(),
        phrase,
        derivation,
        drawing,
    ) {
        Ok(lines) => Ok(Drawn::Lines(lines)),
        Err(stop) => Err(stop),
    }
}

// Of the derivation that is found for a text.
fn drawn_found(alloc: Global, text: &[u8], drawing: Drawing) -> Result<Drawn, Stop>
    requires { length text.now ≤ most_text }
    ensures drawn { IfOk result (IsDrawing text.now None None drawing) }
    ensures memory { IfErr result (λ stop. stop ≡ Stop.Memory) }
{
    match program_from(alloc, text) {
        Ok(Ok(program)) => drawn_under(
            alloc,
            text,
            &program.phrase,
            &program.names,
            &program.derivation,
            drawing,
        ),
        Ok(Err(why)) => Ok(Drawn::Down(TurnedDown {
            status: 2,
            note: Note::Refused(why),
        })),
        Err(stop) => Err(stop),
    }
}

// Of one that is written and accepted: its demand shapes may pass a limit.
fn drawn_for(
    alloc: Global,
    text: &[u8],
    phrase: &Phrase,
    names: &Names,
    derivation: &Derivation,
    drawing: Drawing,
) -> Result<Drawn, Stop>
    requires short { length text.now ≤ most_text }
    requires nodes { nodes (reads phrase.now) ≤ 65536 }
    requires limits { KeepsLimits (plain_derivation derivation.now) }
    requires accepted { refusal (conclusion_of (reads phrase.now) (plain_derivation derivation.now)) ≡ None }
    ensures drawn { IfOk result (DrawsFor text.now names.now drawing (reads phrase.now) (plain_derivation derivation.now)) }
    ensures memory { IfErr result (λ stop. stop ≡ Stop.Memory) }
{
    match table_of(alloc, phrase, derivation) {
        Ok(Ok(_)) => drawn_under(alloc, text, phrase, names, derivation, drawing),
        Ok(Err(why)) => Ok(Drawn::Down(TurnedDown {
            status: 2,
            note: Note::Refused(why),
        })),
        Err(stop) => Err(stop),
    }
}

// Of the derivation that is written for a text with that core phrase.
fn drawn_by(
    alloc: Global,
    text: &[u8],
    core: Core,
    written: &[u8],
    drawing: Drawing,
) -> Result<Drawn, Stop>
    requires core { IsCore text.now core }
    requires text { length text.now ≤ most_text }
    requires short { length written.now ≤ 16777216 }
    ensures drawn { IfOk result (DrawsWritten text.now written.now drawing) }
    ensures memory { IfErr result (λ stop. stop ≡ Stop.Memory) }
{
    let mut names = core.names;
    let derivation = match read_named(alloc, &mut names, written) {
        Ok(Ok(derivation)) => derivation,
        Ok(Err(note)) => return Ok(Drawn::Down(TurnedDown { status: 8, note })),
        Err(stop) => return Err(stop),
    };
    match stop_of(alloc, &core.phrase, &derivation) {
        Ok(None) => drawn_for(alloc, text, &core.phrase, &names, &derivation, drawing),
        Ok(Some(node)) => Ok(Drawn::Down(TurnedDown {
            status: 8,
            note: Note::DerivationNode(node),
        })),
        Err(stop) => Err(stop),
    }
}

// Of the derivation that is found for the text in a file.
fn found_in<W: World>(
    alloc: Global,
    file: &str,
    drawing: Drawing,
    world: &mut W,
) -> Result<Drawn, Stop>
    ensures holds { W.holds world.new ≡ W.holds world.old }
    ensures drawn { Draws file.now None (W.holds world.old).files (W.calls world.old) (W.calls world.new) drawing result }
    ensures counted { Counted (file.now ∷ []) [] (W.counts world.old) (W.counts world.new) result }
    ensures stopped { IfErr result (WasUngiven file.now None (W.holds world.old).files (W.counts world.old) (W.counts world.new) (W.calls world.old) (W.calls world.new)) }
    ensures input { IfErr result IsReadStop }
    ensures same { W.names world.new ≡ W.names world.old }
{
    let text = match world.fetch(alloc, file, TEXT_LIMIT) {
        Ok(Some(text)) => text,
        Ok(None) => {
            return Ok(Drawn::Down(TurnedDown {
                status: 2,
                note: Note::Refused(Refusal::Length),
            }));
        }
        Err(stop) => return Err(stop),
    };
    drawn_found(alloc, text.as_slice(), drawing)
}

// Of the derivation in a file for the text in another.
fn named_in<W: World>(
    alloc: Global,
    file: &str,
    name: &str,
    drawing: Drawing,
    world: &mut W,
) -> Result<Drawn, Stop>
    ensures holds { W.holds world.new ≡ W.holds world.old }
    ensures drawn { Draws file.now (Some name.now) (W.holds world.old).files (W.calls world.old) (W.calls world.new) drawing result }
    ensures counted { Counted (file.now ∷ name.now ∷ []) [] (W.counts world.old) (W.counts world.new) result }
    ensures stopped { IfErr result (WasUngiven file.now (Some name.now) (W.holds world.old).files (W.counts world.old) (W.counts world.new) (W.calls world.old) (W.calls world.new)) }
    ensures input { IfErr result IsReadStop }
    ensures same { W.names world.new ≡ W.names world.old }
{
    let source = match source_in(alloc, file, world) {
        Ok(Ok(source)) => source,
        Ok(Err(why)) => {
            return Ok(Drawn::Down(TurnedDown {
                status: 2,
                note: Note::Refused(why),
            }));
        }
        Err(stop) => return Err(stop),
    };
    let written = match world.fetch(alloc, name, WRITTEN_LIMIT) {
        Ok(Some(written)) => written,
        Ok(None) => {
            return Ok(Drawn::Down(TurnedDown {
                status: 8,
                note: Note::DerivationLength,
            }));
        }
        Err(stop) => return Err(stop),
    };
    let Source { text, core } = source;
    drawn_by(alloc, text.as_slice(), core, written.as_slice(), drawing)
}

// Of the derivation that is named, or else of one that is found.
fn drawn_in<W: World>(
    alloc: Global,
    file: &str,
    named: Option<&str>,
    drawing: Drawing,
    world: &mut W,
) -> Result<Drawn, Stop>
    ensures holds { W.holds world.new ≡ W.holds world.old }
    ensures drawn { Draws file.now (option_map (λ name. name.now) named.entry) (W.holds world.old).files (W.calls world.old) (W.calls world.new) drawing result }
    ensures counted { Counted (file.now ∷ option_to_list (option_map (λ name. name.now) named.entry)) [] (W.counts world.old) (W.counts world.new) result }
    ensures stopped { IfErr result (WasUngiven file.now (option_map (λ name. name.now) named.entry) (W.holds world.old).files (W.counts world.old) (W.counts world.new) (W.calls world.old) (W.calls world.new)) }
    ensures input { IfErr result IsReadStop }
    ensures same { W.names world.new ≡ W.names world.old }
{
    match named {
        Some(name) => named_in(alloc, file, name, drawing, world),
        None => found_in(alloc, file, drawing, world),
    }
}

// The form of a tree.
fn form_of(latex: bool) -> Form
    ensures { result ≡ form_wanted latex }
{
    if latex { Form::Latex } else { Form::Plain }
}

// The bytes of a line, where an option says it.
fn width_of(width: Option<u32>) -> usize
    ensures { result ≡ line_wanted width }
{
    match width {
        None => 100,
        Some(bytes) => bytes as usize,
    }
}

// The levels, where an option says it.
fn levels_of(levels: Option<u32>) -> u32
    ensures { result ≡ levels_wanted levels }
{
    levels.unwrap_or(2048)
}

// How a tree is drawn, by the options of its words.
fn drawing_of(latex: bool, levels: Option<u32>, node: Option<u32>, width: Option<u32>) -> Drawing
    ensures { result ≡ drawing_wanted latex levels node width }
{
    let form = form_of(latex);
    let width = width_of(width);
    let levels = levels_of(levels);
    Drawing {
        style: Style { form, width },
        node,
        levels,
    }
}

/// Shows a derivation of the text in a file as a tree.
pub(crate) fn tree_file<W: World>(
    alloc: Global,
    file: &str,
    named: Option<&str>,
    latex: bool,
    levels: Option<u32>,
    node: Option<u32>,
    width: Option<u32>,
    world: &mut W,
) -> Result<u8, Stop>
    ensures serves { Serves (Some (tree file.now (option_map (λ name. name.now) named.entry) latex levels node width)) (W.holds world.old) (W.holds world.new) (W.counts world.old) (W.counts world.new) (W.calls world.old) (W.calls world.new) result }
    ensures same { W.names world.new ≡ W.names world.old }
{
    let drawing = drawing_of(latex, levels, node, width);
    match drawn_in(alloc, file, named, drawing, world) {
        Err(stop) => Err(stop),
        Ok(Drawn::Down(down)) => refuse(down.status, down.note, world),
        Ok(Drawn::Lines(lines)) => write(lines.as_slice(), world),
    }
}
