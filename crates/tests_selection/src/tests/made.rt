//! From texts to images, and their runs.

ghost use Rattle.std.specs.Prelude.{IfOk};
ghost use Rattle.fy_image.specs.Ranges.{IsImage};
ghost use Rattle.fy_phrase.specs.Reads.{reads};
ghost use Rattle.fy_phrase.specs.WellMade.{HasDepths, IsClosed, IsWellMade};

use fy_base::{Ending, SteadySink, SteadySource};
use fy_build::image_of;
use fy_copy::{CopyRun, run_copy};
use fy_derive::{nesting_of, nodes_of};
use fy_expand::expand;
use fy_grammar::parse;
use fy_image::Image;
use fy_least::find;
use fy_lexer::lex;
use fy_phrase::{Phrase, depth_of, node_count};
use fy_types::Names;
use pe_shapes::shapes_of;
use rv_machine::{Machine, run_machine};
use std::alloc::Global;
use std::test::Fail;

// The core phrase of a text.
pub fn phrase_of(alloc: Global, text: &[u8]) -> Result<Phrase, Fail>
    ensures closed { IfOk result (λ p. IsClosed (reads p)) }
    ensures depths { IfOk result (λ p. HasDepths (reads p)) }
    ensures made { IfOk result (λ p. IsWellMade (reads p)) }
{
    if text.len() > 1_048_576 {
        return Err("a text past the limits".into());
    }
    let mut names = Names::new(alloc)?;
    let tokens = lex(alloc, &mut names, text)?;
    let tree = parse(alloc, tokens.as_slice())?;
    Ok(expand(alloc, &tree)?)
}

// The image of a phrase, with a stack of so many words. Every program stands in the definitions of the
// prelude.
fn image_for(alloc: Global, p: &Phrase, stack_words: u32) -> Result<Image, Fail>
    requires closed { IsClosed (reads p.now) }
    requires depths { HasDepths (reads p.now) }
    requires made { IsWellMade (reads p.now) }
    ensures { IfOk result IsImage }
{
    let Phrase::LetIn(..) = p else {
        return Err("a phrase without the prelude".into());
    };
    let d = find(alloc, p)?;
    if node_count(p) > 65_536 || depth_of(p) > 511 {
        return Err("a phrase past the limits".into());
    }
    if nodes_of(&d) > 262_144 || nesting_of(&d) > 2048 {
        return Err("a derivation past the limits".into());
    }
    if stack_words < 1024 || stack_words > 67_108_864 {
        return Err("a stack past the limits".into());
    }
    let table = shapes_of(alloc, p, &d)?;
    Ok(image_of(alloc, p, &table, stack_words)?)
}

// How the image of a phrase ends on an input, and what it puts.
pub fn run(
    alloc: Global,
    p: &Phrase,
    stack_words: u32,
    input: &[u8],
) -> Result<(Ending, SteadySink), Fail>
    requires closed { IsClosed (reads p.now) }
    requires depths { HasDepths (reads p.now) }
    requires made { IsWellMade (reads p.now) }
{
    let image = image_for(alloc, p, stack_words)?;
    let mut m = Machine::load(alloc, &image)?;
    let mut input = SteadySource::new(Vec::from_slice(alloc, input)?);
    let mut output = SteadySink::new(alloc, 1024)?;
    let run = run_machine(&mut m, &mut input, &mut output, 10_000_000);
    Ok((run.end, output))
}

// How the phrase ends by the copy rule within so many steps, and what it puts.
pub fn copy(
    alloc: Global,
    p: &Phrase,
    steps: u32,
    input: &[u8],
) -> Result<(CopyRun, SteadySink), Fail> {
    if depth_of(p) > 511 {
        return Err("a phrase past the limits".into());
    }
    let mut input = SteadySource::new(Vec::from_slice(alloc, input)?);
    let mut output = SteadySink::new(alloc, 1024)?;
    let run = run_copy(alloc, p, &mut input, &mut output, steps as u64)?;
    Ok((run, output))
}
