//! Units linked.

ghost use Rattle.std.specs.Prelude.{◌≡◌, ◌<◌, ◌≤◌, ◌⊎◌, ◌||◌, All, IfOk, IfErr, length, map, nat_lt};
ghost use Rattle.fy_derive.specs.Derivations.{most_nesting, most_nodes, nesting, nodes};
ghost use Rattle.fy_derive.specs.Reading.{plain_derivation};
ghost use Rattle.fy_lexer.specs.Tokens.{HasAdded};
ghost use Rattle.fy_link.specs.Composed.{composed_derivation};
ghost use Rattle.fy_link.specs.Joined.{IsJoinedText, IsTextPart};
ghost use Rattle.fy_link.specs.Read.{plain_part};
ghost use Rattle.fy_link.specs.Links.{IsLinked, IsTooLarge, IsUnlinked};
ghost use Rattle.fy_link.specs.Units.{IsUnit, plain_unit};
ghost use Rattle.fy_link.specs.declared.error.LinkError.TheVariants.{OutOfMemory as NoMemory, TooLarge as NoRoom};

use crate::causes::judge_units;
use crate::composed::composed;
use crate::error::LinkError;
use crate::joined::{Part, joined_text, tail};
use crate::unit::{Unit, UnitList};
use fy_base::{OutOfMemory, Text};
use fy_derive::{Derivation, nesting_of, nodes_of};
use fy_front::{Refusal, phrase_of};
use fy_phrase::Phrase;
use fy_types::Names;
use std::alloc::Global;

// The most bytes of a text, and the most nodes of a derivation and of a path in one.
const MOST_BYTES: usize = 1_048_576;

const MOST_NODES: u32 = 262_144;

const MOST_NESTING: u32 = 2_048;

/// Units put together: their text, its core phrase, and a derivation that this is a command.
#[derive(Debug, Drop)]
pub struct Linked {
    pub text: Text,
    pub phrase: Phrase,
    pub derivation: Derivation,
}

/// Units put together without a new search for types: the text in which each unit but the last is a definition around those behind
/// it, its core phrase, and the derivation that is composed of the units' own ones. They are units that `compile_unit` or `read_unit`
/// gave with these names, one or more.
///
/// # Errors
///
/// The units are judged in order, and in each its name and then its imports in order: `Double` where it has the name of an earlier
/// unit, `Missing` where an import is the name of no earlier unit, `Interface` where the exporting type isn't below the import's. Then
/// `NotMain` where the last unit's type isn't `comm`. Then `Text` as the joined text is refused, first for its length where it has over
/// 1,048,576 bytes. Then `TooLarge` exactly where the composed derivation has over 262,144 nodes or nests more than 2,048. And
/// `OutOfMemory`.
pub fn link(alloc: Global, names: &mut Names, units: &UnitList) -> Result<Linked, LinkError>
    requires units { All (IsUnit names.old) units.now }
    requires some { 0 < length units.now }
    requires few { length units.now < 4294967296 }
    requires names { length names.old ≤ 3000000000 }
    ensures linked { IfOk result (IsLinked names.old units.now) }
    ensures err { IfErr result (IsUnlinked names.old units.now) }
    ensures names { HasAdded names.old names.new }
{
    let units = units.as_slice();
    judge_units(alloc, units)?;
    let text = text_of(alloc, names, units)?;
    if text.len() > MOST_BYTES {
        return Err(LinkError::Text(Refusal::Length));
    }
    let phrase = phrase_of(alloc, names, &text)?;
    let derivation = derived(alloc, units)?;
    let text = Text::from_vec(text);
    Ok(Linked {
        text,
        phrase,
        derivation,
    })
}

// The unit's part of the text.
fn part_of<'a>(names: &'a Names, unit: &'a Unit) -> Part<'a>
    requires { IsUnit names.now unit.now }
    ensures { IsTextPart names.now unit.now.source (plain_part result) }
{
    let Some(name) = names.text(unit.said.own.name) else {
        unreachable!()
    };
    let Some(tail) = tail(unit.source.as_slice(), unit.said.equals_at) else {
        unreachable!()
    };
    Part { name, tail }
}

// The text of the units put together.
fn text_of(alloc: Global, names: &Names, units: &[Unit]) -> Result<Vec<u8>, OutOfMemory>
    requires { All (IsUnit names.now) units.now }
    ensures { IfOk result (λ text. IsJoinedText names.now units.now text.items) }
{
    let mut parts = Vec::new(alloc);
    for unit in units {
        parts.push(part_of(names, unit))?;
    }
    joined_text(alloc, &parts)
}

// Whether the derivation has too many nodes, or nests too deep.
fn is_large(d: &Derivation) -> bool
    ensures { result ≡ (nat_lt most_nodes (nodes (plain_derivation d.now)) || nat_lt most_nesting (nesting (plain_derivation d.now))) }
{
    nodes_of(d) > MOST_NODES || nesting_of(d) > MOST_NESTING
}

// The derivation of the units put together, unless it is too large.
fn derived(alloc: Global, units: &[Unit]) -> Result<Derivation, LinkError>
    ensures composed { IfOk result (λ d. plain_derivation d ≡ composed_derivation (map plain_unit units.now)) }
    ensures few { IfOk result (λ d. nodes (plain_derivation d) ≤ most_nodes) }
    ensures shallow { IfOk result (λ d. nesting (plain_derivation d) ≤ most_nesting) }
    ensures err { IfErr result (λ e. (e ≡ NoMemory) ⊎ ((e ≡ NoRoom) × IsTooLarge (map plain_unit units.now))) }
{
    let derivation = composed(alloc, units)?;
    if is_large(&derivation) {
        return Err(LinkError::TooLarge);
    }
    Ok(derivation)
}
