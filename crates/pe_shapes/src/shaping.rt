//! The table of a derivation's shapes.

ghost use Rattle.std.specs.Prelude.{◌≡◌, ◌≤◌, None, IfOk};
ghost use Rattle.fy_phrase.specs.Reads.{reads};
ghost use Rattle.fy_phrase.specs.Sizes.{nodes as phrase_nodes};
ghost use Rattle.fy_derive.specs.Derivations.{nodes, nesting, most_nodes, most_nesting};
ghost use Rattle.fy_derive.specs.Judging.{conclusion_of, refusal};
ghost use Rattle.fy_derive.specs.Reading.{plain_derivation};
ghost use Rattle.fy_derive.specs.Shapes.{IsClosed};
ghost use Rattle.fy_derive.specs.ShapeTables.{HasPairOf};
ghost use Rattle.pe_shapes.specs.Order.{AreInOrder};
ghost use Rattle.pe_shapes.specs.Shaping.{IsShaping};

use crate::context::Context;
use crate::error::ShapeError;
use crate::found::{Found, MOST_PAIRS};
use crate::sizes::{add_sizes, thunks_of};
use crate::walk::walk;
use fy_derive::Derivation;
use fy_phrase::{Phrase, ShapeTable};
use std::alloc::Global;

/// How many words the tables of a program may take.
const MOST_WORDS: u64 = 1_048_576;

/// Which shapes each node of the phrase is asked for: the pairs of a node and the shape of a path of
/// a type that some node of the derivation concludes for it. Nodes are counted in preorder, from 0.
/// The derivation is one that [`check`](fy_derive::check) accepts. `TooManyShapes`,
/// `TooManyEntries` and `TablesTooLarge` tell which limit is passed, in this order; `OutOfMemory` may
/// always come. What the form of a pair asks of its parts is in the table too. The shapes stand in
/// their order, and the pairs by node and then by shape.
pub fn shapes_of(alloc: Global, p: &Phrase, d: &Derivation) -> Result<ShapeTable, ShapeError>
    requires nodes { phrase_nodes (reads p.now) ≤ 65536 }
    requires few { nodes (plain_derivation d.now) ≤ most_nodes }
    requires shallow { nesting (plain_derivation d.now) ≤ most_nesting }
    requires accepted { refusal (conclusion_of (reads p.now) (plain_derivation d.now)) ≡ None }
    ensures shaping { IsShaping result (reads p.now) (plain_derivation d.now) }
    ensures ordered { IfOk result AreInOrder }
    ensures closed { IfOk result (λ table. IsClosed (reads p.now) (HasPairOf table)) }
{
    let mut sizes = Vec::new(alloc);
    add_sizes(alloc, &mut sizes, p)?;
    let mut found = Found::new(alloc);
    walk(alloc, &mut found, &sizes, 0, d, &Context::Empty, p)?;
    if found.pair_count() > MOST_PAIRS {
        return Err(ShapeError::TooManyEntries);
    }
    let words = found.shape_count() as u64 * (4 + u64::from(thunks_of(p)));
    if words > MOST_WORDS {
        return Err(ShapeError::TablesTooLarge);
    }
    let table = found.table(alloc)?;
    Ok(table)
}
