//! Code of a phrase.

ghost use Rattle.std.specs.Prelude.{◌≡◌, ◌≤◌, false, IfOk, length};
ghost use Rattle.std.specs.List.Sorted.{IsPermutation, IsNonDecreasingBy};
ghost use Rattle.fy_derive.specs.Shapes.{table_words};
ghost use Rattle.fy_phrase.specs.Reads.{reads};
ghost use Rattle.fy_phrase.specs.Sizes.{nodes, depth};
ghost use Rattle.fy_phrase.specs.WellMade.{IsClosed, HasDepths, IsWellMade};
ghost use Rattle.pe_code.specs.Valid.{IsValid};
ghost use Rattle.pe_right.specs.Constants.{no_data};
ghost use Rattle.pe_right.specs.Entered.{none_straight};
ghost use Rattle.pe_right.specs.Follows.{FollowsCopyRule};
ghost use Rattle.pe_right.specs.Right.{IsCodeOf};
ghost use Rattle.pe_gen.specs.Sites.{is_merge, AreNotBefore};
ghost use Rattle.pe_gen.specs.Layout.{IsLaidOut};
ghost use Rattle.pe_gen.specs.Sizes.{HasSizesOf};
ghost use Rattle.pe_right.specs.Typed.{IsTableOf};

use crate::items::items_of;
use crate::listing::nodes_of;
use crate::plan::Plan;
use crate::sites::{entries_of, sites_of};
use crate::steps::{ShapeStep, number_of_step, sequence_shapes, steps_of};
use crate::thunks::thunks_of;
use fy_base::OutOfMemory;
use fy_phrase::{Pair, Phrase, ShapeEnd, ShapeTable};
use pe_code::PeCode;
use std::alloc::Global;

/// Push-enter code of a closed phrase that is no merge, from the table of demand shapes of an accepted derivation: an item for each pair of the table whose node
/// is no merge, the program's first and the others in order of node and shape. A merge is entered where the operand is that takes the demand. The code does
/// what the copy rule does, and no step of it is undefined or looks for a frame that is gone.
pub fn generate(alloc: Global, p: &Phrase, table: &ShapeTable) -> Result<PeCode, OutOfMemory>
    requires whole { is_merge (reads p.now) ≡ false }
    requires closed { IsClosed (reads p.now) }
    requires depths { HasDepths (reads p.now) }
    requires made { IsWellMade (reads p.now) }
    requires nodes { nodes (reads p.now) ≤ 65536 }
    requires depth { depth (reads p.now) ≤ 511 }
    requires table { IsTableOf (reads p.now) table.now }
    requires shapes { length table.now.shapes ≤ 256 }
    requires pairs { length table.now.pairs ≤ 65536 }
    requires words { table_words (reads p.now) (length table.now.shapes) ≤ 1048576 }
    ensures right { IfOk result (λ code. IsCodeOf no_data none_straight (reads p.now) table.now code) }
    ensures valid { IfOk result (λ code. IsValid code) }
    ensures follows { IfOk result (λ code. FollowsCopyRule no_data (reads p.now) code) }
    ensures sizes { IfOk result (λ code. HasSizesOf (reads p.now) code) }
    ensures laid_out { IfOk result (λ code. IsLaidOut (reads p.now) code) }
    ensures few { IfOk result (λ code. length code.items ≤ length table.now.pairs) }
{
    let shapes = table.shapes.as_slice();
    let nodes = nodes_of(alloc, p)?;
    let steps = steps_of(alloc, shapes)?;
    let pairs = pairs_in_order(alloc, table.pairs.as_slice())?;
    let program = Pair {
        node: 0,
        shape: number_of_step(&steps, ShapeStep::End(ShapeEnd::Run)).unwrap(),
    };
    let sites = sites_of(alloc, &nodes, &pairs, program)?;
    let entries = entries_of(alloc, &nodes, shapes, &pairs, &sites)?;
    let thunks = thunks_of(alloc, &nodes)?;
    let plan = Plan {
        nodes,
        table,
        steps,
        entries,
    };
    let items = items_of(alloc, &plan, sites.as_slice())?;
    let assignment = number_of_step(&plan.steps, ShapeStep::End(ShapeEnd::Assign));
    Ok(PeCode {
        items,
        entries: plan.entries,
        shapes: shapes.len() as u32,
        assignment,
        sequences: sequence_shapes(table),
        thunks,
    })
}

// The pairs in order of node and shape.
fn pairs_in_order(alloc: Global, pairs: &[Pair]) -> Result<Vec<Pair>, OutOfMemory>
    ensures moved { IfOk result (λ made. IsPermutation pairs.now made.items) }
    ensures ordered { IfOk result (λ made. IsNonDecreasingBy (λ x. x.node) made.items) }
    ensures rising { IfOk result (λ made. AreNotBefore made.items) }
{
    let mut made = Vec::from_slice(alloc, pairs)?;
    made.sort_by_key(|pair| (pair.node, pair.shape))?;
    Ok(made)
}
