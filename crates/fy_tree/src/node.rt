//! A node of a derivation, with what is known of it.

ghost use Rattle.std.specs.Prelude.{◌≡◌, ◌+◌, ◌<◌, ◌^◌, IfOk, OnOk};
ghost use Rattle.fy_phrase.specs.Reads.{reads};
ghost use Rattle.fy_derive.specs.Contexts.{numbers};
ghost use Rattle.fy_derive.specs.Derivations.{nodes};
ghost use Rattle.fy_derive.specs.Judging.{judged};
ghost use Rattle.fy_derive.specs.Reading.{plain_derivation};
ghost use Rattle.fy_derive.specs.Shown.{all_shown, shown, total, AreIn, Extends};
ghost use Rattle.fy_derive.specs.Tables.{type_at};
ghost use Rattle.fy_tree.specs.Annotated.{concluded as concluded_type};

use fy_base::OutOfMemory;
use fy_derive::{Context, Derivation, TypeNode, TypeTable, judge};
use fy_phrase::Phrase;
use std::alloc::Global;

/// A node with its number, the phrase that it is about, the number of what it concludes, and what its premise adds to the names in
/// scope.
#[derive(Clone, Copy, Drop)]
pub(crate) struct Node<'a> {
    pub at: u32,
    pub derivation: &'a Derivation,
    pub phrase: &'a Phrase,
    pub conclusion: usize,
    pub added: &'a [u8],
}

/// The number of what the derivation concludes for the phrase. Where judging stops, as it does nowhere in a derivation that is
/// accepted, there is none, as where memory is wanting.
pub(crate) fn concluded(
    alloc: Global,
    table: &mut TypeTable,
    at: u32,
    d: &Derivation,
    context: &Context<'_>,
    p: &Phrase,
) -> Result<usize, OutOfMemory>
    requires context { AreIn table.old (numbers context.now) }
    requires room { at + nodes (plain_derivation d.now) < 2 ^ 32 }
    ensures within { IfOk result (λ k. k < total table.new) }
    ensures stands { IfOk result (λ k. shown table.new k
        ≡ concluded_type (judged (plain_derivation d.now) at (all_shown table.old (numbers context.now)) (reads p.now))) }
    ensures extends { OnOk result (Extends table.old table.new) }
{
    let mut next = at;
    match judge(alloc, table, &mut next, d, context, p) {
        Ok(number) => Ok(number),
        Err(_) => Err(OutOfMemory),
    }
}

/// The number of the innermost type in scope, or of `ns` where there is none.
pub(crate) fn innermost(table: &mut TypeTable, context: &Context<'_>) -> Result<usize, OutOfMemory>
    requires { AreIn table.old (numbers context.now) }
    ensures within { IfOk result (λ k. k < total table.new) }
    ensures stands { IfOk result (λ k. shown table.new k ≡ type_at (all_shown table.old (numbers context.now)) 0) }
    ensures extends { OnOk result (Extends table.old table.new) }
{
    match context {
        Context::Under(number, _) => Ok(*number),
        Context::Outside(numbers) => match numbers.first() {
            Some(number) => Ok(*number),
            None => Ok(table.number(TypeNode::Ns)?),
        },
    }
}
