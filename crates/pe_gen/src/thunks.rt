//! The nodes that thunks are made of.

ghost use Rattle.std.specs.Prelude.{ℕ, ◌≡◌, ◌<◌, ◌≤◌, Some, IfOk, length, map, slice_get};
ghost use Rattle.std.specs.Option.{option_to_list};
ghost use Rattle.fy_phrase.specs.Reads.{reads};
ghost use Rattle.fy_phrase.specs.Tree.{Tree};
ghost use Rattle.pe_gen.specs.Preorder.{own_thunks, seen, thunks_from};
ghost use Rattle.pe_gen.specs.Sites.{IsListing};
ghost use Rattle.pe_gen.specs.Thunks.{thunk_of as thunk_of_form};

use crate::listing::number_behind;
use crate::nodes::Node;
use fy_base::OutOfMemory;
use fy_phrase::Phrase;
use pe_code::NodeList;
use std::alloc::Global;

/// What a form makes a thunk of.
#[derive(Clone, Copy, PartialEq, Eq, Debug)]
pub enum ThunkOf {
    /// Its argument.
    Argument,
    /// What it defines.
    Definition,
    /// Itself.
    Itself,
}

/// The nodes that thunks are made of, in the order of what makes them.
pub fn thunks_of(alloc: Global, nodes: &[Node<'_>]) -> Result<NodeList, OutOfMemory>
    requires few { length nodes.now ≤ 65536 }
    requires listing { IsListing (map seen nodes.now) }
    ensures { IfOk result (λ thunks. thunks ≡ thunks_from 0 (map seen nodes.now)) }
{
    let mut thunks = NodeList::new(alloc);
    for number in 0..nodes.len() {
        if let Some(thunk) = thunk_at(nodes, number as u32) {
            thunks.push(thunk)?;
        }
    }
    Ok(thunks)
}

// The node of which the node with the number makes a thunk.
fn thunk_at(nodes: &[Node<'_>], number: u32) -> Option<u32>
    requires few { length nodes.now ≤ 65536 }
    requires within { number < length nodes.now }
    requires listing { IsListing (map seen nodes.now) }
    ensures { (d : ℕ) (q : Tree) → slice_get (map seen nodes.now) number ≡ Some (d, q) → option_to_list result ≡ own_thunks number q }
{
    match thunk_of(nodes[number as usize].phrase) {
        Some(ThunkOf::Argument) => Some(number_behind(nodes, number + 1)),
        Some(ThunkOf::Definition) => Some(number + 1),
        Some(ThunkOf::Itself) => Some(number),
        None => None,
    }
}

fn thunk_of(p: &Phrase) -> Option<ThunkOf>
    ensures { result ≡ thunk_of_form (reads p.now) }
{
    match p {
        Phrase::App(..) => Some(ThunkOf::Argument),
        Phrase::LetIn(..) => Some(ThunkOf::Definition),
        Phrase::Rec(..) => Some(ThunkOf::Itself),
        _ => None,
    }
}
