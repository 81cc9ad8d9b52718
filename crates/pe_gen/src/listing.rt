//! The nodes of a phrase, in a list.

ghost use Rattle.std.specs.Prelude.{ℕ, ◌≡◌, ◌+◌, ◌<◌, ◌≤◌, ◌∷◌, ◌++◌, Some, IfOk, OnOk, length, map, slice_get};
ghost use Rattle.fy_phrase.specs.Reads.{reads, reads_parts};
ghost use Rattle.fy_phrase.specs.Sizes.{nodes as count, all_nodes as count_all};
ghost use Rattle.fy_phrase.specs.Tree.{Tree};
ghost use Rattle.pe_gen.specs.Preorder.{nodes_of_all, preorder, seen, seen_back};
ghost use Rattle.pe_gen.specs.Sites.{IsListing};

use crate::nodes::Node;
use fy_base::OutOfMemory;
use fy_phrase::{Parts, Phrase};
use std::alloc::Global;

/// The nodes of the phrase in preorder, so that a node stands at its number.
pub fn nodes_of(alloc: Global, p: &Phrase) -> Result<Vec<Node<'_>>, OutOfMemory>
    requires { count (reads p.now) ≤ 65536 }
    ensures { IfOk result (λ made. map seen made.items ≡ preorder 0 (reads p.now)) }
{
    let mut nodes = Vec::new(alloc);
    add_nodes(p, 0, &mut nodes)?;
    nodes.reverse();
    Ok(nodes)
}

// Adds the nodes of a phrase under so many binders, the last one first, and gives their number.
#[cycle(listing)]
fn add_nodes<'a>(
    phrase: &'a Phrase,
    depth: u32,
    nodes: &mut Vec<Node<'a>>,
) -> Result<u32, OutOfMemory>
    requires { depth + count (reads phrase.now) ≤ 65536 }
    ensures number { IfOk result (λ n. n ≡ count (reads phrase.now)) }
    ensures listed { OnOk result (seen_back nodes.new.items ≡ preorder depth (reads phrase.now) ++ seen_back nodes.old.items) }
{
    match phrase {
        Phrase::Var(..) | Phrase::Lit(..) | Phrase::Skip(_) | Phrase::Mark(..) => {
            add_node(phrase, depth, 1, nodes)
        }
        Phrase::Unary(_, p, _)
        | Phrase::Field(_, p, _)
        | Phrase::Sel(p, _, _)
        | Phrase::Forever(p, _)
        | Phrase::Put(_, p, _)
        | Phrase::Read(p, _) => {
            let size = add_nodes(p, depth, nodes)? + 1;
            add_node(phrase, depth, size, nodes)
        }
        Phrase::Lam(_, _, body, _)
        | Phrase::Rec(_, _, body, _)
        | Phrase::Escape(_, body, _)
        | Phrase::Accept(_, _, body, _) => {
            let size = add_nodes(body, depth + 1, nodes)? + 1;
            add_node(phrase, depth, size, nodes)
        }
        Phrase::Binary(_, p, q, _)
        | Phrase::App(p, q, _)
        | Phrase::Merge(p, q, _)
        | Phrase::Seq(p, q, _)
        | Phrase::Assign(p, q, _)
        | Phrase::WhileDo(p, q, _) => {
            let behind = add_nodes(q, depth, nodes)?;
            let size = add_nodes(p, depth, nodes)? + behind + 1;
            add_node(phrase, depth, size, nodes)
        }
        Phrase::LetIn(_, p, body, _)
        | Phrase::New(_, _, p, body, _)
        | Phrase::Cells(_, p, body, _) => {
            let behind = add_nodes(body, depth + 1, nodes)?;
            let size = add_nodes(p, depth, nodes)? + behind + 1;
            add_node(phrase, depth, size, nodes)
        }
        Phrase::Cond(b, p, q, _) => {
            let last = add_nodes(q, depth, nodes)?;
            let behind = add_nodes(p, depth, nodes)? + last;
            let size = add_nodes(b, depth, nodes)? + behind + 1;
            add_node(phrase, depth, size, nodes)
        }
        Phrase::Case(e, parts, _) => {
            let behind = add_nodes_of_all(parts, depth, nodes)?;
            let size = add_nodes(e, depth, nodes)? + behind + 1;
            add_node(phrase, depth, size, nodes)
        }
    }
}

#[cycle(listing)]
fn add_nodes_of_all<'a>(
    parts: &'a Parts,
    depth: u32,
    nodes: &mut Vec<Node<'a>>,
) -> Result<u32, OutOfMemory>
    requires { depth + count_all (reads_parts parts.now) ≤ 65536 }
    ensures number { IfOk result (λ n. n ≡ count_all (reads_parts parts.now)) }
    ensures listed { OnOk result (seen_back nodes.new.items ≡ nodes_of_all depth (reads_parts parts.now) ++ seen_back nodes.old.items) }
{
    let items = parts.as_slice();
    let mut size = 0;
    let mut i = items.len();
    while i > 0 {
        i -= 1;
        size += add_nodes(&items[i], depth, nodes)?;
    }
    Ok(size)
}

// Adds a phrase's own node, whose size it gives.
fn add_node<'a>(
    phrase: &'a Phrase,
    depth: u32,
    size: u32,
    nodes: &mut Vec<Node<'a>>,
) -> Result<u32, OutOfMemory>
    requires { size ≡ count (reads phrase.now) }
    ensures number { IfOk result (λ n. n ≡ size) }
    ensures listed { OnOk result (seen_back nodes.new.items ≡ (depth, reads phrase.now) ∷ seen_back nodes.old.items) }
{
    nodes.push(Node {
        phrase,
        depth,
        size,
    })?;
    Ok(size)
}

/// The number behind those of the nodes of a node.
pub fn number_behind(nodes: &[Node<'_>], number: u32) -> u32
    requires listed { number < length nodes.now }
    requires few { length nodes.now ≤ 65536 }
    requires listing { IsListing (map seen nodes.now) }
    ensures { (d : ℕ) (q : Tree) → slice_get (map seen nodes.now) number ≡ Some (d, q) → result ≡ number + count q }
{
    number + nodes[number as usize].size
}
