//! How large the core phrase of a written one is.

ghost use Rattle.std.specs.Prelude.{◌≡◌, ℕ, IfOk};
ghost use Rattle.fy_syntax.specs.Reading.{defs_of, links_of, tree_of, trees_of};
ghost use Rattle.fy_expand.specs.Core.{core, used};
ghost use Rattle.fy_expand.specs.Frames.{AreSized, scope_of};
ghost use Rattle.fy_expand.specs.Measures.{
  all_beside as all_beside_of,
  beside,
  defs_measures,
  fields_measures,
  grouped as grouped_of,
  grouped_all as grouped_all_of,
  halved as halved_of,
  indexed_measure,
  links_measures,
  measure,
  nested as nested_of,
  text_measure,
  trees_measures,
  under_nodes,
  with_nodes,
};

use crate::frame::{Frame, Standing, find};
use crate::types::{declared_size, type_size, types_size};
use fy_base::{OutOfMemory, Place};
use fy_syntax::{DefList, LinkList, Surface, SurfaceList};
use fy_types::Name;
use std::alloc::Global;

/// The number of nodes, and the greatest number on one path, each at most 18446744073709551615.
#[derive(Clone, Copy, PartialEq, Eq, Debug)]
pub(crate) struct Size {
    pub nodes: u64,
    pub nesting: u64,
}

impl Size {
    /// The size of nothing.
    pub(crate) const NONE: Size = Size {
        nodes: 0,
        nesting: 0,
    };

    /// The size of one node.
    pub(crate) const LEAF: Size = Size {
        nodes: 1,
        nesting: 1,
    };

    /// The size of two things beside each other.
    pub(crate) fn beside(self, other: Size) -> Size
        ensures { result ≡ beside self other }
    {
        Size {
            nodes: self.nodes.saturating_add(other.nodes),
            nesting: self.nesting.max(other.nesting),
        }
    }

    /// The size with so many nodes around, one inside the other.
    pub(crate) fn under(self, count: u64) -> Size
        ensures { result ≡ under_nodes count self }
    {
        Size {
            nodes: self.nodes.saturating_add(count),
            nesting: self.nesting.saturating_add(count),
        }
    }

    /// The size of a node over two parts.
    pub(crate) fn over(self, other: Size) -> Size
        ensures { result ≡ under_nodes 1 (beside self other) }
    {
        self.beside(other).under(1)
    }

    /// The size with more nodes that nest no deeper.
    pub(crate) fn with_nodes(self, nodes: u64) -> Size
        ensures { result ≡ with_nodes nodes self }
    {
        Size {
            nodes: self.nodes.saturating_add(nodes),
            nesting: self.nesting,
        }
    }
}

/// The size of a phrase's core phrase, types counted among the nodes and not in the nesting.
#[cycle(size)]
pub(crate) fn phrase_size(alloc: Global, tree: &Surface, frame: &Frame) -> Result<Size, OutOfMemory>
    requires { AreSized frame.now }
    ensures { IfOk result (λ size. size ≡ measure (core (scope_of frame.now) (tree_of tree.now))) }
{
    match tree {
        Surface::Merge(members, _) => {
            let sizes = sizes_of(alloc, members, frame)?;
            Ok(grouped_all(&sizes))
        }
        Surface::Sequence(items, _) => {
            let sizes = sizes_of(alloc, items, frame)?;
            Ok(halved(&sizes))
        }
        Surface::Lam(name, types, body, _) => {
            let body = phrase_size(alloc, body, &Frame::Name(*name, &*frame))?;
            Ok(body.under(1).with_nodes(types_size(types, frame).nodes))
        }
        Surface::Let(defs, body, _) => {
            let body = phrase_size(alloc, body, &Frame::Defs(defs.as_slice(), &*frame))?;
            let sizes = sizes_of_defs(alloc, defs, frame)?;
            Ok(nested(&sizes, body))
        }
        Surface::Letrec(decls, defs, _, body, _) => {
            let inner = Frame::Members(decls.as_slice(), &*frame);
            let sizes = sizes_of_fields(alloc, defs, &inner)?;
            let types = declared_size(decls.as_slice(), frame);
            let fixed = grouped_all(&sizes).under(1).with_nodes(types.nodes);
            let body = phrase_size(alloc, body, &inner)?;
            Ok(fixed.over(body))
        }
        Surface::Lettype(name, ty, body, _) => {
            let size = type_size(ty, frame);
            phrase_size(alloc, body, &Frame::Type(*name, ty, size, &*frame))
        }
        Surface::New(name, _, first, body, _) => {
            let first = phrase_size(alloc, first, frame)?;
            let body = phrase_size(alloc, body, &Frame::Name(*name, &*frame))?;
            Ok(first.over(body))
        }
        Surface::Escape(name, body, _) => {
            let body = phrase_size(alloc, body, &Frame::Name(*name, &*frame))?;
            Ok(body.under(1))
        }
        Surface::Accept(name, _, body, _) => {
            let body = phrase_size(alloc, body, &Frame::Name(*name, &*frame))?;
            Ok(body.under(1))
        }
        Surface::If(test, first, second, _) => {
            let test = phrase_size(alloc, test, frame)?;
            let first = phrase_size(alloc, first, frame)?;
            let second = phrase_size(alloc, second, frame)?;
            Ok(test.beside(first).over(second))
        }
        Surface::WhileDo(first, second, _) | Surface::Assign(first, _, second, _) => {
            let first = phrase_size(alloc, first, frame)?;
            let second = phrase_size(alloc, second, frame)?;
            Ok(first.over(second))
        }
        Surface::Chain(first, links, _) => {
            let first = phrase_size(alloc, first, frame)?;
            let sizes = sizes_of_links(alloc, links, frame)?;
            Ok(grouped(first, &sizes))
        }
        Surface::Apply(first, arguments, _) => {
            let first = phrase_size(alloc, first, frame)?;
            let sizes = sizes_of(alloc, arguments, frame)?;
            Ok(grouped(first, &sizes))
        }
        Surface::Prefix(operators, part, _) => {
            let part = phrase_size(alloc, part, frame)?;
            Ok(part.under(operators.len() as u64))
        }
        Surface::Select(part, names, _) => {
            let part = phrase_size(alloc, part, frame)?;
            Ok(part.under(names.len() as u64))
        }
        Surface::Loop(part, _) | Surface::Field(_, part, _) => {
            let part = phrase_size(alloc, part, frame)?;
            Ok(part.under(1))
        }
        Surface::Group(part, _) => phrase_size(alloc, part, frame),
        Surface::SeqOf(parts, _) => {
            let sizes = sizes_of(alloc, parts, &Frame::Hidden(1, &*frame))?;
            Ok(indexed_size(all_beside(&sizes)))
        }
        Surface::Str(bytes, _) => Ok(indexed_size(text_size(bytes.len()))),
        Surface::Ident(name, _) => Ok(name_size(*name, frame)),
        Surface::Number(..) | Surface::Letter(..) | Surface::Truth(..) | Surface::Skip(_) => {
            Ok(Size::LEAF)
        }
    }
}

#[cycle(size)]
fn sizes_of(alloc: Global, trees: &SurfaceList, frame: &Frame) -> Result<Vec<Size>, OutOfMemory>
    requires { AreSized frame.now }
    ensures { IfOk result (λ sizes.
        sizes.items ≡ trees_measures (scope_of frame.now) (trees_of trees.now)) }
{
    let mut sizes = Vec::new(alloc);
    for tree in trees.as_slice() {
        sizes.push(phrase_size(alloc, tree, frame)?)?;
    }
    Ok(sizes)
}

#[cycle(size)]
fn sizes_of_links(alloc: Global, links: &LinkList, frame: &Frame) -> Result<Vec<Size>, OutOfMemory>
    requires { AreSized frame.now }
    ensures { IfOk result (λ sizes.
        sizes.items ≡ links_measures (scope_of frame.now) (links_of links.now)) }
{
    let mut sizes = Vec::new(alloc);
    for link in links.as_slice() {
        sizes.push(phrase_size(alloc, &link.item, frame)?)?;
    }
    Ok(sizes)
}

// The sizes of the fields of a `letrec`.
#[cycle(size)]
fn sizes_of_fields(alloc: Global, defs: &DefList, frame: &Frame) -> Result<Vec<Size>, OutOfMemory>
    requires { AreSized frame.now }
    ensures { IfOk result (λ sizes.
        sizes.items ≡ fields_measures (scope_of frame.now) (defs_of defs.now)) }
{
    let mut sizes = Vec::new(alloc);
    for def in defs.as_slice() {
        let part = phrase_size(alloc, &def.body, frame)?;
        sizes.push(part.under(1))?;
    }
    Ok(sizes)
}

// The sizes of the definitions of a `let`, each under the binders of those before it.
#[cycle(size)]
fn sizes_of_defs(alloc: Global, defs: &DefList, frame: &Frame) -> Result<Vec<Size>, OutOfMemory>
    requires { AreSized frame.now }
    ensures { IfOk result (λ sizes.
        sizes.items ≡ defs_measures (scope_of frame.now) (defs_of defs.now)) }
{
    let mut sizes = Vec::new(alloc);
    for (i, def) in defs.as_slice().iter().enumerate() {
        sizes.push(phrase_size(alloc, &def.body, &Frame::Hidden(i, &*frame))?)?;
    }
    Ok(sizes)
}

// The size of a name where it is used.
fn name_size(name: Name, frame: &Frame) -> Size
    ensures { (d : ℕ) (at : Place) → result ≡ measure (used d name at ((scope_of frame.now).phrases name)) }
{
    match find(frame, name) {
        Some(Standing::Member(_)) => Size::LEAF.under(1),
        _ => Size::LEAF,
    }
}

// The size of a group to the left that begins with something of that size.
fn grouped(first: Size, sizes: &[Size]) -> Size
    ensures { result ≡ grouped_of first sizes.now }
{
    let mut whole = first;
    for size in sizes {
        whole = whole.over(*size);
    }
    whole
}

// The size of a group to the left, or of one node where there is nothing in it.
fn grouped_all(sizes: &[Size]) -> Size
    ensures { result ≡ grouped_all_of sizes.now }
{
    if sizes.is_empty() {
        Size::LEAF
    } else {
        grouped(sizes[0], &sizes[1..])
    }
}

// The size of definitions one inside the other, around a body of that size.
fn nested(sizes: &[Size], body: Size) -> Size
    ensures { result ≡ nested_of sizes.now body }
{
    let mut whole = body;
    for i in (0..sizes.len()).rev() {
        whole = sizes[i].over(whole);
    }
    whole
}

// The size of a sequence of things of these sizes.
fn halved(sizes: &[Size]) -> Size
    ensures { result ≡ halved_of sizes.now }
{
    match sizes.len() {
        0 => Size::LEAF,
        1 => sizes[0],
        count => halved(&sizes[..count / 2]).over(halved(&sizes[count / 2..])),
    }
}

// The size of things beside each other.
fn all_beside(sizes: &[Size]) -> Size
    ensures { result ≡ all_beside_of sizes.now }
{
    let mut whole = Size::NONE;
    for size in sizes {
        whole = whole.beside(*size);
    }
    whole
}

// The size of the phrase that has these parts by their index.
fn indexed_size(parts: Size) -> Size
    ensures { result ≡ indexed_measure parts }
{
    parts
        .over(Size::LEAF)
        .under(1)
        .with_nodes(1)
        .over(Size::LEAF.under(1))
}

// The size of the characters of a string, or of the one part of the empty one.
fn text_size(count: usize) -> Size
    ensures { result ≡ text_measure count }
{
    if count == 0 {
        Size::LEAF.under(1)
    } else {
        Size::LEAF.with_nodes(count as u64 - 1)
    }
}
