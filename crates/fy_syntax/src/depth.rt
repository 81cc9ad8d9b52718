//! How deep a tree is.

ghost use Rattle.std.specs.Prelude.{◌≡◌, map};
ghost use Rattle.fy_syntax.specs.Reading.{decl_tree, defs_of, links_of, tree_of, trees_of, type_tree, type_trees};
ghost use Rattle.fy_syntax.specs.Nesting.{
  below as below_of,
  capped,
  decls_nesting,
  defs_nesting,
  links_below,
  nesting as nesting_of,
  own as own_of,
  trees_below,
  trees_nesting,
  type_below as type_below_of,
  type_nesting as type_nesting_of,
  types_below,
  types_nesting,
};

use crate::surface::{DefList, LinkList, Surface, SurfaceList};
use crate::types::{DeclList, SurfaceTy, SurfaceTyList};

/// The greatest number of term and type nodes on one path of the tree, or 4294967295 where that number is greater.
/// It takes no memory.
#[cycle(depth)]
pub fn nesting(tree: &Surface) -> u32
    ensures { result ≡ capped (nesting_of (tree_of tree.now)) }
{
    below(tree).saturating_add(own(tree))
}

// 0 for a merge and a sequence, which are no terms, else 1.
fn own(tree: &Surface) -> u32
    ensures { result ≡ own_of (tree_of tree.now) }
{
    match tree {
        Surface::Merge(..) | Surface::Sequence(..) => 0,
        _ => 1,
    }
}

// The nodes on a path below the tree's own.
#[cycle(depth)]
fn below(tree: &Surface) -> u32
    ensures { result ≡ capped (below_of (tree_of tree.now)) }
{
    match tree {
        Surface::Merge(members, _) | Surface::Sequence(members, _) | Surface::SeqOf(members, _) =>
            nesting_of_all(members),
        Surface::Lam(_, alternatives, body, _) => {
            nesting_of_types(alternatives).max(nesting(body))
        }
        Surface::Let(defs, body, _) => nesting_of_defs(defs).max(nesting(body)),
        Surface::Letrec(decls, defs, _, body, _) => {
            nesting_of_decls(decls).max(nesting_of_defs(defs).max(nesting(body)))
        }
        Surface::Lettype(_, ty, body, _) => type_nesting(ty).max(nesting(body)),
        Surface::New(_, _, first, body, _) => nesting(first).max(nesting(body)),
        Surface::If(test, first, second, _) => {
            nesting(test).max(nesting(first).max(nesting(second)))
        }
        Surface::WhileDo(test, body, _) => nesting(test).max(nesting(body)),
        Surface::Escape(_, body, _)
        | Surface::Accept(_, _, body, _)
        | Surface::Loop(body, _)
        | Surface::Field(_, body, _)
        | Surface::Group(body, _) => nesting(body),
        Surface::Assign(target, _, value, _) => below(target).max(nesting(value)),
        Surface::Chain(first, links, _) => below(first).max(below_links(links)),
        Surface::Apply(first, arguments, _) => below(first).max(below_all(arguments)),
        Surface::Prefix(_, operand, _) => below(operand),
        Surface::Select(operand, _, _) => below(operand),
        Surface::Ident(..)
        | Surface::Number(..)
        | Surface::Letter(..)
        | Surface::Str(..)
        | Surface::Truth(..)
        | Surface::Skip(_) => 0,
    }
}

#[cycle(depth)]
fn nesting_of_all(trees: &SurfaceList) -> u32
    ensures { result ≡ capped (trees_nesting (trees_of trees.now)) }
{
    let mut greatest = 0;
    for tree in trees.as_slice() {
        greatest = nesting(tree).max(greatest);
    }
    greatest
}

#[cycle(depth)]
fn below_all(trees: &SurfaceList) -> u32
    ensures { result ≡ capped (trees_below (trees_of trees.now)) }
{
    let mut greatest = 0;
    for tree in trees.as_slice() {
        greatest = below(tree).max(greatest);
    }
    greatest
}

#[cycle(depth)]
fn nesting_of_defs(defs: &DefList) -> u32
    ensures { result ≡ capped (defs_nesting (defs_of defs.now)) }
{
    let mut greatest = 0;
    for def in defs.as_slice() {
        greatest = nesting(&def.body).max(greatest);
    }
    greatest
}

#[cycle(depth)]
fn below_links(links: &LinkList) -> u32
    ensures { result ≡ capped (links_below (links_of links.now)) }
{
    let mut greatest = 0;
    for link in links.as_slice() {
        greatest = below(&link.item).max(greatest);
    }
    greatest
}

fn nesting_of_decls(decls: &DeclList) -> u32
    ensures { result ≡ capped (decls_nesting (map decl_tree decls.now)) }
{
    let mut greatest = 0;
    for decl in decls.as_slice() {
        greatest = type_nesting(&decl.ty).max(greatest);
    }
    greatest
}

fn nesting_of_types(types: &SurfaceTyList) -> u32
    ensures { result ≡ capped (types_nesting (type_trees types.now)) }
{
    let mut greatest = 0;
    for ty in types.as_slice() {
        greatest = type_nesting(ty).max(greatest);
    }
    greatest
}

fn type_nesting(ty: &SurfaceTy) -> u32
    ensures { result ≡ capped (type_nesting_of (type_tree ty.now)) }
{
    type_below(ty).saturating_add(1)
}

// The type nodes on a path below the type's own.
#[cycle(type_depth)]
fn type_below(ty: &SurfaceTy) -> u32
    ensures { result ≡ capped (type_below_of (type_tree ty.now)) }
{
    match ty {
        SurfaceTy::Arrow(domain, codomain, _) => {
            type_below(domain).max(type_below(codomain).saturating_add(1))
        }
        SurfaceTy::Meet(members, _) => below_types(members),
        SurfaceTy::Field(_, part, _) => type_below(part),
        SurfaceTy::Group(part, _) => type_below(part).saturating_add(1),
        SurfaceTy::Ns(_) | SurfaceTy::Atom(..) | SurfaceTy::Ident(..) => 0,
    }
}

#[cycle(type_depth)]
fn below_types(types: &SurfaceTyList) -> u32
    ensures { result ≡ capped (types_below (type_trees types.now)) }
{
    let mut greatest = 0;
    for ty in types.as_slice() {
        greatest = type_below(ty).max(greatest);
    }
    greatest
}
