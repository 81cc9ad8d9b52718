//! The nodes of the tree, each made of its parts.

ghost use Rattle.std.specs.Prelude.{◌≡◌, IfOk, map};
ghost use Rattle.fy_syntax.specs.Reading.{decl_tree, defs_of, links_of, tree_of, trees_of, type_tree, type_trees};
ghost use Rattle.fy_syntax.specs.Spells.{apply_of, chain_of, field_of, prefixed_of, select_of};
ghost use Rattle.fy_syntax.specs.Trees.{Links, Tree, TypeTree};

use fy_base::{BinOp, OutOfMemory, Place};
use fy_syntax::{
    DeclList, DefList, Link, LinkList, NameList, PrefixList, Surface, SurfaceList, SurfaceTy,
    SurfaceTyList,
};
use fy_types::{Atom, Name};
use std::alloc::Global;

pub(crate) fn arrow(
    alloc: Global,
    domain: SurfaceTy,
    codomain: SurfaceTy,
    at: Place,
) -> Result<SurfaceTy, OutOfMemory>
    ensures { IfOk result (λ made. type_tree made ≡ TypeTree.arrow (type_tree domain) (type_tree codomain) at) }
{
    let domain = Box::new(alloc, domain)?;
    let codomain = Box::new(alloc, codomain)?;
    Ok(SurfaceTy::Arrow(domain, codomain, at))
}

pub(crate) fn type_field(
    alloc: Global,
    names: NameList,
    part: SurfaceTy,
    at: Place,
) -> Result<SurfaceTy, OutOfMemory>
    ensures { IfOk result (λ made. type_tree made ≡ field_of names (type_tree part) at) }
{
    if names.is_empty() {
        return Ok(part);
    }
    let part = Box::new(alloc, part)?;
    Ok(SurfaceTy::Field(names, part, at))
}

pub(crate) fn type_group(
    alloc: Global,
    inside: SurfaceTy,
    at: Place,
) -> Result<SurfaceTy, OutOfMemory>
    ensures { IfOk result (λ made. type_tree made ≡ TypeTree.group (type_tree inside) at) }
{
    let inside = Box::new(alloc, inside)?;
    Ok(SurfaceTy::Group(inside, at))
}

pub(crate) fn lam(
    alloc: Global,
    name: Name,
    alternatives: SurfaceTyList,
    body: Surface,
    at: Place,
) -> Result<Surface, OutOfMemory>
    ensures { IfOk result (λ made. tree_of made ≡ Tree.lam name (type_trees alternatives) (tree_of body) at) }
{
    let body = Box::new(alloc, body)?;
    Ok(Surface::Lam(name, alternatives, body, at))
}

pub(crate) fn let_in(
    alloc: Global,
    defs: DefList,
    body: Surface,
    at: Place,
) -> Result<Surface, OutOfMemory>
    ensures { IfOk result (λ made. tree_of made ≡ Tree.let_in (defs_of defs) (tree_of body) at) }
{
    let body = Box::new(alloc, body)?;
    Ok(Surface::Let(defs, body, at))
}

pub(crate) fn letrec(
    alloc: Global,
    decls: DeclList,
    defs: DefList,
    in_at: Place,
    body: Surface,
    at: Place,
) -> Result<Surface, OutOfMemory>
    ensures { IfOk result (λ made. tree_of made
        ≡ Tree.letrec (map decl_tree decls) (defs_of defs) in_at (tree_of body) at) }
{
    let body = Box::new(alloc, body)?;
    Ok(Surface::Letrec(decls, defs, in_at, body, at))
}

pub(crate) fn let_type(
    alloc: Global,
    name: Name,
    ty: SurfaceTy,
    body: Surface,
    at: Place,
) -> Result<Surface, OutOfMemory>
    ensures { IfOk result (λ made. tree_of made ≡ Tree.let_type name (type_tree ty) (tree_of body) at) }
{
    let body = Box::new(alloc, body)?;
    Ok(Surface::Lettype(name, ty, body, at))
}

pub(crate) fn new(
    alloc: Global,
    name: Name,
    kind: Atom,
    first: Surface,
    body: Surface,
    at: Place,
) -> Result<Surface, OutOfMemory>
    ensures { IfOk result (λ made. tree_of made ≡ Tree.new name kind (tree_of first) (tree_of body) at) }
{
    let first = Box::new(alloc, first)?;
    let body = Box::new(alloc, body)?;
    Ok(Surface::New(name, kind, first, body, at))
}

pub(crate) fn escape(
    alloc: Global,
    name: Name,
    body: Surface,
    at: Place,
) -> Result<Surface, OutOfMemory>
    ensures { IfOk result (λ made. tree_of made ≡ Tree.escape name (tree_of body) at) }
{
    let body = Box::new(alloc, body)?;
    Ok(Surface::Escape(name, body, at))
}

pub(crate) fn accept(
    alloc: Global,
    name: Name,
    kind: Atom,
    body: Surface,
    at: Place,
) -> Result<Surface, OutOfMemory>
    ensures { IfOk result (λ made. tree_of made ≡ Tree.accept name kind (tree_of body) at) }
{
    let body = Box::new(alloc, body)?;
    Ok(Surface::Accept(name, kind, body, at))
}

pub(crate) fn cond(
    alloc: Global,
    test: Surface,
    first: Surface,
    second: Surface,
    at: Place,
) -> Result<Surface, OutOfMemory>
    ensures { IfOk result (λ made. tree_of made
        ≡ Tree.cond (tree_of test) (tree_of first) (tree_of second) at) }
{
    let test = Box::new(alloc, test)?;
    let first = Box::new(alloc, first)?;
    let second = Box::new(alloc, second)?;
    Ok(Surface::If(test, first, second, at))
}

pub(crate) fn while_do(
    alloc: Global,
    test: Surface,
    body: Surface,
    at: Place,
) -> Result<Surface, OutOfMemory>
    ensures { IfOk result (λ made. tree_of made ≡ Tree.while_do (tree_of test) (tree_of body) at) }
{
    let test = Box::new(alloc, test)?;
    let body = Box::new(alloc, body)?;
    Ok(Surface::WhileDo(test, body, at))
}

pub(crate) fn forever(alloc: Global, body: Surface, at: Place) -> Result<Surface, OutOfMemory>
    ensures { IfOk result (λ made. tree_of made ≡ Tree.loop (tree_of body) at) }
{
    let body = Box::new(alloc, body)?;
    Ok(Surface::Loop(body, at))
}

pub(crate) fn field(
    alloc: Global,
    name: Name,
    body: Surface,
    at: Place,
) -> Result<Surface, OutOfMemory>
    ensures { IfOk result (λ made. tree_of made ≡ Tree.field name (tree_of body) at) }
{
    let body = Box::new(alloc, body)?;
    Ok(Surface::Field(name, body, at))
}

pub(crate) fn assign(
    alloc: Global,
    target: Surface,
    becomes_at: Place,
    value: Surface,
    at: Place,
) -> Result<Surface, OutOfMemory>
    ensures { IfOk result (λ made. tree_of made
        ≡ Tree.assign (tree_of target) becomes_at (tree_of value) at) }
{
    let target = Box::new(alloc, target)?;
    let value = Box::new(alloc, value)?;
    Ok(Surface::Assign(target, becomes_at, value, at))
}

pub(crate) fn chain(
    alloc: Global,
    first: Surface,
    links: LinkList,
    at: Place,
) -> Result<Surface, OutOfMemory>
    ensures { IfOk result (λ made. tree_of made ≡ chain_of (tree_of first) (links_of links) at) }
{
    if links.len() == 0 {
        return Ok(first);
    }
    let first = Box::new(alloc, first)?;
    Ok(Surface::Chain(first, links, at))
}

pub(crate) fn relation(
    alloc: Global,
    first: Surface,
    op: BinOp,
    op_at: Place,
    second: Surface,
    at: Place,
) -> Result<Surface, OutOfMemory>
    ensures { IfOk result (λ made. tree_of made
        ≡ Tree.chain (tree_of first) (Links.and_link op op_at (tree_of second) Links.no_links) at) }
{
    let mut links = LinkList::new(alloc);
    links.push(Link {
        op,
        at: op_at,
        item: second,
    })?;
    let first = Box::new(alloc, first)?;
    Ok(Surface::Chain(first, links, at))
}

pub(crate) fn prefixed(
    alloc: Global,
    operators: PrefixList,
    operand: Surface,
    at: Place,
) -> Result<Surface, OutOfMemory>
    ensures { IfOk result (λ made. tree_of made ≡ prefixed_of operators (tree_of operand) at) }
{
    if operators.is_empty() {
        return Ok(operand);
    }
    let operand = Box::new(alloc, operand)?;
    Ok(Surface::Prefix(operators, operand, at))
}

pub(crate) fn apply(
    alloc: Global,
    first: Surface,
    arguments: SurfaceList,
    at: Place,
) -> Result<Surface, OutOfMemory>
    ensures { IfOk result (λ made. tree_of made ≡ apply_of (tree_of first) (trees_of arguments) at) }
{
    if arguments.len() == 0 {
        return Ok(first);
    }
    let first = Box::new(alloc, first)?;
    Ok(Surface::Apply(first, arguments, at))
}

pub(crate) fn select(
    alloc: Global,
    operand: Surface,
    names: NameList,
    at: Place,
) -> Result<Surface, OutOfMemory>
    ensures { IfOk result (λ made. tree_of made ≡ select_of (tree_of operand) names at) }
{
    if names.is_empty() {
        return Ok(operand);
    }
    let operand = Box::new(alloc, operand)?;
    Ok(Surface::Select(operand, names, at))
}

pub(crate) fn group(alloc: Global, inside: Surface, at: Place) -> Result<Surface, OutOfMemory>
    ensures { IfOk result (λ made. tree_of made ≡ Tree.group (tree_of inside) at) }
{
    let inside = Box::new(alloc, inside)?;
    Ok(Surface::Group(inside, at))
}
