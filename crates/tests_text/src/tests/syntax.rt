ghost use Rattle.std.specs.Prelude.{◌≡◌, IfOk, pos};
ghost use Rattle.fy_base.specs.declared.data.BinOp.TheVariants as op;
ghost use Rattle.fy_base.specs.declared.data.Place.{Place as PlaceRecord};
ghost use Rattle.fy_base.specs.Places.{first_place};
ghost use Rattle.fy_syntax.specs.Reading.{tree_of};
ghost use Rattle.fy_syntax.specs.Trees.{Tree, Trees, Links};

use crate::tests::made::AT;
use fy_base::{BinOp, OutOfMemory, Place};
use fy_syntax::{
    Def, DefList, Link, LinkList, Surface, SurfaceList, SurfaceTy, SurfaceTyList,
    grammar_is_unambiguous, nesting, print_surface,
};
use fy_types::Names;
use std::alloc::Global;
use std::test::Fail;

// `putint ( 1 + 2 )`, where `putint` has the number 1
fn putint_of_a_sum(alloc: Global) -> Result<Surface, OutOfMemory>
    ensures { let at : PlaceRecord = first_place in
        IfOk result (λ t. tree_of t
        ≡ Tree.apply (Tree.ident 1 at) (Trees.and_tree (Tree.group (Tree.chain (Tree.number (pos 1) at)
        (Links.and_link op.Add at (Tree.number (pos 2) at) Links.no_links) at) at) Trees.no_trees) at) }
{
    let at = Place::first();
    let mut links = LinkList::new(alloc);
    links.push(Link {
        op: BinOp::Add,
        at,
        item: Surface::Number(2, at),
    })?;
    let first = Box::new(alloc, Surface::Number(1, at))?;
    let sum = Box::new(alloc, Surface::Chain(first, links, at))?;
    let mut arguments = SurfaceList::new(alloc);
    arguments.push(Surface::Group(sum, at))?;
    let putint = Box::new(alloc, Surface::Ident(1, at))?;
    Ok(Surface::Apply(putint, arguments, at))
}

// `\ x : ( ns -> ns ) | ns . x`
fn abstraction(alloc: Global) -> Result<Surface, Fail> {
    let arrow = SurfaceTy::Arrow(
        Box::new(alloc, SurfaceTy::Ns(AT))?,
        Box::new(alloc, SurfaceTy::Ns(AT))?,
        AT,
    );
    let mut alternatives = SurfaceTyList::new(alloc);
    alternatives.push(SurfaceTy::Group(Box::new(alloc, arrow)?, AT))?;
    alternatives.push(SurfaceTy::Ns(AT))?;
    let body = Box::new(alloc, Surface::Ident(13, AT))?;
    Ok(Surface::Lam(13, alternatives, body, AT))
}

// `let x == loop skip in x , x`
fn definition(alloc: Global) -> Result<Surface, Fail> {
    let mut defs = DefList::new(alloc);
    defs.push(Def {
        name: 13,
        at: AT,
        body: Surface::Loop(Box::new(alloc, Surface::Skip(AT))?, AT),
    })?;
    let whole = Surface::Let(defs, Box::new(alloc, Surface::Ident(13, AT))?, AT);
    let mut members = SurfaceList::new(alloc);
    members.push(whole)?;
    members.push(Surface::Ident(13, AT))?;
    Ok(Surface::Merge(members, AT))
}

// A leaf is one node, a group puts its phrase one node further in, and so do `->` and a group in a type.
#[test]
fn nesting_counts_terms_and_types_on_a_path(rt: HostRuntime) -> Result<(), Fail> {
    let alloc = rt.alloc();
    grammar_is_unambiguous();
    assert_eq!(rt; nesting(&Surface::Number(7, AT)), 1);
    assert_eq!(rt; nesting(&putint_of_a_sum(alloc)?), 2);
    assert_eq!(rt; nesting(&abstraction(alloc)?), 4);
    assert_eq!(rt; nesting(&definition(alloc)?), 3);
    Ok(())
}

#[test]
fn prints_tokens_with_one_blank_between_two(rt: HostRuntime) -> Result<(), Fail> {
    let alloc = rt.alloc();
    let names = Names::new(alloc)?;
    let tree = putint_of_a_sum(alloc)?;
    let text = print_surface(alloc, &names, &tree)?;
    assert_eq!(rt; text.as_slice(), b"putint ( 1 + 2 )".as_slice());
    Ok(())
}
