//! Expansion of trees that are made by hand. What a text spells stands beside each.

use crate::tests::made::AT;
use fy_base::{BinOp, OutOfMemory};
use fy_expand::{expand, visits};
use fy_phrase::node_count;
use fy_syntax::{Link, LinkList, Surface, SurfaceList, SurfaceTy, SurfaceTyList};
use fy_types::{Atom, Name};
use std::alloc::Global;
use std::test::Fail;

const PUTINT: Name = 1;

const X: Name = 13;

// `putint ( p )`
fn put(alloc: Global, part: Surface) -> Result<Surface, OutOfMemory> {
    let mut arguments = SurfaceList::new(alloc);
    arguments.push(part)?;
    Ok(Surface::Apply(Box::new(alloc, Surface::Ident(PUTINT, AT))?, arguments, AT))
}

// `\ x : int | int | .. . body`, with so many alternatives
fn abstraction(alloc: Global, count: usize, body: Surface) -> Result<Surface, OutOfMemory> {
    let mut types = SurfaceTyList::new(alloc);
    for _ in 0..count {
        types.push(SurfaceTy::Atom(Atom::Int, AT))?;
    }
    Ok(Surface::Lam(X, types, Box::new(alloc, body)?, AT))
}

// `1 + 1 + ..`, with so many ones
fn sum(alloc: Global, count: usize) -> Result<Surface, OutOfMemory> {
    let mut links = LinkList::new(alloc);
    for _ in 1..count {
        links.push(Link {
            op: BinOp::Add,
            at: AT,
            item: Surface::Number(1, AT),
        })?;
    }
    Ok(Surface::Chain(Box::new(alloc, Surface::Number(1, AT))?, links, AT))
}

#[test]
fn puts_the_program_inside_the_prelude(rt: HostRuntime) -> Result<(), Fail> {
    let alloc = rt.alloc();
    // `putint (1 + 1)`
    let phrase = expand(alloc, &put(alloc, sum(alloc, 2)?)?)?;
    assert_eq!(rt; node_count(&phrase), 29);
    assert_eq!(rt; visits(&phrase), 29);
    // `\x: int | int. skip`
    let phrase = expand(alloc, &abstraction(alloc, 2, Surface::Skip(AT))?)?;
    assert_eq!(rt; node_count(&phrase), 26);
    assert_eq!(rt; visits(&phrase), 27);
    Ok(())
}
