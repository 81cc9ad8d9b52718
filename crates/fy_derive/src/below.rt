//! Subtyping of types in a table.

ghost use Rattle.std.specs.Prelude.{◌≡◌, ◌<◌, ◌↔◌, IsTrue, IfOk};
ghost use Rattle.fy_types.specs.Paths.{PlainPath, no_paths, paths};
ghost use Rattle.fy_types.specs.PathOrder.{ArePathsBelow, HasBelow};
ghost use Rattle.fy_types.specs.Rests.{Adds};
ghost use Rattle.fy_derive.specs.Covers.{covered, AreUnder, AreSingle};
ghost use Rattle.fy_derive.specs.Shown.{total, shown};
ghost use Rattle.fy_derive.specs.Subsumption.{is_below as below_test};

use crate::members::members_of;
use crate::node::TypeNode;
use crate::table::TypeTable;
use fy_base::OutOfMemory;
use fy_types::{Atom, Name, is_end_below};
use std::alloc::Global;

/// Whether the first type is a subtype of the second. Both may be larger than any tree that fits.
pub fn is_below(alloc: Global, table: &TypeTable, a: usize, b: usize) -> Result<bool, OutOfMemory>
    requires first { a < total table.now }
    requires second { b < total table.now }
    ensures { IfOk result (λ r. r ≡ below_test (shown table.now a) (shown table.now b)) }
{
    is_one_below(alloc, table, a, b)
}

#[cycle(below)]
fn is_one_below(alloc: Global, table: &TypeTable, a: usize, b: usize) -> Result<bool, OutOfMemory>
    requires first { a < total table.now }
    requires second { b < total table.now }
    ensures { IfOk result (λ r. IsTrue r ↔ ArePathsBelow (paths (shown table.now a)) (paths (shown table.now b))) }
{
    if a == b {
        return Ok(true);
    }
    let mut list = Vec::new(alloc);
    list.push(a)?;
    is_meet_below(alloc, table, &list, a, b)
}

// Whether the meet of the types is a subtype of the type.
#[cycle(below)]
fn is_meet_below(
    alloc: Global,
    table: &TypeTable,
    list: &[usize],
    bound: usize,
    b: usize,
) -> Result<bool, OutOfMemory>
    requires bound { bound < total table.now }
    requires under { AreUnder bound list.now }
    requires second { b < total table.now }
    ensures { IfOk result (λ r. IsTrue r ↔ ArePathsBelow (covered table.now list.now) (paths (shown table.now b))) }
{
    match table.node(b) {
        TypeNode::Ns => Ok(true),
        TypeNode::NoTypes => Ok(true),
        TypeNode::Atom(end) => {
            let members = members_of(alloc, table, list, bound)?;
            Ok(has_end(table, &members, bound, end))
        }
        TypeNode::Arrow(domain, rest) => {
            let members = members_of(alloc, table, list, bound)?;
            let rests = rests_after_call(alloc, table, &members, bound, domain)?;
            is_meet_below(alloc, table, &rests, bound, rest)
        }
        TypeNode::Field(name, part) => {
            let members = members_of(alloc, table, list, bound)?;
            let rests = rests_after_field(alloc, table, &members, bound, name)?;
            is_meet_below(alloc, table, &rests, bound, part)
        }
        TypeNode::AndType(first, rest) => {
            if !is_meet_below(alloc, table, list, bound, first)? {
                return Ok(false);
            }
            is_meet_below(alloc, table, list, bound, rest)
        }
    }
}

fn has_end(table: &TypeTable, members: &[usize], bound: usize, end: Atom) -> bool
    requires single { AreSingle table.now members.now }
    requires bound { bound < total table.now }
    requires under { AreUnder bound members.now }
    ensures { IsTrue result ↔ HasBelow (covered table.now members.now) (PlainPath.end end) }
{
    let _ = bound;
    for member in members {
        if let TypeNode::Atom(atom) = table.node(*member) {
            if is_end_below(atom, end) {
                return true;
            }
        }
    }
    false
}

// What the types give after a call with an argument of the type.
#[cycle(below)]
fn rests_after_call(
    alloc: Global,
    table: &TypeTable,
    members: &[usize],
    bound: usize,
    argument: usize,
) -> Result<Vec<usize>, OutOfMemory>
    requires single { AreSingle table.now members.now }
    requires bound { bound < total table.now }
    requires under { AreUnder bound members.now }
    requires argument { argument < total table.now }
    ensures rests { IfOk result (λ v. Adds (PlainPath.call (paths (shown table.now argument))) no_paths
        (covered table.now v.items) (covered table.now members.now)) }
    ensures under { IfOk result (λ v. AreUnder bound v.items) }
{
    let mut rests = Vec::new(alloc);
    for member in members {
        if let TypeNode::Arrow(domain, rest) = table.node(*member) {
            if is_one_below(alloc, table, argument, domain)? {
                rests.push(rest)?;
            }
        }
    }
    Ok(rests)
}

// What the types give after a choice of the field.
fn rests_after_field(
    alloc: Global,
    table: &TypeTable,
    members: &[usize],
    bound: usize,
    name: Name,
) -> Result<Vec<usize>, OutOfMemory>
    requires single { AreSingle table.now members.now }
    requires bound { bound < total table.now }
    requires under { AreUnder bound members.now }
    ensures rests { IfOk result (λ v. Adds (PlainPath.pick name) no_paths (covered table.now v.items) (covered table.now members.now)) }
    ensures under { IfOk result (λ v. AreUnder bound v.items) }
{
    let mut rests = Vec::new(alloc);
    for member in members {
        if let TypeNode::Field(other, rest) = table.node(*member) {
            if other == name {
                rests.push(rest)?;
            }
        }
    }
    let _ = bound;
    Ok(rests)
}
