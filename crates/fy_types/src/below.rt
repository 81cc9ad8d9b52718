//! Subtyping of types of any size.

ghost use Rattle.std.specs.Prelude.{◌↔◌, ◌≤◌, max, IsTrue, IfOk, OnOk};
ghost use Rattle.fy_types.specs.declared.types.Ty.{size-Ty};
ghost use Rattle.fy_types.specs.Subtyping.{IsSubtype};
ghost use Rattle.fy_types.specs.Paths.{PlainPath, no_paths, paths, all_paths};
ghost use Rattle.fy_types.specs.PathOrder.{ArePathsBelow, HasBelow};
ghost use Rattle.fy_types.specs.Reading.{plain_type, plain_types};
ghost use Rattle.fy_types.specs.Rests.{listed, largest, Adds};

use crate::Name;
use crate::subtype::is_end_below;
use crate::types::{Atom, Ty, TyList};
use fy_base::OutOfMemory;
use std::alloc::Global;

/// Whether the first type is a subtype of the second. The types may have any size: no path form is
/// made, which may be far larger than its type.
pub fn is_below(alloc: Global, a: &Ty, b: &Ty) -> Result<bool, OutOfMemory>
    ensures { IfOk result (λ r. IsTrue r ↔ IsSubtype (plain_type a.now) (plain_type b.now)) }
{
    is_one_below(alloc, a, b)
}

#[cycle(below)]
fn is_one_below(alloc: Global, a: &Ty, b: &Ty) -> Result<bool, OutOfMemory>
    ensures { IfOk result
        (λ r. IsTrue r ↔ ArePathsBelow (paths (plain_type a.now)) (paths (plain_type b.now))) }
{
    let mut list = Vec::new(alloc);
    list.push(a)?;
    is_meet_below(alloc, &list, b)
}

// Whether the meet of the listed types is below the type.
#[cycle(below)]
fn is_meet_below(alloc: Global, list: &[&Ty], b: &Ty) -> Result<bool, OutOfMemory>
    ensures { IfOk result
        (λ r. IsTrue r ↔ ArePathsBelow (listed list.now) (paths (plain_type b.now))) }
{
    match b {
        Ty::Ns => Ok(true),
        Ty::Atom(end) => Ok(has_listed_end(list, *end)),
        Ty::Arrow(domain, rest) => {
            let rests = rests_after_call(alloc, list, domain)?;
            is_meet_below(alloc, &rests, rest)
        }
        Ty::Field(name, part) => {
            let rests = rests_after_field(alloc, list, *name)?;
            is_meet_below(alloc, &rests, part)
        }
        Ty::Meet(all) => is_meet_below_all(alloc, list, all),
    }
}

#[cycle(below)]
fn is_meet_below_all(alloc: Global, list: &[&Ty], all: &TyList) -> Result<bool, OutOfMemory>
    ensures { IfOk result
        (λ r. IsTrue r ↔ ArePathsBelow (listed list.now) (all_paths (plain_types all.now))) }
{
    for b in all.as_slice() {
        if !is_meet_below(alloc, list, b)? {
            return Ok(false);
        }
    }
    Ok(true)
}

fn has_listed_end(list: &[&Ty], end: Atom) -> bool
    ensures { IsTrue result ↔ HasBelow (listed list.now) (PlainPath.end end) }
{
    for ty in list {
        if has_end(ty, end) {
            return true;
        }
    }
    false
}

#[cycle(has_end)]
fn has_end(ty: &Ty, end: Atom) -> bool
    ensures { IsTrue result ↔ HasBelow (paths (plain_type ty.now)) (PlainPath.end end) }
{
    match ty {
        Ty::Ns => false,
        Ty::Arrow(_, _) => false,
        Ty::Field(_, _) => false,
        Ty::Atom(atom) => is_end_below(*atom, end),
        Ty::Meet(all) => has_member_end(all, end),
    }
}

#[cycle(has_end)]
fn has_member_end(all: &TyList, end: Atom) -> bool
    ensures { IsTrue result ↔ HasBelow (all_paths (plain_types all.now)) (PlainPath.end end) }
{
    for ty in all.as_slice() {
        if has_end(ty, end) {
            return true;
        }
    }
    false
}

// What the listed types give after a call with an argument of the type.
#[cycle(below)]
fn rests_after_call<'a>(
    alloc: Global,
    list: &[&'a Ty],
    argument: &Ty,
) -> Result<Vec<&'a Ty>, OutOfMemory>
    ensures rests { IfOk result
        (λ made. Adds (PlainPath.call (paths (plain_type argument.now))) no_paths
        (listed made.items) (listed list.now)) }
    ensures size { IfOk result (λ made. largest made.items ≤ largest list.now) }
{
    let mut made = Vec::new(alloc);
    for ty in list {
        add_rests_after_call(alloc, ty, argument, &mut made)?;
    }
    Ok(made)
}

#[cycle(below)]
fn add_rests_after_call<'a>(
    alloc: Global,
    ty: &'a Ty,
    argument: &Ty,
    made: &mut Vec<&'a Ty>,
) -> Result<(), OutOfMemory>
    ensures rests { OnOk result
        (Adds (PlainPath.call (paths (plain_type argument.now)))
        (listed made.old.items) (listed made.new.items) (paths (plain_type ty.now))) }
    ensures size { OnOk result (largest made.new.items ≤ max (largest made.old.items) (size-Ty ty.now)) }
{
    match ty {
        Ty::Ns => {}
        Ty::Atom(_) => {}
        Ty::Field(_, _) => {}
        Ty::Arrow(domain, rest) => {
            if is_one_below(alloc, argument, domain)? {
                made.push(rest)?;
            }
        }
        Ty::Meet(all) => {
            for part in all.as_slice() {
                add_rests_after_call(alloc, part, argument, made)?;
            }
        }
    }
    Ok(())
}

// What the listed types give after a choice of the field.
fn rests_after_field<'a>(
    alloc: Global,
    list: &[&'a Ty],
    name: Name,
) -> Result<Vec<&'a Ty>, OutOfMemory>
    ensures rests { IfOk result
        (λ made. Adds (PlainPath.pick name) no_paths (listed made.items) (listed list.now)) }
    ensures size { IfOk result (λ made. largest made.items ≤ largest list.now) }
{
    let mut made = Vec::new(alloc);
    for ty in list {
        add_rests_after_field(ty, name, &mut made)?;
    }
    Ok(made)
}

fn add_rests_after_field<'a>(
    ty: &'a Ty,
    name: Name,
    made: &mut Vec<&'a Ty>,
) -> Result<(), OutOfMemory>
    ensures rests { OnOk result
        (Adds (PlainPath.pick name)
        (listed made.old.items) (listed made.new.items) (paths (plain_type ty.now))) }
    ensures size { OnOk result (largest made.new.items ≤ max (largest made.old.items) (size-Ty ty.now)) }
{
    match ty {
        Ty::Ns => {}
        Ty::Atom(_) => {}
        Ty::Arrow(_, _) => {}
        Ty::Field(other, part) => {
            if *other == name {
                made.push(part)?;
            }
        }
        Ty::Meet(all) => {
            for part in all.as_slice() {
                add_rests_after_field(part, name, made)?;
            }
        }
    }
    Ok(())
}
