//! Forms of any number of parts: abstractions under their alternatives, and cases.

ghost use Rattle.std.specs.Prelude.{◌≡◌, ◌+◌, ◌<◌, ◌≤◌, ◌⊎◌, IfOk, IsErrOf, length, map};
ghost use Rattle.fy_types.specs.Limits.{IsTooLarge};
ghost use Rattle.fy_types.specs.Once.{once};
ghost use Rattle.fy_types.specs.Paths.{called as called_of, paths as paths_in_type};
ghost use Rattle.fy_types.specs.Reading.{plain_paths, plain_type, types_from};
ghost use Rattle.fy_types.specs.Types.{atom as atom_type};
ghost use Rattle.fy_derive.specs.Derivations.{and_derivation, rule, sub};
ghost use Rattle.fy_derive.specs.Reading.{derivations_from, plain_derivation};
ghost use Rattle.fy_least.specs.Counts.{AreWithin, SomeTooLarge, nodes_of_forms};
ghost use Rattle.fy_least.specs.Limits.{most_together};
ghost use Rattle.fy_least.specs.Many.{
  AreAlternatives,
  AreOnce,
  IsAbstracted,
  IsAlternative,
  IsCase,
  IsCased,
  all_at,
  blame_at_first,
  blame_at_some,
  called_bodies,
  case_forms,
  earlier_joined,
  joined as joined_of,
  meet_of_all,
  total_of as total_of_all,
};
ghost use Rattle.fy_least.specs.Visited.{IsMade, IsRefused};

use crate::error::LeastError;
use crate::found::{Found, both, to_atom, to_paths, to_type};
use fy_base::{OutOfMemory, Place};
use fy_derive::{Derivation, DerivationList};
use fy_forms::{TypeError, call_form, join, meet, paths_of, size_of_paths};
use fy_memo::Memo;
use fy_order::has;
use fy_types::{Atom, Paths, Ty, copy_paths, copy_ty};
use std::alloc::Global;

/// An abstraction, from what is found of its body under each alternative.
pub(crate) fn abstraction(
    alloc: Global,
    alternatives: &[Ty],
    bodies: Vec<Found>,
    at: Place,
    memo: &mut Memo,
) -> Result<Found, LeastError>
    requires same { length alternatives.now ≡ length bodies.items }
    requires once { AreOnce bodies.items }
    ensures made { IfOk result
        (λ f. IsMade (once (called_bodies (types_from (map plain_type alternatives.now)) bodies.items))
        (blame_at_first bodies.items at) (total_of_all bodies.items) f) }
    ensures derived { IfOk result (λ f. IsAbstracted bodies.items (plain_derivation f.derivation)) }
    ensures large { IsErrOf result LeastError.TypeTooLarge →
        IsRefused (once (called_bodies (types_from (map plain_type alternatives.now)) bodies.items))
        (total_of_all bodies.items) }
{
    let list = bodies.as_slice();
    let blame = blame_at_head(list, at);
    let total = total_of(0, list)?;
    let paths = paths_of_calls(alloc, alternatives, list)?;
    let members = taken(alloc, bodies, memo)?;
    let derivation = meet_of(alloc, members)?;
    Found::new(paths, derivation, blame, total)
}

// Where the first body is blamed, if it has no type of use, else that place.
fn blame_at_head(bodies: &[Found], at: Place) -> Place
    ensures { result ≡ blame_at_first bodies.now at }
{
    if bodies.len() == 0 {
        at
    } else {
        bodies[0].blame_or(at)
    }
}

// The paths of all bodies, each with a call of its alternative in front.
fn paths_of_calls(alloc: Global, alternatives: &[Ty], bodies: &[Found]) -> Result<Paths, LeastError>
    requires same { length alternatives.now ≡ length bodies.now }
    requires once { AreOnce bodies.now }
    ensures ok { IfOk result (λ made. plain_paths made
        ≡ once (called_bodies (types_from (map plain_type alternatives.now)) bodies.now)) }
    ensures large { IsErrOf result LeastError.TypeTooLarge →
        IsTooLarge (once (called_bodies (types_from (map plain_type alternatives.now)) bodies.now)) }
{
    let mut paths = Paths::new(alloc);
    for i in 0..bodies.len() {
        let called = paths_of_call(alloc, &alternatives[i], &bodies[i].paths)?;
        paths = meet(alloc, &paths, &called)?;
    }
    Ok(paths)
}

/// The paths, each with a call of the type in front.
pub(crate) fn paths_of_call(
    alloc: Global,
    alternative: &Ty,
    paths: &Paths,
) -> Result<Paths, TypeError>
    ensures ok { IfOk result
        (λ made. plain_paths made ≡ called_of (paths_in_type (plain_type alternative.now)) (plain_paths paths.now)) }
    ensures large { IsErrOf result TypeError.TypeTooLarge →
        IsTooLarge (called_of (paths_in_type (plain_type alternative.now)) (plain_paths paths.now)) }
{
    if paths.len() == 0 {
        return Ok(Paths::new(alloc));
    }
    let domain = paths_of(alloc, alternative)?;
    call_form(alloc, &domain, paths)
}

// The alternatives, each body taken at a type with its paths. There are no more of them than a
// number of 32 bits tells: as many more would not fit into memory.
fn taken(alloc: Global, bodies: Vec<Found>, memo: &mut Memo) -> Result<Vec<Derivation>, OutOfMemory>
    ensures { IfOk result (λ v. AreAlternatives 0 bodies.items (derivations_from (map plain_derivation v.items))) }
{
    let mut members = Vec::new(alloc);
    let mut index = 0u32;
    for body in bodies {
        members.push(alternative(alloc, index, body, &mut *memo)?)?;
        index = next_index(index)?;
    }
    Ok(members)
}

// The alternative with the index, the body taken at a type with its paths.
fn alternative(
    alloc: Global,
    index: u32,
    body: Found,
    memo: &mut Memo,
) -> Result<Derivation, OutOfMemory>
    ensures { IfOk result (λ d. IsAlternative index body (plain_derivation d)) }
{
    let Found {
        paths,
        derivation,
        ..
    } = body;
    let inner = to_paths(alloc, &paths, derivation, memo)?;
    Ok(Derivation::Alt(index, Box::new(alloc, inner)?))
}

fn next_index(index: u32) -> Result<u32, OutOfMemory>
    ensures { IfOk result (λ n. n ≡ index + 1) }
{
    index.checked_add(1).ok_or(OutOfMemory)
}

// The meet of the derivations, of which one alone is its own meet.
fn meet_of(alloc: Global, members: Vec<Derivation>) -> Result<Derivation, OutOfMemory>
    ensures { IfOk result (λ d. plain_derivation d ≡ meet_of_all (derivations_from (map plain_derivation members.items))) }
{
    let count = members.len();
    let mut list = DerivationList::new(alloc);
    for member in members {
        if count == 1 {
            return Ok(member);
        }
        list.push(member)?;
    }
    if count == 0 {
        return Ok(Derivation::Ns);
    }
    Ok(Derivation::Meet(list))
}

/// A case, from its index and its parts.
pub(crate) fn case(
    alloc: Global,
    index: Found,
    parts: Vec<Found>,
    at: Place,
    memo: &mut Memo,
) -> Result<Found, LeastError>
    requires { index.total ≤ most_together }
    ensures made { IfOk result (λ f. IsCase index parts.items at f) }
    ensures derived { IfOk result (λ f. IsCased index parts.items (plain_derivation f.derivation)) }
    ensures large { IsErrOf result LeastError.TypeTooLarge → SomeTooLarge (case_forms index parts.items)
        ⊎ (most_together < index.total + total_of_all parts.items + nodes_of_forms (case_forms index parts.items)) }
{
    let list = parts.as_slice();
    let blame = index.blame_or(blame_among(list, at));
    let total = total_of(index.total, list)?;
    if !has(&index.paths, Atom::Int) {
        return Ok(Found::none(alloc, blame, total));
    }
    if list.len() == 0 {
        return Ok(Found::none(alloc, blame, total));
    }
    let (paths, earlier) = joined(alloc, list)?;
    let counted = both(total, earlier)?;
    let ty = memo.ty_of(alloc, &paths)?;
    let derivation = all_taken(alloc, &ty, index.derivation, parts)?;
    Found::new(paths, derivation, blame, counted)
}

// The rule of a case, where each part is taken at the type.
fn all_taken(
    alloc: Global,
    ty: &Ty,
    index: Derivation,
    parts: Vec<Found>,
) -> Result<Derivation, OutOfMemory>
    ensures { IfOk result (λ d. plain_derivation d
        ≡ rule (and_derivation (sub (atom_type Atom.Int) (plain_derivation index)) (all_at (plain_type ty.now) parts.items))) }
{
    let mut premises = DerivationList::new(alloc);
    premises.push(to_atom(alloc, Atom::Int, index)?)?;
    for part in parts {
        let own = copy_ty(alloc, ty)?;
        let premise = to_type(alloc, own, part.derivation)?;
        premises.push(premise)?;
    }
    Ok(Derivation::Rule(premises))
}

// The place of the first part without a type of use, else that place.
fn blame_among(parts: &[Found], at: Place) -> Place
    ensures { result ≡ blame_at_some parts.now at }
{
    for part in parts {
        if part.paths.len() == 0 {
            return part.blame;
        }
    }
    at
}

// The nodes of the least types of all visits of the parts, and so many more.
fn total_of(more: u64, parts: &[Found]) -> Result<u64, LeastError>
    requires { more ≤ most_together }
    ensures sum { IfOk result (λ n. n ≡ more + total_of_all parts.now) }
    ensures low { IfOk result (λ n. n ≤ most_together) }
    ensures large { IsErrOf result LeastError.TypeTooLarge → most_together < more + total_of_all parts.now }
{
    let mut total = more;
    for part in parts {
        total = both(total, part.total)?;
    }
    Ok(total)
}

// The join of all parts, from the left, and the nodes of the joins before it.
fn joined(alloc: Global, parts: &[Found]) -> Result<(Paths, u64), LeastError>
    requires { 0 < length parts.now }
    ensures paths { IfOk result (λ made. plain_paths made.0 ≡ joined_of parts.now) }
    ensures earlier { IfOk result (λ made. made.1 ≡ nodes_of_forms (earlier_joined parts.now)) }
    ensures within { IfOk result (λ made. AreWithin (earlier_joined parts.now)) }
    ensures large { IsErrOf result LeastError.TypeTooLarge →
        SomeTooLarge (earlier_joined parts.now) ⊎ (IsTooLarge (joined_of parts.now)
        ⊎ (most_together < nodes_of_forms (earlier_joined parts.now))) }
{
    let first = &parts[0].paths;
    if parts.len() == 1 {
        return Ok((copy_paths(alloc, first)?, 0));
    }
    let mut paths = join(alloc, first, &parts[1].paths)?;
    let mut earlier = 0u64;
    for i in 2..parts.len() {
        earlier = both(earlier, size_of_paths(&paths).nodes)?;
        paths = join(alloc, &paths, &parts[i].paths)?;
    }
    Ok((paths, earlier))
}
