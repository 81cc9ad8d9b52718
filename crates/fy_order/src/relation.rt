//! Which paths of a form can be below those of another one, and which above them.

ghost use Rattle.std.specs.Prelude.{◌≡◌, ◌<◌, ◌↔◌, ℕ, Contains, false, true, IfOk, IfSome, OnOk, IsTrue, get_or, length};
ghost use Rattle.fy_order.specs.Levels.{AreAbove, AreBelow, AreCovers, AreIndexed, AreLevels, HaveBelow, IsAt, IsBelow, IsByAll, IsByOne, PlainTagged, indexed_nodes, list_at as list_of, nodes as nodes_of, own_sign, plain_tagged};
ghost use Rattle.fy_order.specs.Searching.{AreCovered, AreMet, IsFlagged, IsWanted};

use crate::covered::Covered;
use crate::index::{Indexed, list_at};
use crate::levels::{Level, width};
use crate::sign::{Tagged, Wanted, places_at};
use fy_base::OutOfMemory;
use std::alloc::Global;

// So many places are sooner looked through than flagged.
const FEW: usize = 8;

/// For each path in the domains of the second form's paths, where those in the domains of the first form's stand that are above it,
/// among other places.
#[cycle(relation)]
pub(crate) fn covers_of(
    alloc: Global,
    a: &[Indexed<'_>],
    b: &[Level<'_>],
) -> Result<Vec<Vec<usize>>, OutOfMemory>
    requires a { AreIndexed false a.now }
    requires b { AreLevels b.now }
    ensures { IfOk result (λ covers. AreCovers a.now b.now covers.items) }
{
    let [_, deeper @ ..] = a else {
        return Ok(Vec::new(alloc));
    };
    let [_, inner @ ..] = b else {
        return Ok(Vec::new(alloc));
    };
    above(alloc, deeper, inner)
}

/// Where those of the first form's paths stand that are below the second form's path at the place, among other places.
pub(crate) fn all_below(
    alloc: Global,
    a: &[Indexed<'_>],
    b: &[Level<'_>],
    covers: &[Vec<usize>],
    place: usize,
) -> Result<Vec<usize>, OutOfMemory>
    requires a { AreIndexed false a.now }
    requires b { AreLevels b.now }
    requires covers { AreCovers a.now b.now covers.now }
    ensures { IfOk result (λ found. (u : PlainTagged) → IsAt (nodes_of b.now) place u → HaveBelow (indexed_nodes a.now) u found.items) }
{
    let [low, ..] = a else {
        return Ok(Vec::new(alloc));
    };
    let [high, ..] = b else {
        return Ok(Vec::new(alloc));
    };
    if place >= high.nodes.len() {
        return Ok(Vec::new(alloc));
    }
    let domains = list_at(high.inner.as_slice(), place);
    found_below(alloc, low, high.nodes[place], domains, covers)
}

/// Where one of the first form's paths stands that should be below the second form's path at the place.
pub(crate) fn one_below(
    alloc: Global,
    a: &[Indexed<'_>],
    b: &[Level<'_>],
    covers: &[Vec<usize>],
    place: usize,
) -> Result<Option<usize>, OutOfMemory> {
    let [low, ..] = a else {
        return Ok(None);
    };
    let [high, ..] = b else {
        return Ok(None);
    };
    if place >= high.nodes.len() {
        return Ok(None);
    }
    let Indexed { level, index } = low;
    let wanted = Wanted::below(high.nodes[place]);
    let domains = list_at(high.inner.as_slice(), place);
    let covered = Covered::by(alloc, covers, domains, index.owners.len())?;
    let owned = places_at(&index.places, wanted.own);
    let mut found = first_low(level, &wanted, &covered, owned);
    if found.is_none() {
        let others = places_at(&index.places, wanted.other);
        found = first_low(level, &wanted, &covered, others);
    }
    for place in covered.places.as_slice() {
        if found.is_some() {
            return Ok(found);
        }
        let owners = list_at(index.owners.as_slice(), *place);
        found = first_low(level, &wanted, &covered, owners);
    }
    Ok(found)
}

/// For each path of the second form's first level, where those of the first form's stand that are below it, among other places.
#[cycle(relation)]
fn below(alloc: Global, a: &[Indexed<'_>], b: &[Level<'_>]) -> Result<Vec<Vec<usize>>, OutOfMemory>
    requires a { AreIndexed false a.now }
    requires b { AreLevels b.now }
    ensures { IfOk result (λ found. AreBelow (indexed_nodes a.now) (nodes_of b.now) found.items) }
{
    let covers = covers_of(alloc, a, b)?;
    let count = width(b);
    let mut found = Vec::with_capacity(alloc, count)?;
    for place in 0..count {
        found.push(all_below(alloc, a, b, covers.as_slice(), place)?)?;
    }
    Ok(found)
}

// Where the paths stand that are below the path, if the lists have those that are above each in its domains.
fn found_below(
    alloc: Global,
    indexed: &Indexed<'_>,
    path: Tagged<'_>,
    domains: &[usize],
    covers: &[Vec<usize>],
) -> Result<Vec<usize>, OutOfMemory>
    requires { IsByOne indexed.now.level indexed.now.index }
    ensures { IfOk result (λ found. (k : ℕ) (t : PlainTagged) → k < length indexed.now.level.signs.items
        → get_or indexed.now.level.signs.items k 0 ≡ own_sign t → IsBelow t (plain_tagged path.entry)
        → AreCovered covers.now domains.now (list_of indexed.now.level.inner.items k) → Contains found.items k) }
{
    let wanted = Wanted::below(path);
    let Indexed { level, index } = indexed;
    let covered = Covered::by(alloc, covers, domains, index.owners.len())?;
    let mut found = Vec::new(alloc);
    add_low(
        level,
        &wanted,
        &covered,
        places_at(&index.places, wanted.own),
        &mut found,
    )?;
    if wanted.other != wanted.own {
        add_low(
            level,
            &wanted,
            &covered,
            places_at(&index.places, wanted.other),
            &mut found,
        )?;
    }
    for place in covered.places.as_slice() {
        let owners = list_at(index.owners.as_slice(), *place);
        add_low(level, &wanted, &covered, owners, &mut found)?;
    }
    Ok(found)
}

fn first_low(level: &Level<'_>, wanted: &Wanted, covered: &Covered, list: &[usize]) -> Option<usize>
    requires { IsFlagged covered.now }
{
    for place in list {
        if is_low(level, wanted, covered, *place) {
            return Some(*place);
        }
    }
    None
}

// Adds those of the places whose paths have one of the signs, where all in their domains are covered.
fn add_low(
    level: &Level<'_>,
    wanted: &Wanted,
    covered: &Covered,
    list: &[usize],
    found: &mut Vec<usize>,
) -> Result<(), OutOfMemory>
    requires { IsFlagged covered.now }
    ensures kept { OnOk result ((k : ℕ) → Contains found.old.items k → Contains found.new.items k) }
    ensures has { OnOk result ((k : ℕ) → Contains list.now k → k < length level.now.signs.items
        → IsWanted wanted.now (get_or level.now.signs.items k 0)
        → ((j : ℕ) → Contains (list_of level.now.inner.items k) j → Contains covered.now.places.items j) → Contains found.new.items k) }
{
    for place in list {
        if is_low(level, wanted, covered, *place) {
            found.push(*place)?;
        }
    }
    Ok(())
}

// Whether the path at the place has one of the signs, and all in its domains are covered.
fn is_low(level: &Level<'_>, wanted: &Wanted, covered: &Covered, place: usize) -> bool
    requires { IsFlagged covered.now }
    ensures { place < length level.now.signs.items → IsWanted wanted.now (get_or level.now.signs.items place 0)
        → ((j : ℕ) → Contains (list_of level.now.inner.items place) j → Contains covered.now.places.items j) → IsTrue result }
{
    is_wanted(level, wanted, place) && covered.has_all(list_at(level.inner.as_slice(), place))
}

// Whether the path at the place has one of the signs.
fn is_wanted(level: &Level<'_>, wanted: &Wanted, place: usize) -> bool
    ensures { place < length level.now.signs.items → IsWanted wanted.now (get_or level.now.signs.items place 0) → IsTrue result }
{
    place < level.signs.len() && wanted.takes(level.signs[place])
}

/// For each path of the second form's first level, where those of the first form's stand that are above it, among other places.
#[cycle(relation)]
fn above(alloc: Global, a: &[Indexed<'_>], b: &[Level<'_>]) -> Result<Vec<Vec<usize>>, OutOfMemory>
    requires a { AreIndexed true a.now }
    requires b { AreLevels b.now }
    ensures { IfOk result (λ found. AreAbove (indexed_nodes a.now) (nodes_of b.now) found.items) }
{
    let [high, deeper @ ..] = a else {
        return Ok(Vec::new(alloc));
    };
    let [low, inner @ ..] = b else {
        return Ok(Vec::new(alloc));
    };
    let lows = below(alloc, deeper, inner)?;
    let mut found = Vec::with_capacity(alloc, low.nodes.len())?;
    for (place, path) in low.nodes.as_slice().iter().enumerate() {
        let domains = list_at(low.inner.as_slice(), place);
        found.push(found_above(alloc, high, *path, domains, lows.as_slice())?)?;
    }
    Ok(found)
}

// Where the paths stand that are above the path, if the lists have those that are below each in its domains.
fn found_above(
    alloc: Global,
    indexed: &Indexed<'_>,
    path: Tagged<'_>,
    domains: &[usize],
    lows: &[Vec<usize>],
) -> Result<Vec<usize>, OutOfMemory>
    requires { IsByAll indexed.now.level indexed.now.index }
    ensures { IfOk result (λ found. (k : ℕ) (u : PlainTagged) → k < length indexed.now.level.signs.items
        → get_or indexed.now.level.signs.items k 0 ≡ own_sign u → IsBelow (plain_tagged path.entry) u
        → AreMet lows.now domains.now (list_of indexed.now.level.inner.items k) → Contains found.items k) }
{
    let wanted = Wanted::above(path);
    let Indexed { level, index } = indexed;
    let mut found = Vec::new(alloc);
    match shortest(lows, domains) {
        Some(place) => {
            let owners = Covered::by(
                alloc,
                index.owners.as_slice(),
                list_at(lows, place),
                level.signs.len(),
            )?;
            add_high(
                alloc,
                level,
                &wanted,
                (domains, lows),
                owners.places.as_slice(),
                &mut found,
            )?;
        }
        None => {
            add_high(
                alloc,
                level,
                &wanted,
                (domains, lows),
                places_at(&index.places, wanted.own),
                &mut found,
            )?;
            if wanted.other != wanted.own {
                add_high(
                    alloc,
                    level,
                    &wanted,
                    (domains, lows),
                    places_at(&index.places, wanted.other),
                    &mut found,
                )?;
            }
        }
    }
    Ok(found)
}

// Adds those of the places whose paths have one of the signs, where each list at the domains has one in theirs.
fn add_high(
    alloc: Global,
    level: &Level<'_>,
    wanted: &Wanted,
    domains: (&[usize], &[Vec<usize>]),
    list: &[usize],
    found: &mut Vec<usize>,
) -> Result<(), OutOfMemory>
    ensures kept { OnOk result ((k : ℕ) → Contains found.old.items k → Contains found.new.items k) }
    ensures has { OnOk result ((k : ℕ) → Contains list.now k → k < length level.now.signs.items
        → IsWanted wanted.now (get_or level.now.signs.items k 0)
        → AreMet domains.entry.1.now domains.entry.0.now (list_of level.now.inner.items k) → Contains found.new.items k) }
{
    for place in list {
        if is_wanted(level, wanted, *place) {
            let inner = list_at(level.inner.as_slice(), *place);
            if are_met(alloc, inner, domains.0, domains.1)? {
                found.push(*place)?;
            }
        }
    }
    Ok(())
}

// The place, of these, whose list is shortest.
fn shortest(lists: &[Vec<usize>], places: &[usize]) -> Option<usize>
    ensures { IfSome result (Contains places.now) }
{
    let mut best = None;
    let mut least = usize::MAX;
    for place in places {
        let count = list_at(lists, *place).len();
        if best.is_none() || count < least {
            best = Some(*place);
            least = count;
        }
    }
    best
}

// Whether each list at the places has one of the first ones.
fn are_met(
    alloc: Global,
    first: &[usize],
    places: &[usize],
    lists: &[Vec<usize>],
) -> Result<bool, OutOfMemory>
    ensures { IfOk result (λ r. AreMet lists.now places.now first.now → IsTrue r) }
{
    if first.len() <= FEW {
        return Ok(are_few_met(first, places, lists));
    }
    let all = Covered::of(alloc, first, bound(first))?;
    for place in places {
        if !all.has_any(list_at(lists, *place)) {
            return Ok(false);
        }
    }
    Ok(true)
}

// The same, where the first ones are looked through.
fn are_few_met(first: &[usize], places: &[usize], lists: &[Vec<usize>]) -> bool
    ensures { AreMet lists.now places.now first.now → IsTrue result }
{
    for place in places {
        if !have_common(first, list_at(lists, *place)) {
            return false;
        }
    }
    true
}

// Whether one number is in both lists.
fn have_common(first: &[usize], second: &[usize]) -> bool
    ensures { (k : ℕ) → Contains first.now k → Contains second.now k → IsTrue result }
{
    for number in second {
        if is_in(first, *number) {
            return true;
        }
    }
    false
}

fn is_in(list: &[usize], number: usize) -> bool
    ensures { IsTrue result ↔ Contains list.now number }
{
    list.contains(&number)
}

// A number past all of the list.
fn bound(list: &[usize]) -> usize {
    let mut most: usize = 0;
    for place in list {
        most = most.max(place.saturating_add(1));
    }
    most
}
