//! By what the paths of a level are found.

ghost use Rattle.std.specs.Prelude.{◌≡◌, ◌<◌, [], ℕ, All, Contains, IfOk, IfNone, IfSome, OnOk, length, map};
ghost use Rattle.fy_order.specs.Levels.{AreIndexed, AreWithin, IsByAll, IsByOne, IsIndexed, IsOwnedToo, indexed_nodes, list_at as list_of, plain_tagged};

use crate::levels::{Level, level_of};
use crate::sign::{Signs, Tagged, note};
use fy_base::OutOfMemory;
use std::alloc::Global;
use std::collections::BTreeMap;

/// By what paths are found.
#[derive(Drop)]
pub(crate) struct Index {
    /// Where paths stand, by their signs.
    pub places: Signs,
    /// For each path of the next level, where paths stand that have it in their domains.
    pub owners: Vec<Vec<usize>>,
}

/// A level with its index.
#[derive(Drop)]
pub(crate) struct Indexed<'a> {
    pub level: Level<'a>,
    pub index: Index,
}

/// The list at the place, or nothing where there is none.
pub(crate) fn list_at(lists: &[Vec<usize>], place: usize) -> &[usize]
    ensures { result.now ≡ list_of lists.now place }
{
    match lists.get(place) {
        Some(list) => list.as_slice(),
        None => &[],
    }
}

// So many empty lists.
fn empty_lists(alloc: Global, count: usize) -> Result<Vec<Vec<usize>>, OutOfMemory>
    ensures { IfOk result (λ lists. length lists.items ≡ count) }
{
    let mut all = Vec::with_capacity(alloc, count)?;
    for _ in 0..count {
        all.push(Vec::new(alloc))?;
    }
    Ok(all)
}

// Adds the place last to the list at the other one.
fn own(owners: &mut Vec<Vec<usize>>, inner: usize, place: usize) -> Result<(), OutOfMemory>
    requires { inner < length owners.old.items }
    ensures { OnOk result (IsOwnedToo owners.old.items owners.new.items inner place) }
{
    owners[inner].push(place)?;
    Ok(())
}

// The same at each of the places.
fn own_each(owners: &mut Vec<Vec<usize>>, inner: &[usize], place: usize) -> Result<(), OutOfMemory>
    requires { All (λ k. k < length owners.old.items) inner.now }
    ensures length { OnOk result (length owners.new.items ≡ length owners.old.items) }
    ensures kept { OnOk result ((j k : ℕ) → Contains (list_of owners.old.items j) k → Contains (list_of owners.new.items j) k) }
    ensures owned { OnOk result ((j : ℕ) → Contains inner.now j → Contains (list_of owners.new.items j) place) }
{
    for at in inner {
        own(owners, *at, place)?;
    }
    Ok(())
}

// In how many lists each number below the count is.
fn counts_of(alloc: Global, lists: &[Vec<usize>], count: usize) -> Result<Vec<usize>, OutOfMemory> {
    let mut counts = vec![in alloc; 0usize; count]?;
    for list in lists {
        for number in list.as_slice() {
            if *number < counts.len() {
                counts[*number] = counts[*number].saturating_add(1);
            }
        }
    }
    Ok(counts)
}

// The place, of these, with the least count.
fn rarest(counts: &[usize], places: &[usize]) -> Option<usize>
    ensures some { IfSome result (Contains places.now) }
    ensures none { IfNone result (places.now ≡ []) }
{
    let mut best = None;
    let mut least = usize::MAX;
    for place in places {
        let count = if *place < counts.len() {
            counts[*place]
        } else {
            0
        };
        if best.is_none() || count < least {
            best = Some(*place);
            least = count;
        }
    }
    best
}

// Each path is found by one that stands in its domains, or by its sign where nothing does.
fn index_by_one(alloc: Global, level: &Level<'_>, count: usize) -> Result<Index, OutOfMemory>
    requires { AreWithin count level.now.inner.items }
    ensures { IfOk result (λ index. IsByOne level.now index) }
{
    let counts = counts_of(alloc, level.inner.as_slice(), count)?;
    let mut places = BTreeMap::new(alloc);
    let mut owners = empty_lists(alloc, count)?;
    for place in 0..level.signs.len() {
        match rarest(counts.as_slice(), list_at(level.inner.as_slice(), place)) {
            Some(chosen) => own(&mut owners, chosen, place)?,
            None => note(alloc, &mut places, level.signs[place], place)?,
        }
    }
    Ok(Index { places, owners })
}

// Each path is found by its sign, and by each that stands in its domains.
fn index_by_all(alloc: Global, level: &Level<'_>, count: usize) -> Result<Index, OutOfMemory>
    requires { AreWithin count level.now.inner.items }
    ensures { IfOk result (λ index. IsByAll level.now index) }
{
    let mut places = BTreeMap::new(alloc);
    let mut owners = empty_lists(alloc, count)?;
    for place in 0..level.signs.len() {
        note(alloc, &mut places, level.signs[place], place)?;
        own_each(&mut owners, list_at(level.inner.as_slice(), place), place)?;
    }
    Ok(Index { places, owners })
}

fn index_of(alloc: Global, level: &Level<'_>, count: usize, all: bool) -> Result<Index, OutOfMemory>
    requires { AreWithin count level.now.inner.items }
    ensures { IfOk result (λ index. IsIndexed all level.now index) }
{
    if all {
        index_by_all(alloc, level, count)
    } else {
        index_by_one(alloc, level, count)
    }
}

/// The levels of paths with indexes. On the first and each second one after it each path is found by one that stands in its domains,
/// or else by its sign; on the others by its sign, and by each.
pub(crate) fn indexed_levels<'a>(
    alloc: Global,
    nodes: Vec<Tagged<'a>>,
    all: bool,
) -> Result<Vec<Indexed<'a>>, OutOfMemory>
    ensures nodes { IfOk result (λ levels. indexed_nodes levels.items ≡ map plain_tagged nodes.entry.items) }
    ensures indexed { IfOk result (λ levels. AreIndexed all levels.items) }
{
    if nodes.len() == 0 {
        return Ok(Vec::new(alloc));
    }
    let made = level_of(alloc, nodes)?;
    let index = index_of(alloc, &made.level, made.next.len(), all)?;
    let mut levels = indexed_levels(alloc, made.next, !all)?;
    levels.insert(
        0,
        Indexed {
            level: made.level,
            index,
        },
    )?;
    Ok(levels)
}
