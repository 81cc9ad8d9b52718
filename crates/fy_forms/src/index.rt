//! The paths of a list by their keys.

ghost use Rattle.std.specs.Prelude.{◌≡◌, ◌<◌, ◌%◌, [], length, IfOk, OnOk};
ghost use Rattle.fy_forms.specs.Keys.{AreGrouped, IsGrown, IsIndex, group_at};
ghost use Rattle.fy_forms.specs.Numbers.{class as class_of, key_of as key_of_path, mark as mark_of};
ghost use Rattle.fy_types.specs.Reading.{plain_elem, plain_path};

use crate::number::mixed;
use fy_base::OutOfMemory;
use fy_types::{Atom, Path, PathElem};
use std::alloc::Global;

/// The paths of a list, each in a slot by its key, those of one slot in the list's order.
#[derive(Drop)]
pub struct Groups<'a> {
    /// The slots, one more than the list has paths.
    pub lists: Vec<Vec<&'a Path>>,
}

/// The key of a path, which it has in common with the paths below it and above it, and with those
/// that it has a common path with.
pub fn key_of(path: &Path) -> u64
    ensures { result ≡ key_of_path (plain_path path.now) }
{
    let mut key = 0;
    for elem in path.elems.as_slice() {
        key = mixed(key, mark(elem));
    }
    mixed(key, class(path.end))
}

/// What an element adds to a key: that it is a call, or a field's name.
pub fn mark(elem: &PathElem) -> u64
    ensures { result ≡ mark_of (plain_elem elem.now) }
{
    match elem {
        PathElem::Call(_) => 0,
        PathElem::Field(name) => u64::from(*name) + 1,
    }
}

fn class(end: Atom) -> u64
    ensures { result ≡ class_of end }
{
    match end {
        Atom::Int => 0,
        Atom::Bool => 1,
        Atom::Char => 2,
        Atom::Comm | Atom::Compl => 3,
        Atom::IntAcc => 4,
        Atom::BoolAcc => 5,
        Atom::CharAcc => 6,
    }
}

/// The paths by their keys.
pub fn groups_of<'a>(alloc: Global, list: &'a [Path]) -> Result<Groups<'a>, OutOfMemory>
    ensures { IfOk result (λ groups. IsIndex groups list.now) }
{
    let mut lists = empty_lists(alloc, list.len().saturating_add(1))?;
    for path in list {
        add(&mut lists, path)?;
    }
    Ok(Groups { lists })
}

// So many empty lists.
fn empty_lists<'a>(alloc: Global, count: usize) -> Result<Vec<Vec<&'a Path>>, OutOfMemory>
    ensures length { IfOk result (λ lists. length lists.items ≡ count) }
    ensures empty { IfOk result (λ lists. AreGrouped lists.items []) }
{
    let mut all = Vec::with_capacity(alloc, count)?;
    for _ in 0..count {
        all.push(Vec::new(alloc))?;
    }
    Ok(all)
}

// The path after those of its slot.
fn add<'a>(lists: &mut Vec<Vec<&'a Path>>, path: &'a Path) -> Result<(), OutOfMemory>
    requires { 0 < length lists.old.items }
    ensures { OnOk result (IsGrown lists.old.items lists.new.items path.entry) }
{
    let slot = slot_of(key_of(path), lists.len());
    lists[slot].push(path)?;
    Ok(())
}

/// The slot of a number, of so many.
pub(crate) fn slot_of(number: u64, count: usize) -> usize
    requires { 0 < count }
    ensures { result ≡ number % count }
{
    (number % count as u64) as usize
}

/// The paths of the key's slot, among which are those of the key.
pub fn candidates<'i, 'a>(groups: &'i Groups<'a>, key: u64) -> &'i [&'a Path]
    ensures { result.now ≡ group_at groups.now key }
{
    let lists = groups.lists.as_slice();
    if lists.len() == 0 {
        return &[];
    }
    lists[slot_of(key, lists.len())].as_slice()
}
