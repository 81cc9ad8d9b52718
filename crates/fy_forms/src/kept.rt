//! Paths that are kept once, and looked up by their numbers.

ghost use Rattle.std.specs.Prelude.{◌≡◌, ◌↔◌, ◌<◌, IfOk, IsErrOf, IsTrue, OnOk, length};
ghost use Rattle.fy_types.specs.Paths.{no_paths};
ghost use Rattle.fy_types.specs.Reading.{plain_path, plain_paths};
ghost use Rattle.fy_types.specs.Limits.{IsTooLarge};
ghost use Rattle.fy_forms.specs.Sized.{IsSized};
ghost use Rattle.fy_types.specs.Keeping.{added, all_added};
ghost use Rattle.fy_forms.specs.Keys.{slot_at, IsNoted, IsSeen, StandsAt, StandsAtSome};
ghost use Rattle.fy_types.specs.Once.{contains};

use crate::error::TypeError;
use crate::index::slot_of;
use crate::number::number_of;
use crate::same::{has_path, is_same_path};
use crate::sized::Sized;
use fy_base::OutOfMemory;
use fy_types::{Path, Paths, copy_path};
use std::alloc::Global;

/// Where the kept paths stand, each in a slot by its number.
#[derive(Drop)]
pub(crate) struct Places {
    lists: Vec<Vec<usize>>,
}

impl Places {
    /// No places, with slots for so many paths.
    pub(crate) fn new(alloc: Global, count: usize) -> Result<Places, OutOfMemory>
        ensures { IfOk result (λ places. IsSeen places no_paths) }
    {
        let slots = count.saturating_add(1);
        let mut lists = Vec::with_capacity(alloc, slots)?;
        for _ in 0..slots {
            lists.push(Vec::new(alloc))?;
        }
        Ok(Places { lists })
    }

    // The places of the number's slot.
    fn at(&self, number: u64) -> &[usize]
        requires { 0 < length self.now.lists.items }
        ensures { result.now ≡ slot_at self.now.lists.items number }
    {
        self.lists[slot_of(number, self.lists.len())].as_slice()
    }

    // The place besides, after those of its slot.
    fn note(&mut self, number: u64, place: usize) -> Result<(), OutOfMemory>
        requires { 0 < length self.old.lists.items }
        ensures { OnOk result (IsNoted self.old.lists.items self.new.lists.items number place) }
    {
        let slot = slot_of(number, self.lists.len());
        self.lists[slot].push(place)?;
        Ok(())
    }
}

/// The kept paths, and then those of the list that aren't among them, each once. Each path is
/// looked for among all that are kept.
pub(crate) fn keep_each(alloc: Global, kept: Sized, list: &Paths) -> Result<Sized, TypeError>
    requires { IsSized kept (plain_paths kept.paths) }
    ensures ok { IfOk result
        (λ s. IsSized s (all_added (plain_paths kept.paths) (plain_paths list.now))) }
    ensures large { IsErrOf result TypeError.TypeTooLarge →
        IsTooLarge (all_added (plain_paths kept.paths) (plain_paths list.now)) }
{
    let mut form = kept;
    for path in list.as_slice() {
        form = keep_one(alloc, form, path)?;
    }
    Ok(form)
}

fn keep_one(alloc: Global, kept: Sized, path: &Path) -> Result<Sized, TypeError>
    requires { IsSized kept (plain_paths kept.paths) }
    ensures ok { IfOk result
        (λ s. IsSized s (added (plain_paths kept.paths) (plain_path path.now))) }
    ensures large { IsErrOf result TypeError.TypeTooLarge →
        IsTooLarge (added (plain_paths kept.paths) (plain_path path.now)) }
{
    if has_path(&kept.paths, path) {
        return Ok(kept);
    }
    kept.keep_new(copy_path(alloc, path)?)
}

/// The kept paths, and then those of the list that aren't among them, each once.
pub(crate) fn keep_all(
    alloc: Global,
    kept: Sized,
    places: &mut Places,
    list: &Paths,
) -> Result<Sized, TypeError>
    requires sized { IsSized kept (plain_paths kept.paths) }
    requires seen { IsSeen places.old (plain_paths kept.paths) }
    ensures ok { IfOk result
        (λ s. IsSized s (all_added (plain_paths kept.paths) (plain_paths list.now))) }
    ensures seen { IfOk result (λ s. IsSeen places.new (plain_paths s.paths)) }
    ensures large { IsErrOf result TypeError.TypeTooLarge →
        IsTooLarge (all_added (plain_paths kept.paths) (plain_paths list.now)) }
{
    let mut form = kept;
    for path in list.as_slice() {
        form = keep_copy(alloc, form, places, path)?;
    }
    Ok(form)
}

// The kept paths and then a copy of the path, unless it is among them.
fn keep_copy(
    alloc: Global,
    kept: Sized,
    places: &mut Places,
    path: &Path,
) -> Result<Sized, TypeError>
    requires sized { IsSized kept (plain_paths kept.paths) }
    requires seen { IsSeen places.old (plain_paths kept.paths) }
    ensures ok { IfOk result
        (λ s. IsSized s (added (plain_paths kept.paths) (plain_path path.now))) }
    ensures seen { IfOk result (λ s. IsSeen places.new (plain_paths s.paths)) }
    ensures large { IsErrOf result TypeError.TypeTooLarge →
        IsTooLarge (added (plain_paths kept.paths) (plain_path path.now)) }
{
    if find_or_note(places, &kept.paths, path)? {
        return Ok(kept);
    }
    kept.keep_new(copy_path(alloc, path)?)
}

/// The kept paths and then the path, unless it is among them.
pub(crate) fn keep(kept: Sized, places: &mut Places, path: Path) -> Result<Sized, TypeError>
    requires sized { IsSized kept (plain_paths kept.paths) }
    requires seen { IsSeen places.old (plain_paths kept.paths) }
    ensures ok { IfOk result
        (λ s. IsSized s (added (plain_paths kept.paths) (plain_path path))) }
    ensures seen { IfOk result (λ s. IsSeen places.new (plain_paths s.paths)) }
    ensures large { IsErrOf result TypeError.TypeTooLarge →
        IsTooLarge (added (plain_paths kept.paths) (plain_path path)) }
{
    if find_or_note(places, &kept.paths, &path)? {
        return Ok(kept);
    }
    kept.keep_new(path)
}

// Whether the path is among the kept ones. Where it isn't, it is noted at the place after them.
fn find_or_note(places: &mut Places, list: &Paths, path: &Path) -> Result<bool, OutOfMemory>
    requires { IsSeen places.old (plain_paths list.now) }
    ensures kept { IfOk result
        (λ is_kept. is_kept ≡ contains (plain_paths list.now) (plain_path path.now)) }
    ensures seen { OnOk result
        (IsSeen places.new (added (plain_paths list.now) (plain_path path.now))) }
{
    let number = number_of(path);
    if is_at_some(list, places.at(number), path) {
        return Ok(true);
    }
    places.note(number, list.len())?;
    Ok(false)
}

// Whether the path stands at one of the places.
fn is_at_some(list: &Paths, places: &[usize], path: &Path) -> bool
    ensures { IsTrue result ↔ StandsAtSome (plain_paths list.now) places.now (plain_path path.now) }
{
    for place in places {
        if stands_at(list, *place, path) {
            return true;
        }
    }
    false
}

fn stands_at(list: &Paths, place: usize, path: &Path) -> bool
    ensures { IsTrue result ↔ StandsAt (plain_paths list.now) place (plain_path path.now) }
{
    let members = list.as_slice();
    place < members.len() && is_same_path(&members[place], path)
}
