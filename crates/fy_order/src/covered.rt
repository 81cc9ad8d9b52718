//! Places, each of which can be asked for.

ghost use Rattle.std.specs.Prelude.{◌↔◌, ℕ, Contains, IfOk, OnOk, IsTrue};
ghost use Rattle.fy_order.specs.Levels.{list_at as list_of};
ghost use Rattle.fy_order.specs.Searching.{IsFlagged};

use crate::index::list_at;
use fy_base::OutOfMemory;
use std::alloc::Global;

// How many places are sooner looked through than flagged.
const FEW: usize = 8;

/// Places, each once, and a flag for each number, or none: few places are looked through.
#[derive(Drop)]
pub(crate) struct Covered {
    pub places: Vec<usize>,
    flags: Vec<bool>,
}

impl Covered {
    /// The places of the list, which are below the count.
    pub(crate) fn of(alloc: Global, list: &[usize], count: usize) -> Result<Covered, OutOfMemory>
        ensures flagged { IfOk result IsFlagged }
        ensures has { IfOk result (λ all. (k : ℕ) → Contains list.now k → Contains all.places.items k) }
    {
        let mut all = Covered::none(alloc, list.len(), count)?;
        all.add(list)?;
        Ok(all)
    }

    /// What one of the lists at the places has.
    pub(crate) fn by(
        alloc: Global,
        lists: &[Vec<usize>],
        places: &[usize],
        count: usize,
    ) -> Result<Covered, OutOfMemory>
        ensures flagged { IfOk result IsFlagged }
        ensures has { IfOk result (λ all. (j k : ℕ) → Contains places.now j → Contains (list_of lists.now j) k → Contains all.places.items k) }
    {
        let mut all = Covered::none(alloc, total(lists, places), count)?;
        for place in places {
            all.add(list_at(lists, *place))?;
        }
        Ok(all)
    }

    // No places, with flags for so many numbers where so many places are many.
    fn none(alloc: Global, places: usize, count: usize) -> Result<Covered, OutOfMemory>
        ensures flagged { IfOk result IsFlagged }
    {
        let flags = if places <= FEW {
            Vec::new(alloc)
        } else {
            vec![in alloc; false; count]?
        };
        Ok(Covered {
            places: Vec::new(alloc),
            flags,
        })
    }

    fn add(&mut self, list: &[usize]) -> Result<(), OutOfMemory>
        requires { IsFlagged self.old }
        ensures flagged { OnOk result (IsFlagged self.new) }
        ensures kept { OnOk result ((k : ℕ) → Contains self.old.places.items k → Contains self.new.places.items k) }
        ensures has { OnOk result ((k : ℕ) → Contains list.now k → Contains self.new.places.items k) }
    {
        for place in list {
            self.add_one(*place)?;
        }
        Ok(())
    }

    fn add_one(&mut self, place: usize) -> Result<(), OutOfMemory>
        requires { IsFlagged self.old }
        ensures flagged { OnOk result (IsFlagged self.new) }
        ensures kept { OnOk result ((k : ℕ) → Contains self.old.places.items k → Contains self.new.places.items k) }
        ensures has { OnOk result (Contains self.new.places.items place) }
    {
        if self.has(place) {
            return Ok(());
        }
        self.places.push(place)?;
        if place < self.flags.len() {
            self.flags[place] = true;
        }
        Ok(())
    }

    fn has(&self, place: usize) -> bool
        requires { IsFlagged self.now }
        ensures { IsTrue result ↔ Contains self.now.places.items place }
    {
        if place < self.flags.len() {
            self.flags[place]
        } else {
            self.places.as_slice().contains(&place)
        }
    }

    /// Whether all of the list are among the places.
    pub(crate) fn has_all(&self, list: &[usize]) -> bool
        requires { IsFlagged self.now }
        ensures { ((k : ℕ) → Contains list.now k → Contains self.now.places.items k) → IsTrue result }
    {
        for place in list {
            if !self.has(*place) {
                return false;
            }
        }
        true
    }

    /// Whether one of the list is among the places.
    pub(crate) fn has_any(&self, list: &[usize]) -> bool
        requires { IsFlagged self.now }
        ensures { (k : ℕ) → Contains list.now k → Contains self.now.places.items k → IsTrue result }
    {
        for place in list {
            if self.has(*place) {
                return true;
            }
        }
        false
    }
}

// How many places the lists have.
fn total(lists: &[Vec<usize>], places: &[usize]) -> usize {
    let mut sum: usize = 0;
    for place in places {
        sum = sum.saturating_add(list_at(lists, *place).len());
    }
    sum
}
