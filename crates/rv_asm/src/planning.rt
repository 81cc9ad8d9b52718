//! Which items are near, and where the labels stand.

ghost use Rattle.std.specs.Prelude.{◌≡◌, ◌≤◌, ◌+◌, length, slice_index, true, IsTrue, IfOk, OnOk, ◌++◌};
ghost use Rattle.rv_asm.specs.Items.{AreItems};
ghost use Rattle.rv_asm.specs.Choosing.{size_of, is_within, reaches, is_reached};
ghost use Rattle.rv_asm.specs.Planning.{AllReach, AreAimed, AreFar, IsPlan, place_of, places_of, targets_of};

use crate::forms::size;
use crate::items::Item;
use fy_base::OutOfMemory;
use std::alloc::Global;

/// Whether an item is near, and the number of its label among the marked ones: 0 where it names
/// none.
#[derive(Clone, Copy, Debug)]
pub struct Choice {
    pub near: bool,
    pub target: u32,
}

/// A choice for each item, and the word before which each marked label stands then.
#[derive(Debug, Drop)]
pub struct Plan {
    pub choices: Vec<Choice>,
    pub places: Vec<u32>,
}

/// The word of the label with this number, 0 where there is none.
pub fn place_at(places: &[u32], label: u32) -> u32
    ensures { result ≡ slice_index places.now label }
{
    places.get(label as usize).copied().unwrap_or(0)
}

// Whether a word is less than so many behind another, or at most so many before it.
fn within(reach: u32, here: u32, to: u32) -> bool
    ensures { result ≡ is_within reach here to }
{
    if to < here {
        here - to <= reach
    } else {
        to - here < reach
    }
}

// Whether an item can be near.
fn can_reach(item: &Item, here: u32, to: u32) -> bool
    ensures { result ≡ reaches item.now here to }
{
    match *item {
        Item::BranchTo { .. } => within(1024, here, to),
        Item::JumpTo { .. } | Item::CallTo { .. } => within(262144, here, to),
        _ => false,
    }
}

// Whether an item can have its form.
fn is_reaching(item: &Item, near: bool, here: u32, to: u32) -> bool
    ensures { result ≡ is_reached near item.now here to }
{
    !near || can_reach(item, here, to)
}

// Notes the place of a mark.
fn note_place(places: &mut Vec<u32>, item: &Item, here: u32) -> Result<(), OutOfMemory>
    ensures { OnOk result (places.new.items ≡ places.old.items ++ place_of here item.now) }
{
    match *item {
        Item::Mark(_) => {
            places.push(here)?;
            Ok(())
        }
        _ => Ok(()),
    }
}

// The word of each marked label, in order.
fn places(alloc: Global, items: &[Item], choices: &[Choice]) -> Result<Vec<u32>, OutOfMemory>
    requires items { AreItems items.now }
    requires choices { length choices.now ≡ length items.now }
    ensures { IfOk result (λ places. places.items ≡ places_of 0 items.now choices.now) }
{
    let mut places = Vec::new(alloc);
    let mut here = 0;
    for (k, item) in items.iter().enumerate() {
        note_place(&mut places, item, here)?;
        here += size(item, choices[k].near);
    }
    Ok(places)
}

// The same choices, near where the label is in reach with every item at its longest.
fn near_choices(
    alloc: Global,
    items: &[Item],
    far: &[Choice],
    longest: &[u32],
) -> Result<Vec<Choice>, OutOfMemory>
    requires items { AreItems items.now }
    requires choices { length far.now ≡ length items.now }
    ensures { IfOk result (λ choices. targets_of choices.items ≡ targets_of far.now) }
{
    let mut choices = Vec::new(alloc);
    let mut here = 0;
    for (k, item) in items.iter().enumerate() {
        let target = far[k].target;
        let near = can_reach(item, here, place_at(longest, target));
        choices.push(Choice { near, target })?;
        here += size(item, false);
    }
    Ok(choices)
}

// Whether each near item reaches its label.
fn all_reach(items: &[Item], choices: &[Choice], places: &[u32]) -> bool
    requires items { AreItems items.now }
    requires choices { length choices.now ≡ length items.now }
    ensures { IsTrue result → AllReach places.now 0 items.now choices.now }
{
    let mut here = 0;
    for (k, item) in items.iter().enumerate() {
        let Choice { near, target } = choices[k];
        if !is_reaching(item, near, here, place_at(places, target)) {
            return false;
        }
        here += size(item, near);
    }
    true
}

/// A plan in which what is near when every item is at its longest is near. Distances only shrink,
/// so each near item reaches its label; if one didn't, every item would be far.
pub fn planned(alloc: Global, items: &[Item], far: Vec<Choice>) -> Result<Plan, OutOfMemory>
    requires items { AreItems items.now }
    requires aimed { AreAimed items.now (targets_of far.items) }
    requires far { AreFar far.items }
    ensures { IfOk result (λ plan. IsPlan items.now plan) }
{
    let longest = places(alloc, items, &far)?;
    let near = near_choices(alloc, items, &far, &longest)?;
    let shortest = places(alloc, items, &near)?;
    if all_reach(items, &near, &shortest) {
        return Ok(Plan {
            choices: near,
            places: shortest,
        });
    }
    Ok(Plan {
        choices: far,
        places: longest,
    })
}
