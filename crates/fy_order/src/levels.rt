//! The paths of a form and, level by level, those in their domains, of which those alike are one.

ghost use Rattle.std.specs.Prelude.{◌≡◌, List, Contains, IfOk, OnOk, IsTrue, ◌++◌, ◌∷◌, [], length, map};
ghost use Rattle.fy_types.specs.Reading.{paths_from, plain_path};
ghost use Rattle.fy_order.specs.Levels.{AreAt, AreInner, AreLevels, IsGrown, IsLevel, PlainTagged, StandsAlike, all_tagged, inner_from, met_in, next, nodes as nodes_of, own_sign, plain_tagged};

use crate::alike::{are_alike, weigh};
use crate::keyed::weight;
use crate::sign::{Tagged, sign};
use fy_base::OutOfMemory;
use fy_forms::mixed;
use fy_types::{Path, PathElem};
use std::alloc::Global;

/// The paths of a level, and where those in the domains of each stand on the next one.
#[derive(Drop)]
pub(crate) struct Level<'a> {
    pub nodes: Vec<Tagged<'a>>,
    /// The sign of each path.
    pub signs: Vec<u64>,
    /// Where those in the domains of each stand.
    pub inner: Vec<Vec<usize>>,
}

/// How many paths the first level has.
pub(crate) fn width(levels: &[Level<'_>]) -> usize
    ensures { result ≡ length (nodes_of levels.now) }
{
    match levels {
        [] => 0,
        [level, ..] => level.nodes.len(),
    }
}

/// A number, and one more than where the path before it in its slot stands, or zero.
#[derive(Clone, Copy)]
struct Noted {
    number: u64,
    before: usize,
}

/// Paths that were met, and their numbers in slots.
#[derive(Drop)]
struct Met<'a> {
    nodes: Vec<Tagged<'a>>,
    slots: Slots,
}

impl<'a> Met<'a> {
    // Where one alike stands, which is the path itself and comes last where there was none.
    fn place_of(&mut self, tagged: Tagged<'a>) -> Result<usize, OutOfMemory>
        ensures at { IfOk result (λ place. StandsAlike (met_in self.new) place (plain_tagged tagged.entry)) }
        ensures grown { OnOk result (IsGrown (met_in self.old) (met_in self.new) (plain_tagged tagged.entry ∷ [])) }
    {
        let number = mixed(weigh(tagged.path).number, tagged.tag);
        if let Some(place) = self.slots.last_of(number) {
            if stands_at(self.nodes.as_slice(), place, tagged) {
                return Ok(place);
            }
        }
        let place = self.nodes.len();
        self.slots.add(number)?;
        self.nodes.push(tagged)?;
        Ok(place)
    }
}

/// The numbers of paths in order, and for each slot one more than where the last path stands whose number has it, or zero.
#[derive(Drop)]
struct Slots {
    noted: Vec<Noted>,
    last: Vec<usize>,
}

impl Slots {
    fn slot_of(&self, number: u64) -> usize {
        (number % self.last.len().max(1) as u64) as usize
    }

    // Where the last path stands that has the number.
    fn last_of(&self, number: u64) -> Option<usize> {
        let mut next = *self.last.get(self.slot_of(number))?;
        for _ in 0..self.noted.len() {
            let place = next.checked_sub(1)?;
            let noted = self.noted.get(place)?;
            if noted.number == number {
                return Some(place);
            }
            next = noted.before;
        }
        None
    }

    // Adds the number of the next path.
    fn add(&mut self, number: u64) -> Result<(), OutOfMemory> {
        let slot = self.slot_of(number);
        if slot < self.last.len() {
            let before = self.last[slot];
            self.noted.push(Noted { number, before })?;
            self.last[slot] = self.noted.len();
        }
        Ok(())
    }
}

fn stands_at(nodes: &[Tagged<'_>], place: usize, tagged: Tagged<'_>) -> bool
    ensures { IsTrue result → StandsAlike (map plain_tagged nodes.now) place (plain_tagged tagged.entry) }
{
    place < nodes.len()
        && nodes[place].tag == tagged.tag
        && are_alike(nodes[place].path, tagged.path)
}

// Adds where the paths stand, each with the tag.
fn add_places<'a>(
    met: &mut Met<'a>,
    places: &mut Vec<usize>,
    tag: u64,
    paths: &'a [Path],
) -> Result<(), OutOfMemory>
    ensures at { OnOk result ((ts : List PlainTagged) → AreAt (met_in met.old) places.old.items ts
        → AreAt (met_in met.new) places.new.items (ts ++ all_tagged tag (paths_from (map plain_path paths.now)))) }
    ensures grown { OnOk result (IsGrown (met_in met.old) (met_in met.new) (all_tagged tag (paths_from (map plain_path paths.now)))) }
{
    for path in paths {
        places.push(met.place_of(Tagged { tag, path })?)?;
    }
    Ok(())
}

// Where the paths stand that are in the domains of a path.
fn places_of<'a>(
    alloc: Global,
    met: &mut Met<'a>,
    path: &'a Path,
) -> Result<Vec<usize>, OutOfMemory>
    ensures at { IfOk result (λ places. AreAt (met_in met.new) places.items (inner_from 0 (plain_path path.now))) }
    ensures grown { OnOk result (IsGrown (met_in met.old) (met_in met.new) (inner_from 0 (plain_path path.now))) }
{
    let mut places = Vec::new(alloc);
    for (tag, elem) in path.elems.as_slice().iter().enumerate() {
        if let PathElem::Call(domain) = elem {
            places.reserve_exact(domain.len())?;
            add_places(met, &mut places, tag as u64, domain.as_slice())?;
        }
    }
    Ok(places)
}

// Where the paths stand that are in the domains of each.
fn places_of_all<'a>(
    alloc: Global,
    met: &mut Met<'a>,
    nodes: &[Tagged<'a>],
) -> Result<Vec<Vec<usize>>, OutOfMemory>
    ensures at { IfOk result (λ all. AreInner (met_in met.new) all.items (map plain_tagged nodes.now)) }
    ensures grown { OnOk result (IsGrown (met_in met.old) (met_in met.new) (next (map plain_tagged nodes.now))) }
{
    let mut all = Vec::with_capacity(alloc, nodes.len())?;
    for tagged in nodes {
        all.push(places_of(alloc, met, tagged.path)?)?;
    }
    Ok(all)
}

// How many paths stand in the domains of all, and themselves.
fn width_in(nodes: &[Tagged<'_>]) -> usize {
    let mut sum: usize = 0;
    for tagged in nodes {
        sum = sum.saturating_add(weight(tagged.path));
    }
    sum
}

fn signs_of(alloc: Global, nodes: &[Tagged<'_>]) -> Result<Vec<u64>, OutOfMemory>
    ensures { IfOk result (λ signs. signs.items ≡ map own_sign (map plain_tagged nodes.now)) }
{
    let mut signs = Vec::with_capacity(alloc, nodes.len())?;
    for tagged in nodes {
        signs.push(sign(*tagged, tagged.path.end))?;
    }
    Ok(signs)
}

/// A level, and the paths of the next one.
#[derive(Drop)]
pub(crate) struct Made<'a> {
    pub level: Level<'a>,
    pub next: Vec<Tagged<'a>>,
}

/// The level of the paths. The next one has those in their domains, of those alike mostly one.
pub(crate) fn level_of<'a>(alloc: Global, nodes: Vec<Tagged<'a>>) -> Result<Made<'a>, OutOfMemory>
    ensures level { IfOk result (λ made. IsLevel made.level (map plain_tagged made.next.items)) }
    ensures nodes { IfOk result (λ made. made.level.nodes.items ≡ nodes.entry.items) }
    ensures next { IfOk result (λ made. (t : PlainTagged) → Contains (map plain_tagged made.next.items) t
        → Contains (next (map plain_tagged nodes.entry.items)) t) }
{
    let count = width_in(nodes.as_slice());
    let slots = Slots {
        noted: Vec::with_capacity(alloc, count)?,
        last: vec![in alloc; 0usize; count.saturating_add(1)]?,
    };
    let mut met = Met {
        nodes: Vec::new(alloc),
        slots,
    };
    let inner = places_of_all(alloc, &mut met, nodes.as_slice())?;
    let signs = signs_of(alloc, nodes.as_slice())?;
    Ok(Made {
        level: Level {
            nodes,
            signs,
            inner,
        },
        next: met.nodes,
    })
}

/// The paths of a form.
pub(crate) fn tagged<'a>(alloc: Global, paths: &'a [Path]) -> Result<Vec<Tagged<'a>>, OutOfMemory>
    ensures { IfOk result (λ all. map plain_tagged all.items ≡ all_tagged 0 (paths_from (map plain_path paths.now))) }
{
    let mut nodes = Vec::with_capacity(alloc, paths.len())?;
    for path in paths {
        nodes.push(Tagged { tag: 0, path })?;
    }
    Ok(nodes)
}

/// The levels of paths, as many as there are.
pub(crate) fn levels_of<'a>(
    alloc: Global,
    nodes: Vec<Tagged<'a>>,
) -> Result<Vec<Level<'a>>, OutOfMemory>
    ensures nodes { IfOk result (λ levels. nodes_of levels.items ≡ map plain_tagged nodes.entry.items) }
    ensures levels { IfOk result (λ levels. AreLevels levels.items) }
{
    if nodes.len() == 0 {
        return Ok(Vec::new(alloc));
    }
    let made = level_of(alloc, nodes)?;
    let mut levels = levels_of(alloc, made.next)?;
    levels.insert(0, made.level)?;
    Ok(levels)
}
