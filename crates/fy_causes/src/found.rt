//! Least types, with what is blamed where they are empty.

ghost use Rattle.std.specs.Prelude.{◌≡◌, [], ◌∷◌, ◌&&◌, IfOk, map};
ghost use Rattle.fy_types.specs.Paths.{no_paths};
ghost use Rattle.fy_types.specs.Reading.{plain_paths};
ghost use Rattle.fy_phrase.specs.Reads.{reads};
ghost use Rattle.fy_derive.specs.Clear.{has_none};
ghost use Rattle.fy_causes.specs.Occurrences.{occurs};
ghost use Rattle.fy_causes.specs.Readings.{around_read, blame_from, found_read, occurrence_read};

use crate::around::{Around, Occurrence, occurring};
use fy_base::OutOfMemory;
use fy_phrase::Phrase;
use fy_types::Paths;
use std::alloc::Global;
use std::rc::Rc;

/// The least type of a phrase, and what is blamed, should it be empty.
#[derive(Drop)]
pub(crate) struct Found<'a> {
    pub paths: Paths,
    pub blamed: Occurrence<'a>,
}

/// No paths.
pub(crate) fn no_path(alloc: Global) -> Paths
    ensures { plain_paths result ≡ no_paths }
{
    Paths::new(alloc)
}

/// Whether there are no paths: then a phrase has only `ns`.
#[tactic(auto, using(crate::proofs::PathLemmas::hollow_rules))]
pub(crate) fn is_hollow(paths: &Paths) -> bool
    ensures { result ≡ has_none (plain_paths paths.now) }
{
    matches!(paths.len(), 0)
}

/// A phrase without parts.
pub(crate) fn alone<'a>(
    paths: Paths,
    around: &Rc<Around<'a>>,
    p: &'a Phrase,
) -> Result<Found<'a>, OutOfMemory>
    ensures paths { IfOk result (λ f. f.paths ≡ paths) }
    ensures blamed { IfOk result (λ f. occurrence_read f.blamed ≡ occurs (around_read around.now.value) (reads p.now)) }
{
    let blamed = occurring(around, p)?;
    Ok(Found { paths, blamed })
}

/// A phrase with one part.
pub(crate) fn of_one<'a>(
    paths: Paths,
    part: Found<'a>,
    around: &Rc<Around<'a>>,
    p: &'a Phrase,
) -> Result<Found<'a>, OutOfMemory>
    ensures paths { IfOk result (λ f. f.paths ≡ paths) }
    ensures blamed { IfOk result (λ f. occurrence_read f.blamed
        ≡ blame_from (found_read part.entry ∷ []) (occurs (around_read around.now.value) (reads p.now))) }
{
    if is_hollow(&part.paths) {
        let Found { blamed, .. } = part;
        return Ok(Found { paths, blamed });
    }
    alone(paths, around, p)
}

/// A phrase with two parts.
pub(crate) fn of_two<'a>(
    paths: Paths,
    parts: (Found<'a>, Found<'a>),
    around: &Rc<Around<'a>>,
    p: &'a Phrase,
) -> Result<Found<'a>, OutOfMemory>
    ensures paths { IfOk result (λ f. f.paths ≡ paths) }
    ensures blamed { IfOk result (λ f. occurrence_read f.blamed
        ≡ blame_from (found_read parts.entry.0 ∷ found_read parts.entry.1 ∷ []) (occurs (around_read around.now.value) (reads p.now))) }
{
    let (first, second) = parts;
    if is_hollow(&first.paths) {
        let Found { blamed, .. } = first;
        return Ok(Found { paths, blamed });
    }
    of_one(paths, second, around, p)
}

/// A phrase with three parts.
pub(crate) fn of_three<'a>(
    paths: Paths,
    parts: (Found<'a>, Found<'a>, Found<'a>),
    around: &Rc<Around<'a>>,
    p: &'a Phrase,
) -> Result<Found<'a>, OutOfMemory>
    ensures paths { IfOk result (λ f. f.paths ≡ paths) }
    ensures blamed { IfOk result (λ f. occurrence_read f.blamed
        ≡ blame_from (found_read parts.entry.0 ∷ found_read parts.entry.1 ∷ found_read parts.entry.2 ∷ [])
        (occurs (around_read around.now.value) (reads p.now))) }
{
    let (first, second, third) = parts;
    if is_hollow(&first.paths) {
        let Found { blamed, .. } = first;
        return Ok(Found { paths, blamed });
    }
    of_two(paths, (second, third), around, p)
}

/// A phrase with one part and any number of others.
pub(crate) fn of_many<'a>(
    paths: Paths,
    first: Found<'a>,
    others: &[Found<'a>],
    around: &Rc<Around<'a>>,
    p: &'a Phrase,
) -> Result<Found<'a>, OutOfMemory>
    ensures paths { IfOk result (λ f. f.paths ≡ paths) }
    ensures blamed { IfOk result (λ f. occurrence_read f.blamed
        ≡ blame_from (found_read first.entry ∷ map found_read others.now) (occurs (around_read around.now.value) (reads p.now))) }
{
    if is_hollow(&first.paths) {
        let Found { blamed, .. } = first;
        return Ok(Found { paths, blamed });
    }
    for other in others {
        if is_hollow(&other.paths) {
            let blamed = occurring(&other.blamed.around, other.blamed.phrase)?;
            return Ok(Found { paths, blamed });
        }
    }
    alone(paths, around, p)
}
