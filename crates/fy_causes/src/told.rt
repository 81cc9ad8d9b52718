//! Why a program has no type.

ghost use Rattle.std.specs.Prelude.{◌≡◌, IfOk, map, option_map};
ghost use Rattle.fy_types.specs.Reading.{plain_paths};
ghost use Rattle.fy_phrase.specs.Reads.{reads};
ghost use Rattle.fy_causes.specs.Hollow.{explained as explained_of, failed, hollow_part, second_of as second_of_occurrence, why_of as why_of_program};
ghost use Rattle.fy_causes.specs.Occurrences.{least_in, parts_of as parts_of_phrase};
ghost use Rattle.fy_causes.specs.Readings.{around_read, cause_read, explained_read, occurrence_read, part_at, second_read, told_read};

use crate::around::{Around, Occurrence};
use crate::causes::{Cause, cause_of};
use crate::error::CauseError;
use crate::hollow::hollow_behind;
use crate::least::found_in;
use crate::parts::{Part, parts_of};
use fy_base::OutOfMemory;
use fy_memo::Memo;
use fy_order::has;
use fy_phrase::Phrase;
use fy_types::{Atom, Paths};
use std::alloc::Global;
use std::rc::Rc;

/// A phrase that is blamed, with the cause, its least type, and its direct parts with theirs.
#[derive(Drop)]
pub struct Explained<'a> {
    pub at: Occurrence<'a>,
    pub cause: Cause,
    pub paths: Paths,
    pub parts: Vec<Part<'a>>,
}

/// A phrase that has only `ns`, and what is blamed in it.
#[derive(Drop)]
pub struct Second<'a> {
    pub inside: Occurrence<'a>,
    pub blame: Explained<'a>,
}

/// Why a program isn't a command: what is blamed, and what is blamed in a definition behind it.
#[derive(Drop)]
pub struct Told<'a> {
    pub first: Explained<'a>,
    pub second: Option<Second<'a>>,
}

/// Why the phrase isn't a command, with no variable in scope, or `None` where it is one. A phrase that `find` refuses for a
/// type past the limits is answered as if memory were wanting.
pub fn why_of<'a>(alloc: Global, p: &'a Phrase) -> Result<Option<Told<'a>>, OutOfMemory>
    ensures { IfOk result (λ o. option_map told_read o ≡ why_of_program (reads p.now)) }
{
    let mut memo = Memo::new(alloc);
    let outside = Rc::new(alloc, Around::Nothing)?;
    let found = found_in(alloc, p, &outside, &mut memo)?;
    if has(&found.paths, Atom::Comm) {
        return Ok(None);
    }
    let first = explain(alloc, found.blamed, &mut memo)?;
    let second = second_of(alloc, &first, &mut memo)?;
    Ok(Some(Told { first, second }))
}

fn explain<'a>(
    alloc: Global,
    at: Occurrence<'a>,
    memo: &mut Memo,
) -> Result<Explained<'a>, CauseError>
    ensures explained { IfOk result (λ e. explained_read e ≡ explained_of (occurrence_read at.entry)) }
    ensures parts { IfOk result (λ e. map part_at e.parts.items ≡ parts_of_phrase (around_read at.entry.around.value) (reads at.entry.phrase.now)) }
{
    let found = found_in(alloc, at.phrase, &at.around, &mut *memo)?;
    let parts = parts_of(alloc, at.phrase, &at.around, &mut *memo)?;
    let cause = cause_of(alloc, at.phrase, &found.paths, parts.as_slice(), memo)?;
    Ok(Explained {
        at,
        cause,
        paths: found.paths,
        parts,
    })
}

// What is blamed behind a cause.
fn second_of<'a>(
    alloc: Global,
    first: &Explained<'a>,
    memo: &mut Memo,
) -> Result<Option<Second<'a>>, CauseError>
    requires { map part_at first.now.parts.items ≡ parts_of_phrase (around_read first.now.at.around.value) (reads first.now.at.phrase.now) }
    ensures { IfOk result (λ o. option_map second_read o
        ≡ second_of_occurrence (hollow_part (parts_of_phrase (around_read first.now.at.around.value) (reads first.now.at.phrase.now))
        (failed (reads first.now.at.phrase.now) (cause_read first.now.cause)))) }
{
    let parts = first.parts.as_slice();
    match hollow_behind(alloc, first.at.phrase, &first.cause, parts, &mut *memo)? {
        None => Ok(None),
        Some(inside) => {
            let found = found_in(alloc, inside.phrase, &inside.around, &mut *memo)?;
            let blame = explain(alloc, found.blamed, memo)?;
            Ok(Some(Second { inside, blame }))
        }
    }
}

/// The least type of a phrase where these variables are in scope.
pub fn least_at<'a>(
    alloc: Global,
    p: &'a Phrase,
    around: &Rc<Around<'a>>,
) -> Result<Paths, OutOfMemory>
    ensures { IfOk result (λ paths. plain_paths paths ≡ least_in (around_read around.now.value) (reads p.now)) }
{
    let mut memo = Memo::new(alloc);
    let found = found_in(alloc, p, around, &mut memo)?;
    Ok(found.paths)
}
