//! What has only `ns` behind a cause.

ghost use Rattle.std.specs.Prelude.{◌≡◌, IfOk, map, option_map};
ghost use Rattle.fy_phrase.specs.Reads.{reads};
ghost use Rattle.fy_types.specs.Reading.{plain_path};
ghost use Rattle.fy_derive.specs.Standing.{plain_kind};
ghost use Rattle.fy_causes.specs.Hollow.{
  demand_at as demand_at_of,
  failed as failed_of,
  first_demand as first_demand_of,
  hollow as hollow_of,
  hollow_part,
  is_demand as is_demand_of,
  selected_field as selected_field_of,
  taker as taker_of,
};
ghost use Rattle.fy_causes.specs.Readings.{around_read, cause_read, failed_read, occurrence_read, part_at};

use crate::around::{Around, Occurrence, definition_of, occurring};
use crate::causes::Cause;
use crate::error::CauseError;
use crate::found::is_hollow;
use crate::least::found_in;
use crate::parts::Part;
use fy_derive::{Demand, demand_of, is_acceptor};
use fy_memo::Memo;
use fy_phrase::Phrase;
use fy_types::{Atom, Path, PathElem};
use std::alloc::Global;
use std::rc::Rc;

// Through so many names and merges.
const MOST_THROUGH: u32 = 40;

/// The part that fails, by its index, and the demand that it fails.
#[derive(Drop)]
pub(crate) struct Failed {
    index: usize,
    demand: Option<Demand>,
}

/// What has only `ns` behind the cause that the phrase with these parts has no type of use.
pub(crate) fn hollow_behind<'a>(
    alloc: Global,
    p: &Phrase,
    cause: &Cause,
    parts: &[Part<'a>],
    memo: &mut Memo,
) -> Result<Option<Occurrence<'a>>, CauseError>
    ensures { IfOk result (λ o. option_map occurrence_read o
        ≡ hollow_part (map part_at parts.now) (failed_of (reads p.now) (cause_read cause.now))) }
{
    match failure_of(p, cause) {
        None => Ok(None),
        Some(failed) => {
            if failed.index >= parts.len() {
                return Ok(None);
            }
            let at = &parts[failed.index].at;
            hollow(
                alloc,
                MOST_THROUGH,
                failed.demand,
                at.phrase,
                &at.around,
                memo,
            )
        }
    }
}

// The part of a phrase that would have to meet the demand, and has only `ns`.
#[cycle(hollow)]
fn hollow<'a>(
    alloc: Global,
    left: u32,
    demand: Option<Demand>,
    p: &'a Phrase,
    around: &Rc<Around<'a>>,
    memo: &mut Memo,
) -> Result<Option<Occurrence<'a>>, CauseError>
    ensures { IfOk result (λ o. option_map occurrence_read o
        ≡ hollow_of left (option_map plain_kind demand) (around_read around.now.value) (reads p.now)) }
{
    if left == 0 {
        return Ok(None);
    }
    match p {
        Phrase::Merge(first, second, _) => {
            let operand = taker(demand, first, second);
            if is_hollow(&found_in(alloc, operand, around, &mut *memo)?.paths) {
                let found = occurring(around, operand)?;
                return Ok(Some(found));
            }
            hollow(alloc, left - 1, demand, operand, around, memo)
        }
        Phrase::Var(number, _) => match definition_of(around, *number)? {
            None => Ok(None),
            Some(defined) => hollow(
                alloc,
                left - 1,
                demand,
                defined.phrase,
                &defined.around,
                memo,
            ),
        },
        _ => Ok(None),
    }
}

// The operand of a merge that takes the demand.
fn taker<'a>(demand: Option<Demand>, left: &'a Phrase, right: &'a Phrase) -> &'a Phrase
    ensures { reads result.now ≡ taker_of (option_map plain_kind demand) (reads left.now) (reads right.now) }
{
    if is_demand(demand, demand_of(right)) {
        right
    } else {
        left
    }
}

// Whether there are two demands that are the same.
fn is_demand(a: Option<Demand>, b: Option<Demand>) -> bool
    ensures { result ≡ is_demand_of (option_map plain_kind a) (option_map plain_kind b) }
{
    match (a, b) {
        (Some(Demand::Call), Some(Demand::Call)) => true,
        (Some(Demand::Field(i)), Some(Demand::Field(j))) => i == j,
        (Some(Demand::Assignment), Some(Demand::Assignment)) => true,
        _ => false,
    }
}

// The part that fails, and the demand.
fn failure_of(p: &Phrase, cause: &Cause) -> Option<Failed>
    ensures { option_map failed_read result ≡ failed_of (reads p.now) (cause_read cause.now) }
{
    match cause {
        Cause::Wants(index, atoms) => {
            if atoms.len() == 0 {
                return None;
            }
            Some(Failed {
                index: *index,
                demand: demand_at(atoms[0]),
            })
        }
        Cause::NoProcedure => Some(Failed {
            index: 0,
            demand: Some(Demand::Call),
        }),
        Cause::NoDomain(all) => {
            if all.len() == 0 {
                return None;
            }
            Some(Failed {
                index: 1,
                demand: first_demand(&all[0].path),
            })
        }
        Cause::NoField(_) => Some(Failed {
            index: 0,
            demand: selected_field(p),
        }),
        Cause::Declared(path) => Some(Failed {
            index: 0,
            demand: first_demand(path),
        }),
        Cause::NoAcceptor => Some(Failed {
            index: 0,
            demand: Some(Demand::Assignment),
        }),
        Cause::NotCommand
        | Cause::Useless
        | Cause::Differ
        | Cause::Branches
        | Cause::Parts(..)
        | Cause::Assigned(..) => None,
    }
}

// The demand of an atom that the right operand of a merge may take.
fn demand_at(atom: Atom) -> Option<Demand>
    ensures { option_map plain_kind result ≡ demand_at_of atom }
{
    if is_acceptor(atom) {
        Some(Demand::Assignment)
    } else {
        None
    }
}

// The first demand of a path.
fn first_demand(path: &Path) -> Option<Demand>
    ensures { option_map plain_kind result ≡ first_demand_of (plain_path path.now) }
{
    let elems = path.elems.as_slice();
    if elems.len() == 0 {
        return demand_at(path.end);
    }
    match &elems[0] {
        PathElem::Call(_) => Some(Demand::Call),
        PathElem::Field(name) => Some(Demand::Field(*name)),
    }
}

// The field that a selection demands.
fn selected_field(p: &Phrase) -> Option<Demand>
    ensures { option_map plain_kind result ≡ selected_field_of (reads p.now) }
{
    match p {
        Phrase::Sel(_, name, _) => Some(Demand::Field(*name)),
        _ => None,
    }
}
