//! The direct parts of phrases, with their least types.

ghost use Rattle.std.specs.Prelude.{◌≡◌, [], ◌∷◌, IfOk, map};
ghost use Rattle.fy_types.specs.Reading.{plain_paths, plain_types};
ghost use Rattle.fy_phrase.specs.Reads.{reads, reads_parts};
ghost use Rattle.fy_causes.specs.Occurrences.{each_occurs, least_in, least_of, occurs, parts_of as parts_of_phrase, under as under_binder};
ghost use Rattle.fy_causes.specs.Readings.{around_read, first_under, part_at, part_type};

use crate::around::{Around, Bound, Occurrence, occurring, under};
use crate::error::CauseError;
use crate::least::{cell_form, found_in, sequence_form};
use fy_derive::data_atom;
use fy_forms::paths_of;
use fy_memo::Memo;
use fy_order::one_end;
use fy_phrase::{Parts, Phrase};
use fy_types::{Atom, Paths, TyList, copy_paths};
use std::alloc::Global;
use std::rc::Rc;

/// A direct part of a phrase, with its least type.
#[derive(Drop)]
pub struct Part<'a> {
    pub at: Occurrence<'a>,
    pub paths: Paths,
}

/// The direct parts of a phrase, with their least types: an abstraction's body under the first alternative.
#[tactic(auto, using(crate::proofs::ArmLemmas::arm_rules))]
pub(crate) fn parts_of<'a>(
    alloc: Global,
    p: &'a Phrase,
    around: &Rc<Around<'a>>,
    memo: &mut Memo,
) -> Result<Vec<Part<'a>>, CauseError>
    ensures at { IfOk result (λ v. map part_at v.items ≡ (parts_of_phrase (around_read around.now.value) (reads p.now))) }
    ensures types { IfOk result (λ v. map part_type v.items ≡ map least_of (parts_of_phrase (around_read around.now.value) (reads p.now))) }
{
    match p {
        Phrase::Var(..) | Phrase::Lit(..) | Phrase::Skip(_) | Phrase::Mark(..) => {
            Ok(Vec::new(alloc))
        }
        Phrase::Unary(_, q, _)
        | Phrase::Field(_, q, _)
        | Phrase::Sel(q, _, _)
        | Phrase::Forever(q, _)
        | Phrase::Put(_, q, _)
        | Phrase::Read(q, _) => one_part(alloc, q, around, memo),
        Phrase::Binary(_, q, r, _)
        | Phrase::App(q, r, _)
        | Phrase::Merge(q, r, _)
        | Phrase::Seq(q, r, _)
        | Phrase::Assign(q, r, _)
        | Phrase::WhileDo(q, r, _) => two_parts(alloc, q, r, around, memo),
        Phrase::Cond(test, first, second, _) => {
            let mut made = two_parts(alloc, test, first, around, &mut *memo)?;
            made.push(part_of(alloc, second, around, memo)?)?;
            Ok(made)
        }
        Phrase::Case(index, parts, _) => case_parts(alloc, index, parts, around, memo),
        Phrase::Lam(_, types, body, _) => first_body(alloc, types, body, around, p, memo),
        Phrase::LetIn(_, defined, body, _) => defined_part(alloc, defined, body, around, p, memo),
        Phrase::Rec(_, ty, body, _) => {
            let bound = paths_of(alloc, ty)?;
            part_under(alloc, bound, body, around, p, memo)
        }
        Phrase::New(_, ty, first, body, _) => {
            let bound = cell_form(alloc, *ty)?;
            part_before(alloc, first, bound, body, around, p, memo)
        }
        Phrase::Cells(_, count, body, _) => {
            let bound = sequence_form(alloc)?;
            part_before(alloc, count, bound, body, around, p, memo)
        }
        Phrase::Escape(_, body, _) => {
            let bound = one_end(alloc, Atom::Compl)?;
            part_under(alloc, bound, body, around, p, memo)
        }
        Phrase::Accept(_, ty, body, _) => {
            let bound = one_end(alloc, data_atom(*ty))?;
            part_under(alloc, bound, body, around, p, memo)
        }
    }
}

// The phrase as a part.
fn part_of<'a>(
    alloc: Global,
    p: &'a Phrase,
    around: &Rc<Around<'a>>,
    memo: &mut Memo,
) -> Result<Part<'a>, CauseError>
    ensures at { IfOk result (λ part. part_at part ≡ occurs (around_read around.now.value) (reads p.now)) }
    ensures least { IfOk result (λ part. part_type part ≡ least_in (around_read around.now.value) (reads p.now)) }
{
    let found = found_in(alloc, p, around, memo)?;
    let at = occurring(around, p)?;
    Ok(Part {
        at,
        paths: found.paths,
    })
}

fn one_part<'a>(
    alloc: Global,
    p: &'a Phrase,
    around: &Rc<Around<'a>>,
    memo: &mut Memo,
) -> Result<Vec<Part<'a>>, CauseError>
    ensures at { IfOk result (λ v. map part_at v.items ≡ (occurs (around_read around.now.value) (reads p.now)) ∷ []) }
    ensures types { IfOk result (λ v. map part_type v.items ≡ least_of (occurs (around_read around.now.value) (reads p.now)) ∷ []) }
{
    let part = part_of(alloc, p, around, memo)?;
    Ok(Vec::from_array(alloc, [part])?)
}

fn two_parts<'a>(
    alloc: Global,
    p: &'a Phrase,
    q: &'a Phrase,
    around: &Rc<Around<'a>>,
    memo: &mut Memo,
) -> Result<Vec<Part<'a>>, CauseError>
    ensures at { IfOk result (λ v. map part_at v.items ≡ (occurs (around_read around.now.value) (reads p.now))
        ∷ (occurs (around_read around.now.value) (reads q.now)) ∷ []) }
    ensures types { IfOk result (λ v. map part_type v.items ≡ least_of (occurs (around_read around.now.value) (reads p.now))
        ∷ least_of (occurs (around_read around.now.value) (reads q.now)) ∷ []) }
{
    let first = part_of(alloc, p, around, &mut *memo)?;
    let second = part_of(alloc, q, around, &mut *memo)?;
    Ok(Vec::from_array(alloc, [first, second])?)
}

fn case_parts<'a>(
    alloc: Global,
    index: &'a Phrase,
    parts: &'a Parts,
    around: &Rc<Around<'a>>,
    memo: &mut Memo,
) -> Result<Vec<Part<'a>>, CauseError>
    ensures at { IfOk result (λ v. map part_at v.items ≡ (occurs (around_read around.now.value) (reads index.now))
        ∷ (each_occurs (around_read around.now.value) (reads_parts parts.now))) }
    ensures types { IfOk result (λ v. map part_type v.items ≡ least_of (occurs (around_read around.now.value) (reads index.now))
        ∷ map least_of (each_occurs (around_read around.now.value) (reads_parts parts.now))) }
{
    let mut made = one_part(alloc, index, around, &mut *memo)?;
    for part in parts.as_slice() {
        made.push(part_of(alloc, part, around, &mut *memo)?)?;
    }
    Ok(made)
}

// An abstraction's body under the first alternative.
fn first_body<'a>(
    alloc: Global,
    types: &'a TyList,
    body: &'a Phrase,
    around: &Rc<Around<'a>>,
    p: &'a Phrase,
    memo: &mut Memo,
) -> Result<Vec<Part<'a>>, CauseError>
    ensures at { IfOk result (λ v. map part_at v.items
        ≡ (first_under (around_read around.now.value) (reads p.now) (plain_types types.now) (reads body.now))) }
    ensures types { IfOk result (λ v. map part_type v.items
        ≡ map least_of (first_under (around_read around.now.value) (reads p.now) (plain_types types.now) (reads body.now))) }
{
    let types = types.as_slice();
    if types.len() == 0 {
        return Ok(Vec::new(alloc));
    }
    let bound = paths_of(alloc, &types[0])?;
    part_under(alloc, bound, body, around, p, memo)
}

// The body under a variable with the paths that the phrase binds.
fn part_under<'a>(
    alloc: Global,
    bound: Paths,
    body: &'a Phrase,
    around: &Rc<Around<'a>>,
    p: &'a Phrase,
    memo: &mut Memo,
) -> Result<Vec<Part<'a>>, CauseError>
    ensures at { IfOk result (λ v. map part_at v.items
        ≡ (under_binder (around_read around.now.value) (reads p.now) (plain_paths bound) (reads body.now)) ∷ []) }
    ensures types { IfOk result (λ v. map part_type v.items
        ≡ least_of (under_binder (around_read around.now.value) (reads p.now) (plain_paths bound) (reads body.now)) ∷ []) }
{
    let inside = under(alloc, Bound::Paths(bound), p, around)?;
    one_part(alloc, body, &inside, memo)
}

// A part, and the body under a variable with the paths that the phrase binds.
fn part_before<'a>(
    alloc: Global,
    first: &'a Phrase,
    bound: Paths,
    body: &'a Phrase,
    around: &Rc<Around<'a>>,
    p: &'a Phrase,
    memo: &mut Memo,
) -> Result<Vec<Part<'a>>, CauseError>
    ensures at { IfOk result (λ v. map part_at v.items ≡ (occurs (around_read around.now.value) (reads first.now))
        ∷ (under_binder (around_read around.now.value) (reads p.now) (plain_paths bound) (reads body.now)) ∷ []) }
    ensures types { IfOk result (λ v. map part_type v.items ≡ least_of (occurs (around_read around.now.value) (reads first.now))
        ∷ least_of (under_binder (around_read around.now.value) (reads p.now) (plain_paths bound) (reads body.now)) ∷ []) }
{
    let first = part_of(alloc, first, around, &mut *memo)?;
    let inside = under(alloc, Bound::Paths(bound), p, around)?;
    let second = part_of(alloc, body, &inside, &mut *memo)?;
    Ok(Vec::from_array(alloc, [first, second])?)
}

// A definition, and the body under its name.
fn defined_part<'a>(
    alloc: Global,
    defined: &'a Phrase,
    body: &'a Phrase,
    around: &Rc<Around<'a>>,
    p: &'a Phrase,
    memo: &mut Memo,
) -> Result<Vec<Part<'a>>, CauseError>
    ensures at { IfOk result (λ v. map part_at v.items ≡ (occurs (around_read around.now.value) (reads defined.now))
        ∷ (under_binder (around_read around.now.value) (reads p.now) (least_in (around_read around.now.value) (reads defined.now)) (reads body.now)) ∷ []) }
    ensures types { IfOk result (λ v. map part_type v.items ≡ least_of (occurs (around_read around.now.value) (reads defined.now))
        ∷ least_of (under_binder (around_read around.now.value) (reads p.now) (least_in (around_read around.now.value) (reads defined.now)) (reads body.now)) ∷ []) }
{
    let first = part_of(alloc, defined, around, &mut *memo)?;
    let bound = copy_paths(alloc, &first.paths)?;
    let inside = under(alloc, Bound::Paths(bound), p, around)?;
    let second = part_of(alloc, body, &inside, &mut *memo)?;
    Ok(Vec::from_array(alloc, [first, second])?)
}
