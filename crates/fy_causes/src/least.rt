//! Least types of phrases, with what is blamed.

ghost use Rattle.std.specs.Prelude.{◌≡◌, [], ◌∷◌, ◌&&◌, IfOk, map, option_map};
ghost use Rattle.fy_types.specs.Bounds.{join_of};
ghost use Rattle.fy_types.specs.Once.{once as once_of};
ghost use Rattle.fy_types.specs.Paths.{called as called_of, paths as paths_in_type, picked};
ghost use Rattle.fy_types.specs.Reading.{plain_paths, plain_type, plain_types};
ghost use Rattle.fy_phrase.specs.Reads.{reads, reads_parts};
ghost use Rattle.fy_derive.specs.Atoms.{binary_atom as binary_atom_of, cell_type, sequence_type};
ghost use Rattle.fy_derive.specs.Kinds.{kind_of};
ghost use Rattle.fy_derive.specs.Least.{
  alternatives_of,
  command_of,
  has as has_of,
  has_assignment,
  has_operands,
  if_passed,
  least_type,
  merge_of,
  one_end as one_end_of,
  rests_of_call as rests_of_call_of,
  rests_of_field as rests_of_field_of,
  some_data,
};
ghost use Rattle.fy_derive.specs.Standing.{plain_kind};
ghost use Rattle.fy_derive.specs.Subsumption.{paths_below};
ghost use Rattle.fy_causes.specs.Blamed.{blamed as blamed_in};
ghost use Rattle.fy_causes.specs.Occurrences.{bound_by, each_occurs, forms_around, least_in, occurs, under as under_binder};
ghost use Rattle.fy_causes.specs.Readings.{around_read, blame_from, first_under, found_at, found_read, joined as joined_of, occurrence_read};

use crate::around::{Around, Bound, paths_at, under};
use crate::ends::{command_behind, end_if, fit_assignment, fit_operator};
use crate::error::CauseError;
use crate::found::{Found, alone, is_hollow, no_path, of_many, of_one, of_three, of_two};
use fy_base::BinOp;
use fy_derive::{
    Demand, acceptor_atom, binary_atom, data_atom, datum_atom, demand_of, operand_atom, put_atom,
    unary_atom,
};
use fy_forms::{call_form, field_form, meet, paths_of};
use fy_memo::Memo;
use fy_order::{are_paths_below, has, one_end, others, rests_of_field};
use fy_phrase::{DataTy, Parts, Phrase};
use fy_types::{Atom, Name, Paths, Ty, TyList, copy_paths};
use std::alloc::Global;
use std::rc::Rc;

/// The least type of a phrase, and what is blamed, where these variables are in scope.
#[cycle(least)]
#[tactic(auto, using(crate::proofs::ArmLemmas::arm_rules))]
pub(crate) fn found_in<'a>(
    alloc: Global,
    p: &'a Phrase,
    around: &Rc<Around<'a>>,
    memo: &mut Memo,
) -> Result<Found<'a>, CauseError>
    ensures least { IfOk result (λ f. plain_paths f.paths ≡ least_in (around_read around.now.value) (reads p.now)) }
    ensures blamed { IfOk result (λ f. occurrence_read f.blamed ≡ blamed_in (around_read around.now.value) (reads p.now)) }
{
    match p {
        Phrase::Var(number, _) => {
            let paths = paths_at(alloc, around, *number)?;
            Ok(alone(paths, around, p)?)
        }
        Phrase::Lit(datum, _) => {
            let paths = one_end(alloc, datum_atom(*datum))?;
            Ok(alone(paths, around, p)?)
        }
        Phrase::Unary(op, part, _) => {
            let ends = (operand_atom(*op), unary_atom(*op));
            found_in_one(alloc, part, ends, around, p, memo)
        }
        Phrase::Binary(op, left, right, _) => {
            found_in_binary(alloc, *op, left, right, around, p, memo)
        }
        Phrase::Cond(test, first, second, _) => {
            found_in_conditional(alloc, test, first, second, around, p, memo)
        }
        Phrase::Case(index, parts, _) => found_in_case(alloc, index, parts, around, p, memo),
        Phrase::Lam(_, types, body, _) => {
            found_in_abstraction(alloc, types, body, around, p, memo)
        }
        Phrase::App(procedure, argument, _) => {
            found_in_application(alloc, procedure, argument, around, p, memo)
        }
        Phrase::Field(name, part, _) => found_in_field(alloc, *name, part, around, p, memo),
        Phrase::Sel(part, name, _) => found_in_selection(alloc, part, *name, around, p, memo),
        Phrase::Merge(left, right, _) => found_in_merge(alloc, left, right, around, p, memo),
        Phrase::LetIn(_, defined, body, _) => {
            found_in_definition(alloc, defined, body, around, p, memo)
        }
        Phrase::Rec(_, ty, body, _) => found_in_recursion(alloc, ty, body, around, p, memo),
        Phrase::Skip(_) => {
            let paths = one_end(alloc, Atom::Comm)?;
            Ok(alone(paths, around, p)?)
        }
        Phrase::Seq(first, second, _) => {
            found_in_sequence(alloc, first, second, around, p, memo)
        }
        Phrase::Assign(acceptor, value, _) => {
            found_in_assignment(alloc, acceptor, value, around, p, memo)
        }
        Phrase::WhileDo(test, body, _) => found_in_loop(alloc, test, body, around, p, memo),
        Phrase::Forever(body, _) => {
            let ends = (Atom::Comm, Atom::Compl);
            found_in_one(alloc, body, ends, around, p, memo)
        }
        Phrase::New(_, ty, first, body, _) => {
            let paths = cell_form(alloc, *ty)?;
            found_in_cell(alloc, first, body, data_atom(*ty), paths, around, p, memo)
        }
        Phrase::Cells(_, count, body, _) => {
            let paths = sequence_form(alloc)?;
            found_in_cell(alloc, count, body, Atom::Int, paths, around, p, memo)
        }
        Phrase::Escape(_, body, _) => {
            let paths = one_end(alloc, Atom::Compl)?;
            let ends = (Atom::Comm, Atom::Comm);
            found_under(alloc, body, ends, paths, around, p, memo)
        }
        Phrase::Accept(_, ty, body, _) => {
            let paths = one_end(alloc, data_atom(*ty))?;
            let ends = (Atom::Comm, acceptor_atom(*ty));
            found_under(alloc, body, ends, paths, around, p, memo)
        }
        Phrase::Put(kind, part, _) => {
            let ends = (put_atom(*kind), Atom::Comm);
            found_in_one(alloc, part, ends, around, p, memo)
        }
        Phrase::Read(part, _) => {
            let ends = (Atom::IntAcc, Atom::Comm);
            found_in_one(alloc, part, ends, around, p, memo)
        }
        Phrase::Mark(..) => Ok(alone(no_path(alloc), around, p)?),
    }
}

// A phrase whose rule takes the first atom of its one part, and gives the second one.
#[cycle(least)]
fn found_in_one<'a>(
    alloc: Global,
    part: &'a Phrase,
    ends: (Atom, Atom),
    around: &Rc<Around<'a>>,
    p: &'a Phrase,
    memo: &mut Memo,
) -> Result<Found<'a>, CauseError>
    ensures least { IfOk result (λ f. plain_paths f.paths
        ≡ if_passed (has_of (least_in (around_read around.now.value) (reads part.now)) ends.0) (one_end_of ends.1)) }
    ensures blamed { IfOk result (λ f. occurrence_read f.blamed
        ≡ blame_from (found_at (occurs (around_read around.now.value) (reads part.now)) ∷ [])
        (occurs (around_read around.now.value) (reads p.now))) }
{
    let found = found_in(alloc, part, around, memo)?;
    let paths = end_if(alloc, has(&found.paths, ends.0), ends.1)?;
    Ok(of_one(paths, found, around, p)?)
}

// The same, where the part stands under a variable with the paths.
#[cycle(least)]
fn found_under<'a>(
    alloc: Global,
    body: &'a Phrase,
    ends: (Atom, Atom),
    bound: Paths,
    around: &Rc<Around<'a>>,
    p: &'a Phrase,
    memo: &mut Memo,
) -> Result<Found<'a>, CauseError>
    ensures least { IfOk result (λ f. plain_paths f.paths ≡ if_passed
        (has_of (least_in (bound_by (reads p.now) (plain_paths bound) ∷ around_read around.now.value) (reads body.now)) ends.0) (one_end_of ends.1)) }
    ensures blamed { IfOk result (λ f. occurrence_read f.blamed
        ≡ blame_from (found_at (under_binder (around_read around.now.value) (reads p.now) (plain_paths bound) (reads body.now)) ∷ [])
        (occurs (around_read around.now.value) (reads p.now))) }
{
    let inside = under(alloc, Bound::Paths(bound), p, around)?;
    let found = found_in(alloc, body, &inside, memo)?;
    let paths = end_if(alloc, has(&found.paths, ends.0), ends.1)?;
    Ok(of_one(paths, found, around, p)?)
}

#[cycle(least)]
fn found_in_binary<'a>(
    alloc: Global,
    op: BinOp,
    left: &'a Phrase,
    right: &'a Phrase,
    around: &Rc<Around<'a>>,
    p: &'a Phrase,
    memo: &mut Memo,
) -> Result<Found<'a>, CauseError>
    ensures least { IfOk result (λ f. plain_paths f.paths ≡ if_passed
        (some_data (has_operands op (least_in (around_read around.now.value) (reads left.now))
        (least_in (around_read around.now.value) (reads right.now)))) (one_end_of (binary_atom_of op))) }
    ensures blamed { IfOk result (λ f. occurrence_read f.blamed
        ≡ blame_from (found_at (occurs (around_read around.now.value) (reads left.now))
        ∷ found_at (occurs (around_read around.now.value) (reads right.now)) ∷ [])
        (occurs (around_read around.now.value) (reads p.now))) }
{
    let left = found_in(alloc, left, around, &mut *memo)?;
    let right = found_in(alloc, right, around, &mut *memo)?;
    let fits = fit_operator(op, &left.paths, &right.paths);
    let paths = end_if(alloc, fits, binary_atom(op))?;
    Ok(of_two(paths, (left, right), around, p)?)
}

#[cycle(least)]
fn found_in_conditional<'a>(
    alloc: Global,
    test: &'a Phrase,
    first: &'a Phrase,
    second: &'a Phrase,
    around: &Rc<Around<'a>>,
    p: &'a Phrase,
    memo: &mut Memo,
) -> Result<Found<'a>, CauseError>
    ensures least { IfOk result (λ f. plain_paths f.paths ≡ if_passed
        (has_of (least_in (around_read around.now.value) (reads test.now)) Atom.Bool)
        (join_of (least_in (around_read around.now.value) (reads first.now)) (least_in (around_read around.now.value) (reads second.now)))) }
    ensures blamed { IfOk result (λ f. occurrence_read f.blamed
        ≡ blame_from (found_at (occurs (around_read around.now.value) (reads test.now))
        ∷ found_at (occurs (around_read around.now.value) (reads first.now))
        ∷ found_at (occurs (around_read around.now.value) (reads second.now)) ∷ [])
        (occurs (around_read around.now.value) (reads p.now))) }
{
    let test = found_in(alloc, test, around, &mut *memo)?;
    let first = found_in(alloc, first, around, &mut *memo)?;
    let second = found_in(alloc, second, around, &mut *memo)?;
    let paths = if has(&test.paths, Atom::Bool) {
        memo.join(alloc, &first.paths, &second.paths)?
    } else {
        no_path(alloc)
    };
    Ok(of_three(paths, (test, first, second), around, p)?)
}

#[cycle(least)]
fn found_in_case<'a>(
    alloc: Global,
    index: &'a Phrase,
    parts: &'a Parts,
    around: &Rc<Around<'a>>,
    p: &'a Phrase,
    memo: &mut Memo,
) -> Result<Found<'a>, CauseError>
    ensures least { IfOk result (λ f. plain_paths f.paths ≡ if_passed
        (has_of (least_in (around_read around.now.value) (reads index.now)) Atom.Int)
        (joined_of (map found_at (each_occurs (around_read around.now.value) (reads_parts parts.now))))) }
    ensures blamed { IfOk result (λ f. occurrence_read f.blamed
        ≡ blame_from (found_at (occurs (around_read around.now.value) (reads index.now))
        ∷ map found_at (each_occurs (around_read around.now.value) (reads_parts parts.now)))
        (occurs (around_read around.now.value) (reads p.now))) }
{
    let index = found_in(alloc, index, around, &mut *memo)?;
    let others = found_in_each(alloc, parts, around, &mut *memo)?;
    let paths = if has(&index.paths, Atom::Int) {
        joined(alloc, others.as_slice(), memo)?
    } else {
        no_path(alloc)
    };
    Ok(of_many(paths, index, others.as_slice(), around, p)?)
}

// What is found of each part of a case.
#[cycle(least)]
fn found_in_each<'a>(
    alloc: Global,
    parts: &'a Parts,
    around: &Rc<Around<'a>>,
    memo: &mut Memo,
) -> Result<Vec<Found<'a>>, CauseError>
    ensures { IfOk result (λ v. map found_read v.items
        ≡ map found_at (each_occurs (around_read around.now.value) (reads_parts parts.now))) }
{
    let mut made = Vec::new(alloc);
    for part in parts.as_slice() {
        made.push(found_in(alloc, part, around, &mut *memo)?)?;
    }
    Ok(made)
}

// The join of what all have, from the left.
fn joined(alloc: Global, parts: &[Found<'_>], memo: &mut Memo) -> Result<Paths, CauseError>
    ensures { IfOk result (λ made. plain_paths made ≡ joined_of (map found_read parts.now)) }
{
    if parts.len() == 0 {
        return Ok(no_path(alloc));
    }
    let mut paths = copy_paths(alloc, &parts[0].paths)?;
    for i in 1..parts.len() {
        paths = memo.join(alloc, &paths, &parts[i].paths)?;
    }
    Ok(paths)
}

#[cycle(least)]
fn found_in_abstraction<'a>(
    alloc: Global,
    types: &'a TyList,
    body: &'a Phrase,
    around: &Rc<Around<'a>>,
    p: &'a Phrase,
    memo: &mut Memo,
) -> Result<Found<'a>, CauseError>
    ensures least { IfOk result (λ f. plain_paths f.paths ≡ once_of (alternatives_of (plain_types types.now)
        (λ D. least_type (D ∷ forms_around (around_read around.now.value)) (reads body.now)))) }
    ensures blamed { IfOk result (λ f. occurrence_read f.blamed
        ≡ blame_from (map found_at (first_under (around_read around.now.value) (reads p.now) (plain_types types.now) (reads body.now)))
        (occurs (around_read around.now.value) (reads p.now))) }
{
    let types = types.as_slice();
    if types.len() == 0 {
        return Ok(alone(no_path(alloc), around, p)?);
    }
    let (called, first) = found_with(alloc, &types[0], body, around, p, &mut *memo)?;
    let mut paths = meet(alloc, &Paths::new(alloc), &called)?;
    for i in 1..types.len() {
        let (called, _) = found_with(alloc, &types[i], body, around, p, &mut *memo)?;
        paths = meet(alloc, &paths, &called)?;
    }
    Ok(of_one(paths, first, around, p)?)
}

// What is found of an abstraction's body under a variable of the type, and its paths with a call of the type in front.
#[cycle(least)]
fn found_with<'a>(
    alloc: Global,
    ty: &'a Ty,
    body: &'a Phrase,
    around: &Rc<Around<'a>>,
    p: &'a Phrase,
    memo: &mut Memo,
) -> Result<(Paths, Found<'a>), CauseError>
    ensures called { IfOk result (λ made. plain_paths made.0 ≡ called_of (paths_in_type (plain_type ty.now))
        (least_type (paths_in_type (plain_type ty.now) ∷ forms_around (around_read around.now.value)) (reads body.now))) }
    ensures found { IfOk result (λ made. found_read made.1
        ≡ found_at (under_binder (around_read around.now.value) (reads p.now) (paths_in_type (plain_type ty.now)) (reads body.now))) }
{
    let inside = under(alloc, Bound::Written(ty), p, around)?;
    let found = found_in(alloc, body, &inside, memo)?;
    if is_hollow(&found.paths) {
        return Ok((no_path(alloc), found));
    }
    let domain = paths_of(alloc, ty)?;
    let called = call_form(alloc, &domain, &found.paths)?;
    Ok((called, found))
}

#[cycle(least)]
fn found_in_application<'a>(
    alloc: Global,
    procedure: &'a Phrase,
    argument: &'a Phrase,
    around: &Rc<Around<'a>>,
    p: &'a Phrase,
    memo: &mut Memo,
) -> Result<Found<'a>, CauseError>
    ensures least { IfOk result (λ f. plain_paths f.paths ≡ once_of (rests_of_call_of
        (least_in (around_read around.now.value) (reads argument.now)) (least_in (around_read around.now.value) (reads procedure.now)))) }
    ensures blamed { IfOk result (λ f. occurrence_read f.blamed
        ≡ blame_from (found_at (occurs (around_read around.now.value) (reads procedure.now))
        ∷ found_at (occurs (around_read around.now.value) (reads argument.now)) ∷ [])
        (occurs (around_read around.now.value) (reads p.now))) }
{
    let procedure = found_in(alloc, procedure, around, &mut *memo)?;
    let argument = found_in(alloc, argument, around, &mut *memo)?;
    let paths = memo.rests_of_call(alloc, &argument.paths, &procedure.paths)?;
    Ok(of_two(paths, (procedure, argument), around, p)?)
}

#[cycle(least)]
fn found_in_field<'a>(
    alloc: Global,
    name: Name,
    part: &'a Phrase,
    around: &Rc<Around<'a>>,
    p: &'a Phrase,
    memo: &mut Memo,
) -> Result<Found<'a>, CauseError>
    ensures least { IfOk result (λ f. plain_paths f.paths ≡ picked name (least_in (around_read around.now.value) (reads part.now))) }
    ensures blamed { IfOk result (λ f. occurrence_read f.blamed
        ≡ blame_from (found_at (occurs (around_read around.now.value) (reads part.now)) ∷ [])
        (occurs (around_read around.now.value) (reads p.now))) }
{
    let found = found_in(alloc, part, around, memo)?;
    let paths = field_form(alloc, name, &found.paths)?;
    Ok(of_one(paths, found, around, p)?)
}

#[cycle(least)]
fn found_in_selection<'a>(
    alloc: Global,
    part: &'a Phrase,
    name: Name,
    around: &Rc<Around<'a>>,
    p: &'a Phrase,
    memo: &mut Memo,
) -> Result<Found<'a>, CauseError>
    ensures least { IfOk result (λ f. plain_paths f.paths ≡ rests_of_field_of name (least_in (around_read around.now.value) (reads part.now))) }
    ensures blamed { IfOk result (λ f. occurrence_read f.blamed
        ≡ blame_from (found_at (occurs (around_read around.now.value) (reads part.now)) ∷ [])
        (occurs (around_read around.now.value) (reads p.now))) }
{
    let found = found_in(alloc, part, around, memo)?;
    let paths = rests_of_field(alloc, name, &found.paths)?;
    Ok(of_one(paths, found, around, p)?)
}

#[cycle(least)]
fn found_in_merge<'a>(
    alloc: Global,
    left: &'a Phrase,
    right: &'a Phrase,
    around: &Rc<Around<'a>>,
    p: &'a Phrase,
    memo: &mut Memo,
) -> Result<Found<'a>, CauseError>
    ensures least { IfOk result (λ f. plain_paths f.paths ≡ merge_of (kind_of (reads right.now))
        (least_in (around_read around.now.value) (reads left.now)) (least_in (around_read around.now.value) (reads right.now))) }
    ensures blamed { IfOk result (λ f. occurrence_read f.blamed
        ≡ blame_from (found_at (occurs (around_read around.now.value) (reads left.now))
        ∷ found_at (occurs (around_read around.now.value) (reads right.now)) ∷ [])
        (occurs (around_read around.now.value) (reads p.now))) }
{
    let demand = demand_of(right);
    let left = found_in(alloc, left, around, &mut *memo)?;
    let right = found_in(alloc, right, around, &mut *memo)?;
    let paths = merged(alloc, demand, &left.paths, &right.paths)?;
    Ok(of_two(paths, (left, right), around, p)?)
}

// What a merge has from its operands, whose right one takes the demand.
fn merged(
    alloc: Global,
    demand: Option<Demand>,
    left: &Paths,
    right: &Paths,
) -> Result<Paths, CauseError>
    ensures { IfOk result (λ made. plain_paths made
        ≡ merge_of (option_map plain_kind demand) (plain_paths left.now) (plain_paths right.now)) }
{
    match demand {
        None => Ok(no_path(alloc)),
        Some(demand) => {
            let kept = others(alloc, demand, copy_paths(alloc, left)?)?;
            let paths = meet(alloc, &kept, right)?;
            Ok(paths)
        }
    }
}

#[cycle(least)]
fn found_in_definition<'a>(
    alloc: Global,
    defined: &'a Phrase,
    body: &'a Phrase,
    around: &Rc<Around<'a>>,
    p: &'a Phrase,
    memo: &mut Memo,
) -> Result<Found<'a>, CauseError>
    ensures least { IfOk result (λ f. plain_paths f.paths ≡ least_in
        (bound_by (reads p.now) (least_in (around_read around.now.value) (reads defined.now)) ∷ around_read around.now.value) (reads body.now)) }
    ensures blamed { IfOk result (λ f. occurrence_read f.blamed
        ≡ blame_from (found_at (occurs (around_read around.now.value) (reads defined.now))
        ∷ found_at (under_binder (around_read around.now.value) (reads p.now) (least_in (around_read around.now.value) (reads defined.now)) (reads body.now)) ∷ [])
        (occurs (around_read around.now.value) (reads p.now))) }
{
    let defined = found_in(alloc, defined, around, &mut *memo)?;
    let bound = copy_paths(alloc, &defined.paths)?;
    let inside = under(alloc, Bound::Paths(bound), p, around)?;
    let body = found_in(alloc, body, &inside, &mut *memo)?;
    let paths = copy_paths(alloc, &body.paths)?;
    Ok(of_two(paths, (defined, body), around, p)?)
}

#[cycle(least)]
fn found_in_recursion<'a>(
    alloc: Global,
    ty: &'a Ty,
    body: &'a Phrase,
    around: &Rc<Around<'a>>,
    p: &'a Phrase,
    memo: &mut Memo,
) -> Result<Found<'a>, CauseError>
    ensures least { IfOk result (λ f. plain_paths f.paths ≡ if_passed
        (paths_below (least_in (bound_by (reads p.now) (paths_in_type (plain_type ty.now)) ∷ around_read around.now.value) (reads body.now))
        (paths_in_type (plain_type ty.now))) (once_of (paths_in_type (plain_type ty.now)))) }
    ensures blamed { IfOk result (λ f. occurrence_read f.blamed
        ≡ blame_from (found_at (under_binder (around_read around.now.value) (reads p.now) (paths_in_type (plain_type ty.now)) (reads body.now)) ∷ [])
        (occurs (around_read around.now.value) (reads p.now))) }
{
    let declared = paths_of(alloc, ty)?;
    let inside = under(alloc, Bound::Written(ty), p, around)?;
    let found = found_in(alloc, body, &inside, memo)?;
    let paths = if are_paths_below(alloc, &found.paths, &declared)? {
        meet(alloc, &Paths::new(alloc), &declared)?
    } else {
        no_path(alloc)
    };
    Ok(of_one(paths, found, around, p)?)
}

#[cycle(least)]
fn found_in_sequence<'a>(
    alloc: Global,
    first: &'a Phrase,
    second: &'a Phrase,
    around: &Rc<Around<'a>>,
    p: &'a Phrase,
    memo: &mut Memo,
) -> Result<Found<'a>, CauseError>
    ensures least { IfOk result (λ f. plain_paths f.paths ≡ if_passed
        (has_of (least_in (around_read around.now.value) (reads first.now)) Atom.Comm)
        (command_of (least_in (around_read around.now.value) (reads second.now)))) }
    ensures blamed { IfOk result (λ f. occurrence_read f.blamed
        ≡ blame_from (found_at (occurs (around_read around.now.value) (reads first.now))
        ∷ found_at (occurs (around_read around.now.value) (reads second.now)) ∷ [])
        (occurs (around_read around.now.value) (reads p.now))) }
{
    let first = found_in(alloc, first, around, &mut *memo)?;
    let second = found_in(alloc, second, around, &mut *memo)?;
    let paths = command_behind(alloc, &first.paths, Atom::Comm, &second.paths)?;
    Ok(of_two(paths, (first, second), around, p)?)
}

#[cycle(least)]
fn found_in_assignment<'a>(
    alloc: Global,
    acceptor: &'a Phrase,
    value: &'a Phrase,
    around: &Rc<Around<'a>>,
    p: &'a Phrase,
    memo: &mut Memo,
) -> Result<Found<'a>, CauseError>
    ensures least { IfOk result (λ f. plain_paths f.paths ≡ if_passed
        (some_data (has_assignment (least_in (around_read around.now.value) (reads acceptor.now))
        (least_in (around_read around.now.value) (reads value.now)))) (one_end_of Atom.Comm)) }
    ensures blamed { IfOk result (λ f. occurrence_read f.blamed
        ≡ blame_from (found_at (occurs (around_read around.now.value) (reads acceptor.now))
        ∷ found_at (occurs (around_read around.now.value) (reads value.now)) ∷ [])
        (occurs (around_read around.now.value) (reads p.now))) }
{
    let acceptor = found_in(alloc, acceptor, around, &mut *memo)?;
    let value = found_in(alloc, value, around, &mut *memo)?;
    let fits = fit_assignment(&acceptor.paths, &value.paths);
    let paths = end_if(alloc, fits, Atom::Comm)?;
    Ok(of_two(paths, (acceptor, value), around, p)?)
}

#[cycle(least)]
fn found_in_loop<'a>(
    alloc: Global,
    test: &'a Phrase,
    body: &'a Phrase,
    around: &Rc<Around<'a>>,
    p: &'a Phrase,
    memo: &mut Memo,
) -> Result<Found<'a>, CauseError>
    ensures least { IfOk result (λ f. plain_paths f.paths ≡ if_passed
        (has_of (least_in (around_read around.now.value) (reads test.now)) Atom.Bool
        && has_of (least_in (around_read around.now.value) (reads body.now)) Atom.Comm) (one_end_of Atom.Comm)) }
    ensures blamed { IfOk result (λ f. occurrence_read f.blamed
        ≡ blame_from (found_at (occurs (around_read around.now.value) (reads test.now))
        ∷ found_at (occurs (around_read around.now.value) (reads body.now)) ∷ [])
        (occurs (around_read around.now.value) (reads p.now))) }
{
    let test = found_in(alloc, test, around, &mut *memo)?;
    let body = found_in(alloc, body, around, &mut *memo)?;
    let fits = has(&test.paths, Atom::Bool) && has(&body.paths, Atom::Comm);
    let paths = end_if(alloc, fits, Atom::Comm)?;
    Ok(of_two(paths, (test, body), around, p)?)
}

// A command behind a phrase that is to have the atom, under a variable with the paths.
#[cycle(least)]
fn found_in_cell<'a>(
    alloc: Global,
    first: &'a Phrase,
    body: &'a Phrase,
    wants: Atom,
    bound: Paths,
    around: &Rc<Around<'a>>,
    p: &'a Phrase,
    memo: &mut Memo,
) -> Result<Found<'a>, CauseError>
    ensures least { IfOk result (λ f. plain_paths f.paths ≡ if_passed
        (has_of (least_in (around_read around.now.value) (reads first.now)) wants)
        (command_of (least_in (bound_by (reads p.now) (plain_paths bound) ∷ around_read around.now.value) (reads body.now)))) }
    ensures blamed { IfOk result (λ f. occurrence_read f.blamed
        ≡ blame_from (found_at (occurs (around_read around.now.value) (reads first.now))
        ∷ found_at (under_binder (around_read around.now.value) (reads p.now) (plain_paths bound) (reads body.now)) ∷ [])
        (occurs (around_read around.now.value) (reads p.now))) }
{
    let first = found_in(alloc, first, around, &mut *memo)?;
    let inside = under(alloc, Bound::Paths(bound), p, around)?;
    let body = found_in(alloc, body, &inside, &mut *memo)?;
    let paths = command_behind(alloc, &first.paths, wants, &body.paths)?;
    Ok(of_two(paths, (first, body), around, p)?)
}

/// The paths of a cell's variable.
pub(crate) fn cell_form(alloc: Global, ty: DataTy) -> Result<Paths, CauseError>
    ensures { IfOk result (λ made. plain_paths made ≡ paths_in_type (cell_type ty)) }
{
    let value = one_end(alloc, data_atom(ty))?;
    let acceptor = one_end(alloc, acceptor_atom(ty))?;
    let made = meet(alloc, &value, &acceptor)?;
    Ok(made)
}

// The number of the name `len`.
const LENGTH: Name = 0;

/// The paths of a sequence's variable.
pub(crate) fn sequence_form(alloc: Global) -> Result<Paths, CauseError>
    ensures { IfOk result (λ made. plain_paths made ≡ paths_in_type sequence_type) }
{
    let index = one_end(alloc, Atom::Int)?;
    let cells = call_form(alloc, &index, &cell_form(alloc, DataTy::Int)?)?;
    let length = field_form(alloc, LENGTH, &index)?;
    let made = meet(alloc, &cells, &length)?;
    Ok(made)
}
