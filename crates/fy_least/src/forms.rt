//! Forms whose least types are made from those of their parts.

ghost use Rattle.std.specs.Prelude.{◌≡◌, ◌+◌, ◌≤◌, ◌<◌, Some, IfOk, IsErrOf, option_map, slice_get, if◌then◌else◌};
ghost use Rattle.fy_types.specs.Bounds.{join_of};
ghost use Rattle.fy_types.specs.Limits.{IsTooLarge};
ghost use Rattle.fy_types.specs.Once.{once as once_of};
ghost use Rattle.fy_types.specs.Paths.{picked};
ghost use Rattle.fy_types.specs.Reading.{plain_paths, plain_type};
ghost use Rattle.fy_derive.specs.Derivations.{sub};
ghost use Rattle.fy_derive.specs.Least.{
  if_passed,
  merge_of,
  paths_at,
  rests_of_call as rests_of_call_of,
  rests_of_field as rests_of_field_of,
};
ghost use Rattle.fy_derive.specs.Reading.{plain_derivation};
ghost use Rattle.fy_derive.specs.Standing.{plain_kind};
ghost use Rattle.fy_least.specs.Derived.{IsCall, IsChoice, IsMerge, IsSelection, derived_if, rule_of};
ghost use Rattle.fy_least.specs.Forms.{IsApplied, IsChosen, IsDefined, IsMerged, IsPicked, is_recursive, variable_rule};
ghost use Rattle.fy_least.specs.Limits.{most_together};
ghost use Rattle.fy_least.specs.Scopes.{scope_forms};
ghost use Rattle.fy_least.specs.Visited.{IsMade, IsRefused, blame_at, derivation_of, has_atom};

use crate::error::LeastError;
use crate::found::{Found, arrow_to, both, field_of, to_atom, to_paths, to_type};
use crate::rules::{rule_of_one, rule_of_two};
use crate::scope::{Scope, form_at};
use fy_base::{OutOfMemory, Place};
use fy_derive::{Demand, Derivation, DerivationList};
use fy_forms::{field_form, meet_with};
use fy_memo::{Form, Memo};
use fy_order::{are_paths_below, has, others, rests_of_field};
use fy_types::{Atom, Name, Paths, Ty, copy_paths, copy_ty};
use std::alloc::Global;

/// A variable.
pub(crate) fn variable(
    alloc: Global,
    scope: &Scope<'_, '_>,
    number: u32,
    at: Place,
) -> Result<Found, LeastError>
    ensures made { IfOk result
        (λ f. IsMade (once_of (paths_at (scope_forms scope.now) number)) (at) (0) f) }
    ensures derived { IfOk result
        (λ f. plain_derivation f.derivation ≡ variable_rule (slice_get (scope_forms scope.now) number)) }
    ensures large { IsErrOf result LeastError.TypeTooLarge →
        IsRefused (once_of (paths_at (scope_forms scope.now) number)) (0) }
{
    let Some(paths) = form_at(alloc, scope, number)? else {
        return Ok(Found::none(alloc, at, 0));
    };
    let derivation = Derivation::Rule(DerivationList::new(alloc));
    Found::new(paths, derivation, at, 0)
}

/// A procedure called with an argument.
pub(crate) fn application(
    alloc: Global,
    procedure: Found,
    argument: Found,
    at: Place,
    memo: &mut Memo,
) -> Result<Found, LeastError>
    ensures made { IfOk result
        (λ f. IsMade (once_of (rests_of_call_of (plain_paths argument.paths) (plain_paths procedure.paths)))
        (blame_at procedure (blame_at argument at)) (procedure.total + argument.total) f) }
    ensures derived { IfOk result
        (λ f. IsApplied procedure argument (plain_derivation f.derivation)) }
    ensures large { IsErrOf result LeastError.TypeTooLarge →
        IsRefused (once_of (rests_of_call_of (plain_paths argument.paths) (plain_paths procedure.paths)))
        (procedure.total + argument.total) }
{
    let blame = procedure.blame_or(argument.blame_or(at));
    let total = both(procedure.total, argument.total)?;
    let paths = memo.rests_of_call(alloc, &argument.paths, &procedure.paths)?;
    let Found {
        paths: domain,
        derivation: second,
        ..
    } = argument;
    let derivation = call(alloc, &domain, &paths, procedure.derivation, second, memo)?;
    Found::new(paths, derivation, blame, total)
}

// The rule of a call, where the argument is taken at a type with the paths of the domain, and what
// comes back at one with the others.
fn call(
    alloc: Global,
    domain: &Paths,
    paths: &Paths,
    procedure: Derivation,
    argument: Derivation,
    memo: &mut Memo,
) -> Result<Derivation, OutOfMemory>
    ensures { IfOk result
        (λ d. IsCall (plain_paths domain.now) (plain_paths paths.now)
        (plain_derivation procedure) (plain_derivation argument) (plain_derivation d)) }
{
    let given = memo.ty_of(alloc, domain)?;
    let arrow = arrow_to(alloc, &given, paths, memo)?;
    let first = to_type(alloc, arrow, procedure)?;
    let second = to_type(alloc, given, argument)?;
    rule_of_two(alloc, first, second)
}

/// A field definition.
pub(crate) fn field(alloc: Global, name: Name, part: Found, at: Place) -> Result<Found, LeastError>
    ensures made { IfOk result
        (λ f. IsMade (picked name (plain_paths part.paths)) (blame_at part at) (part.total) f) }
    ensures derived { IfOk result
        (λ f. plain_derivation f.derivation ≡ rule_of (derivation_of part)) }
    ensures large { IsErrOf result LeastError.TypeTooLarge →
        IsRefused (picked name (plain_paths part.paths)) (part.total) }
{
    let blame = part.blame_or(at);
    let paths = field_form(alloc, name, &part.paths)?;
    let derivation = rule_of_one(alloc, part.derivation)?;
    Found::new(paths, derivation, blame, part.total)
}

/// A field of a phrase.
pub(crate) fn selection(
    alloc: Global,
    part: Found,
    name: Name,
    at: Place,
    memo: &mut Memo,
) -> Result<Found, LeastError>
    ensures made { IfOk result
        (λ f. IsMade (rests_of_field_of name (plain_paths part.paths)) (blame_at part at) (part.total) f) }
    ensures derived { IfOk result
        (λ f. IsPicked name part (plain_derivation f.derivation)) }
    ensures large { IsErrOf result LeastError.TypeTooLarge →
        IsRefused (rests_of_field_of name (plain_paths part.paths)) (part.total) }
{
    let blame = part.blame_or(at);
    let paths = rests_of_field(alloc, name, &part.paths)?;
    let derivation = selected(alloc, name, &paths, part.derivation, memo)?;
    Found::new(paths, derivation, blame, part.total)
}

// The rule of a selection of a field with the paths.
fn selected(
    alloc: Global,
    name: Name,
    paths: &Paths,
    derivation: Derivation,
    memo: &mut Memo,
) -> Result<Derivation, OutOfMemory>
    ensures { IfOk result
        (λ d. IsSelection name (plain_paths paths.now) (plain_derivation derivation) (plain_derivation d)) }
{
    let ty = field_of(alloc, name, paths, memo)?;
    let premise = to_type(alloc, ty, derivation)?;
    rule_of_one(alloc, premise)
}

/// A merge, whose right operand takes the demand.
pub(crate) fn merge(
    alloc: Global,
    left: Found,
    right: Found,
    demand: Option<Demand>,
    at: Place,
    memo: &mut Memo,
) -> Result<Found, LeastError>
    requires { once_of (plain_paths left.paths) ≡ plain_paths left.paths }
    ensures made { IfOk result
        (λ f. IsMade (merge_of (option_map plain_kind demand) (plain_paths left.paths) (plain_paths right.paths))
        (blame_at left (blame_at right at)) (left.total + right.total) f) }
    ensures derived { IfOk result
        (λ f. IsMerged (option_map plain_kind demand) left right (plain_derivation f.derivation)) }
    ensures large { IsErrOf result LeastError.TypeTooLarge →
        IsRefused (merge_of (option_map plain_kind demand) (plain_paths left.paths) (plain_paths right.paths))
        (left.total + right.total) }
{
    let blame = left.blame_or(right.blame_or(at));
    let total = both(left.total, right.total)?;
    let Some(demand) = demand else {
        return Ok(Found::none(alloc, blame, total));
    };
    let kept = others(alloc, demand, left.paths)?;
    let derivation = both_operands(alloc, &kept, left.derivation, right.derivation, memo)?;
    let paths = meet_with(alloc, kept, &right.paths)?;
    Found::new(paths, derivation, blame, total)
}

// The meet of both operands of a merge, where the left one is taken at a type with the paths.
fn both_operands(
    alloc: Global,
    paths: &Paths,
    left: Derivation,
    right: Derivation,
    memo: &mut Memo,
) -> Result<Derivation, OutOfMemory>
    ensures { IfOk result
        (λ d. IsMerge (plain_paths paths.now) (plain_derivation left) (plain_derivation right) (plain_derivation d)) }
{
    let ty = memo.ty_of(alloc, paths)?;
    let first = to_type(alloc, ty, left)?;
    let mut members = DerivationList::new(alloc);
    members.push(Derivation::Left(Box::new(alloc, first)?))?;
    members.push(Derivation::Right(Box::new(alloc, right)?))?;
    Ok(Derivation::Meet(members))
}

/// A definition, and the phrase that it stands in.
pub(crate) fn definition(
    alloc: Global,
    defined: Found,
    body: Found,
    at: Place,
    memo: &mut Memo,
) -> Result<Found, LeastError>
    ensures made { IfOk result
        (λ f. IsMade (plain_paths body.paths) (blame_at defined (blame_at body at)) (defined.total + body.total) f) }
    ensures derived { IfOk result
        (λ f. IsDefined defined body (plain_derivation f.derivation)) }
    ensures large { IsErrOf result LeastError.TypeTooLarge →
        IsRefused (plain_paths body.paths) (defined.total + body.total) }
{
    let blame = defined.blame_or(body.blame_or(at));
    let total = both(defined.total, body.total)?;
    let Found {
        paths,
        derivation,
        ..
    } = defined;
    let premise = to_paths(alloc, &paths, derivation, memo)?;
    let derivation = rule_of_two(alloc, premise, body.derivation)?;
    Found::new(body.paths, derivation, blame, total)
}

/// A phrase of the type that is defined by itself, whose form is given too.
pub(crate) fn recursion(
    alloc: Global,
    ty: &Ty,
    form: &Form,
    body: Found,
    at: Place,
) -> Result<Found, LeastError>
    requires { body.total ≤ most_together }
    ensures made { IfOk result
        (λ f. IsMade (if_passed (is_recursive body (plain_paths form.now.paths)) (once_of (plain_paths form.now.paths)))
        (blame_at body at) (body.total) f) }
    ensures derived { IfOk result
        (λ f. plain_derivation f.derivation
        ≡ derived_if (is_recursive body (plain_paths form.now.paths)) (rule_of (sub (plain_type ty.now) (derivation_of body)))) }
    ensures large { IsErrOf result LeastError.TypeTooLarge →
        IsRefused (if_passed (is_recursive body (plain_paths form.now.paths)) (once_of (plain_paths form.now.paths))) (body.total) }
{
    let blame = body.blame_or(at);
    if !are_paths_below(alloc, &body.paths, &form.paths)? {
        return Ok(Found::none(alloc, blame, body.total));
    }
    let premise = to_type(alloc, copy_ty(alloc, ty)?, body.derivation)?;
    let derivation = rule_of_one(alloc, premise)?;
    let paths = copy_paths(alloc, form.each())?;
    Found::new(paths, derivation, blame, body.total)
}

/// A conditional, from its condition and its branches.
pub(crate) fn conditional(
    alloc: Global,
    test: Found,
    first: Found,
    second: Found,
    at: Place,
    memo: &mut Memo,
) -> Result<Found, LeastError>
    ensures made { IfOk result
        (λ f. IsMade (if_passed (has_atom test Atom.Bool) (join_of (plain_paths first.paths) (plain_paths second.paths)))
        (blame_at test (blame_at first (blame_at second at))) (test.total + first.total + second.total) f) }
    ensures derived { IfOk result
        (λ f. IsChosen test first second (plain_derivation f.derivation)) }
    ensures large { IsErrOf result LeastError.TypeTooLarge →
        IsRefused (if_passed (has_atom test Atom.Bool) (join_of (plain_paths first.paths) (plain_paths second.paths)))
        (test.total + first.total + second.total) }
{
    let blame = test.blame_or(first.blame_or(second.blame_or(at)));
    let total = both(both(test.total, first.total)?, second.total)?;
    if !has(&test.paths, Atom::Bool) {
        return Ok(Found::none(alloc, blame, total));
    }
    let paths = memo.join(alloc, &first.paths, &second.paths)?;
    let parts = (test.derivation, first.derivation, second.derivation);
    let derivation = choice(alloc, &paths, parts, memo)?;
    Found::new(paths, derivation, blame, total)
}

// The rule of a conditional, where both branches are taken at a type with the paths.
fn choice(
    alloc: Global,
    paths: &Paths,
    parts: (Derivation, Derivation, Derivation),
    memo: &mut Memo,
) -> Result<Derivation, OutOfMemory>
    ensures { IfOk result
        (λ d. IsChoice (plain_paths paths.now) (plain_derivation parts.0) (plain_derivation parts.1)
        (plain_derivation parts.2) (plain_derivation d)) }
{
    let (test, first, second) = parts;
    let ty = memo.ty_of(alloc, paths)?;
    let other = copy_ty(alloc, &ty)?;
    let mut premises = DerivationList::new(alloc);
    premises.push(to_atom(alloc, Atom::Bool, test)?)?;
    premises.push(to_type(alloc, ty, first)?)?;
    premises.push(to_type(alloc, other, second)?)?;
    Ok(Derivation::Rule(premises))
}
