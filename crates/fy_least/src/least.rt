//! Least types of phrases, with derivations.

ghost use Rattle.std.specs.Prelude.{◌≡◌, ◌⊎◌, ℕ, ◌∷◌, IfOk, IfSome, IsErrOf, OnOk, OnSome, map};
ghost use Rattle.fy_types.specs.Limits.{IsTooLarge, IsWithinLimits};
ghost use Rattle.fy_types.specs.Paths.{paths as paths_in_type};
ghost use Rattle.fy_types.specs.Reading.{plain_paths, plain_type, plain_types, types_from};
ghost use Rattle.fy_phrase.specs.Reads.{reads, reads_parts};
ghost use Rattle.fy_phrase.specs.Tree as tree;
ghost use Rattle.fy_derive.specs.Atoms.{cell_type};
ghost use Rattle.fy_derive.specs.Least.{visits, visits_of_all, visits_under};
ghost use Rattle.fy_least.specs.Counts.{PassLimits, SomeTooLarge};
ghost use Rattle.fy_least.specs.Limits.{forms};
ghost use Rattle.fy_least.specs.Many.{AreFound, AreFoundUnder};
ghost use Rattle.fy_least.specs.Scopes.{scope_forms};
ghost use Rattle.fy_least.specs.Visited.{IsFound};

use crate::bound::Bound;
use crate::error::LeastError;
use crate::forms::{
    application, conditional, definition, field, merge, recursion, selection, variable,
};
use crate::found::Found;
use crate::many::{abstraction, case};
use crate::rules::{assignment, axiom, binary, command, with_one, with_two};
use crate::scope::{Scope, written_at};
use crate::sequence::sequence_form;
use fy_base::{BinOp, OutOfMemory, Place, PutKind, UnOp};
use fy_derive::{
    acceptor_atom, data_atom, datum_atom, demand_of, operand_atom, put_atom, unary_atom,
};
use fy_memo::{Form, Memo};
use fy_order::one_end;
use fy_phrase::{DataTy, Parts, Phrase};
use fy_types::{Atom, ElemList, Name, Path, Paths, Ty, TyList};
use std::alloc::Global;

/// What is found of a phrase, where the variables have the paths of the scope.
#[cycle(least)]
pub(crate) fn found_in(
    alloc: Global,
    p: &Phrase,
    scope: &Scope<'_, '_>,
    memo: &mut Memo,
) -> Result<Found, LeastError>
    ensures ok { IfOk result (IsFound (scope_forms scope.now) (reads p.now)) }
    ensures large { IsErrOf result LeastError.TypeTooLarge →
        (m : ℕ) → PassLimits (visits m (scope_forms scope.now) (reads p.now)) }
{
    match p {
        Phrase::Var(number, at) => variable(alloc, &*scope, *number, *at),
        Phrase::Lit(datum, at) => axiom(alloc, datum_atom(*datum), *at),
        Phrase::Unary(op, part, at) => found_in_unary(alloc, *op, part, *at, &*scope, &mut *memo),
        Phrase::Binary(op, left, right, at) => {
            found_in_binary(alloc, *op, left, right, *at, &*scope, &mut *memo)
        }
        Phrase::Cond(test, first, second, at) => {
            found_in_conditional(alloc, test, first, second, *at, &*scope, &mut *memo)
        }
        Phrase::Case(index, parts, at) => found_in_case(
            alloc, index, parts, *at, &*scope, &mut *memo,
        ),
        Phrase::Lam(_, types, body, at) => found_in_abstraction(
            alloc, types, body, *at, &*scope, &mut *memo,
        ),
        Phrase::App(procedure, argument, at) => {
            found_in_application(alloc, procedure, argument, *at, &*scope, &mut *memo)
        }
        Phrase::Field(name, part, at) => found_in_field(
            alloc, *name, part, *at, &*scope, &mut *memo,
        ),
        Phrase::Sel(part, name, at) => found_in_selection(
            alloc, part, *name, *at, &*scope, &mut *memo,
        ),
        Phrase::Merge(left, right, at) => found_in_merge(
            alloc, left, right, *at, &*scope, &mut *memo,
        ),
        Phrase::LetIn(_, defined, body, at) => {
            found_in_definition(alloc, defined, body, *at, &*scope, &mut *memo)
        }
        Phrase::Rec(_, ty, body, at) => found_in_recursion(
            alloc, ty, body, *at, &*scope, &mut *memo,
        ),
        Phrase::Skip(at) => axiom(alloc, Atom::Comm, *at),
        Phrase::Seq(first, second, at) => found_in_sequence(
            alloc, first, second, *at, &*scope, &mut *memo,
        ),
        Phrase::Assign(acceptor, value, at) => {
            found_in_assignment(alloc, acceptor, value, *at, &*scope, &mut *memo)
        }
        Phrase::WhileDo(test, body, at) => found_in_loop(
            alloc, test, body, *at, &*scope, &mut *memo,
        ),
        Phrase::Forever(body, at) => found_in_endless_loop(alloc, body, *at, &*scope, &mut *memo),
        Phrase::New(_, ty, first, body, at) => {
            found_in_cell(alloc, *ty, first, body, *at, &*scope, &mut *memo)
        }
        Phrase::Cells(_, count, body, at) => {
            found_in_cells(alloc, count, body, *at, &*scope, &mut *memo)
        }
        Phrase::Escape(_, body, at) => found_in_escape(alloc, body, *at, &*scope, &mut *memo),
        Phrase::Accept(_, ty, body, at) => found_in_acceptor(
            alloc, *ty, body, *at, &*scope, &mut *memo,
        ),
        Phrase::Put(kind, part, at) => found_in_output(
            alloc, *kind, part, *at, &*scope, &mut *memo,
        ),
        Phrase::Read(part, at) => found_in_input(alloc, part, *at, &*scope, &mut *memo),
        Phrase::Mark(_, at) => Ok(Found::none(alloc, *at, 0)),
    }
}

#[cycle(least)]
fn found_in_unary(
    alloc: Global,
    op: UnOp,
    part: &Phrase,
    at: Place,
    scope: &Scope<'_, '_>,
    memo: &mut Memo,
) -> Result<Found, LeastError>
    ensures ok { IfOk result (IsFound (scope_forms scope.now) (tree.unary op (reads part.now) at)) }
    ensures large { IsErrOf result LeastError.TypeTooLarge →
        (m : ℕ) → PassLimits (visits m (scope_forms scope.now) (tree.unary op (reads part.now) at)) }
{
    let part = found_in(alloc, part, &*scope, &mut *memo)?;
    with_one(alloc, part, operand_atom(op), unary_atom(op), at)
}

#[cycle(least)]
fn found_in_binary(
    alloc: Global,
    op: BinOp,
    left: &Phrase,
    right: &Phrase,
    at: Place,
    scope: &Scope<'_, '_>,
    memo: &mut Memo,
) -> Result<Found, LeastError>
    ensures ok { IfOk result (IsFound (scope_forms scope.now) (tree.binary op (reads left.now) (reads right.now) at)) }
    ensures large { IsErrOf result LeastError.TypeTooLarge →
        (m : ℕ) → PassLimits (visits m (scope_forms scope.now) (tree.binary op (reads left.now) (reads right.now) at)) }
{
    let left = found_in(alloc, left, &*scope, &mut *memo)?;
    let right = found_in(alloc, right, &*scope, &mut *memo)?;
    binary(alloc, op, (left, right), at)
}

#[cycle(least)]
fn found_in_conditional(
    alloc: Global,
    test: &Phrase,
    first: &Phrase,
    second: &Phrase,
    at: Place,
    scope: &Scope<'_, '_>,
    memo: &mut Memo,
) -> Result<Found, LeastError>
    ensures ok { IfOk result (IsFound (scope_forms scope.now) (tree.cond (reads test.now) (reads first.now) (reads second.now) at)) }
    ensures large { IsErrOf result LeastError.TypeTooLarge →
        (m : ℕ) → PassLimits (visits m (scope_forms scope.now) (tree.cond (reads test.now) (reads first.now) (reads second.now) at)) }
{
    let test = found_in(alloc, test, &*scope, &mut *memo)?;
    let first = found_in(alloc, first, &*scope, &mut *memo)?;
    let second = found_in(alloc, second, &*scope, &mut *memo)?;
    conditional(alloc, test, first, second, at, &mut *memo)
}

#[cycle(least)]
fn found_in_case(
    alloc: Global,
    index: &Phrase,
    parts: &Parts,
    at: Place,
    scope: &Scope<'_, '_>,
    memo: &mut Memo,
) -> Result<Found, LeastError>
    ensures ok { IfOk result (IsFound (scope_forms scope.now) (tree.case (reads index.now) (reads_parts parts.now) at)) }
    ensures large { IsErrOf result LeastError.TypeTooLarge →
        (m : ℕ) → PassLimits (visits m (scope_forms scope.now) (tree.case (reads index.now) (reads_parts parts.now) at)) }
{
    let index = found_in(alloc, index, &*scope, &mut *memo)?;
    let parts = found_in_each(alloc, parts, &*scope, &mut *memo)?;
    case(alloc, index, parts, at, &mut *memo)
}

#[cycle(least)]
fn found_in_abstraction(
    alloc: Global,
    types: &TyList,
    body: &Phrase,
    at: Place,
    scope: &Scope<'_, '_>,
    memo: &mut Memo,
) -> Result<Found, LeastError>
    ensures ok { (d : ℕ) → IfOk result (IsFound (scope_forms scope.now) (tree.lam d (plain_types types.now) (reads body.now) at)) }
    ensures large { (d : ℕ) → IsErrOf result LeastError.TypeTooLarge →
        (m : ℕ) → PassLimits (visits m (scope_forms scope.now) (tree.lam d (plain_types types.now) (reads body.now) at)) }
{
    let types = types.as_slice();
    let bodies = found_under(alloc, types, body, at, &*scope, &mut *memo)?;
    abstraction(alloc, types, bodies, at, &mut *memo)
}

#[cycle(least)]
fn found_in_application(
    alloc: Global,
    procedure: &Phrase,
    argument: &Phrase,
    at: Place,
    scope: &Scope<'_, '_>,
    memo: &mut Memo,
) -> Result<Found, LeastError>
    ensures ok { IfOk result (IsFound (scope_forms scope.now) (tree.app (reads procedure.now) (reads argument.now) at)) }
    ensures large { IsErrOf result LeastError.TypeTooLarge →
        (m : ℕ) → PassLimits (visits m (scope_forms scope.now) (tree.app (reads procedure.now) (reads argument.now) at)) }
{
    let procedure = found_in(alloc, procedure, &*scope, &mut *memo)?;
    let argument = found_in(alloc, argument, &*scope, &mut *memo)?;
    application(alloc, procedure, argument, at, &mut *memo)
}

#[cycle(least)]
fn found_in_field(
    alloc: Global,
    name: Name,
    part: &Phrase,
    at: Place,
    scope: &Scope<'_, '_>,
    memo: &mut Memo,
) -> Result<Found, LeastError>
    ensures ok { IfOk result (IsFound (scope_forms scope.now) (tree.field name (reads part.now) at)) }
    ensures large { IsErrOf result LeastError.TypeTooLarge →
        (m : ℕ) → PassLimits (visits m (scope_forms scope.now) (tree.field name (reads part.now) at)) }
{
    let part = found_in(alloc, part, &*scope, &mut *memo)?;
    field(alloc, name, part, at)
}

#[cycle(least)]
fn found_in_selection(
    alloc: Global,
    part: &Phrase,
    name: Name,
    at: Place,
    scope: &Scope<'_, '_>,
    memo: &mut Memo,
) -> Result<Found, LeastError>
    ensures ok { IfOk result (IsFound (scope_forms scope.now) (tree.sel (reads part.now) name at)) }
    ensures large { IsErrOf result LeastError.TypeTooLarge →
        (m : ℕ) → PassLimits (visits m (scope_forms scope.now) (tree.sel (reads part.now) name at)) }
{
    let part = found_in(alloc, part, &*scope, &mut *memo)?;
    selection(alloc, part, name, at, &mut *memo)
}

#[cycle(least)]
fn found_in_merge(
    alloc: Global,
    left: &Phrase,
    right: &Phrase,
    at: Place,
    scope: &Scope<'_, '_>,
    memo: &mut Memo,
) -> Result<Found, LeastError>
    ensures ok { IfOk result (IsFound (scope_forms scope.now) (tree.merge (reads left.now) (reads right.now) at)) }
    ensures large { IsErrOf result LeastError.TypeTooLarge →
        (m : ℕ) → PassLimits (visits m (scope_forms scope.now) (tree.merge (reads left.now) (reads right.now) at)) }
{
    let demand = demand_of(right);
    let left = found_in(alloc, left, &*scope, &mut *memo)?;
    let right = found_in(alloc, right, &*scope, &mut *memo)?;
    merge(alloc, left, right, demand, at, &mut *memo)
}

#[cycle(least)]
fn found_in_definition(
    alloc: Global,
    defined: &Phrase,
    body: &Phrase,
    at: Place,
    scope: &Scope<'_, '_>,
    memo: &mut Memo,
) -> Result<Found, LeastError>
    ensures ok { (d : ℕ) → IfOk result (IsFound (scope_forms scope.now) (tree.let_in d (reads defined.now) (reads body.now) at)) }
    ensures large { (d : ℕ) → IsErrOf result LeastError.TypeTooLarge →
        (m : ℕ) → PassLimits (visits m (scope_forms scope.now) (tree.let_in d (reads defined.now) (reads body.now) at)) }
{
    let defined = found_in(alloc, defined, &*scope, &mut *memo)?;
    let bound = Bound::of_distinct(&defined.paths);
    let body = found_in(alloc, body, &Scope::Under(&bound, &*scope), &mut *memo)?;
    definition(alloc, defined, body, at, &mut *memo)
}

#[cycle(least)]
fn found_in_recursion(
    alloc: Global,
    ty: &Ty,
    body: &Phrase,
    at: Place,
    scope: &Scope<'_, '_>,
    memo: &mut Memo,
) -> Result<Found, LeastError>
    ensures ok { (d : ℕ) → IfOk result (IsFound (scope_forms scope.now) (tree.rec d (plain_type ty.now) (reads body.now) at)) }
    ensures large { (d : ℕ) → IsErrOf result LeastError.TypeTooLarge →
        (m : ℕ) → PassLimits (visits m (scope_forms scope.now) (tree.rec d (plain_type ty.now) (reads body.now) at)) }
{
    match written_at(&*scope, at, 0, ty) {
        Some(form) => found_in_fixed(alloc, ty, form, body, at, &*scope, &mut *memo),
        None => {
            let form = Form::of(alloc, ty)?;
            found_in_fixed(alloc, ty, &form, body, at, &*scope, &mut *memo)
        }
    }
}

// What is found of a recursion whose type has the form.
#[cycle(least)]
fn found_in_fixed(
    alloc: Global,
    ty: &Ty,
    form: &Form,
    body: &Phrase,
    at: Place,
    scope: &Scope<'_, '_>,
    memo: &mut Memo,
) -> Result<Found, LeastError>
    requires form { plain_paths form.now.paths ≡ paths_in_type (plain_type ty.now) }
    requires within { IsWithinLimits (paths_in_type (plain_type ty.now)) }
    ensures ok { (d : ℕ) → IfOk result (IsFound (scope_forms scope.now) (tree.rec d (plain_type ty.now) (reads body.now) at)) }
    ensures large { (d : ℕ) → IsErrOf result LeastError.TypeTooLarge →
        (m : ℕ) → PassLimits (visits m (scope_forms scope.now) (tree.rec d (plain_type ty.now) (reads body.now) at)) }
{
    let bound = Bound::of_form(form);
    let body = found_in(alloc, body, &Scope::Under(&bound, &*scope), &mut *memo)?;
    recursion(alloc, ty, form, body, at)
}

#[cycle(least)]
fn found_in_sequence(
    alloc: Global,
    first: &Phrase,
    second: &Phrase,
    at: Place,
    scope: &Scope<'_, '_>,
    memo: &mut Memo,
) -> Result<Found, LeastError>
    ensures ok { IfOk result (IsFound (scope_forms scope.now) (tree.seq (reads first.now) (reads second.now) at)) }
    ensures large { IsErrOf result LeastError.TypeTooLarge →
        (m : ℕ) → PassLimits (visits m (scope_forms scope.now) (tree.seq (reads first.now) (reads second.now) at)) }
{
    let first = found_in(alloc, first, &*scope, &mut *memo)?;
    let second = found_in(alloc, second, &*scope, &mut *memo)?;
    command(alloc, (first, second), Atom::Comm, at)
}

#[cycle(least)]
fn found_in_assignment(
    alloc: Global,
    acceptor: &Phrase,
    value: &Phrase,
    at: Place,
    scope: &Scope<'_, '_>,
    memo: &mut Memo,
) -> Result<Found, LeastError>
    ensures ok { IfOk result (IsFound (scope_forms scope.now) (tree.assign (reads acceptor.now) (reads value.now) at)) }
    ensures large { IsErrOf result LeastError.TypeTooLarge →
        (m : ℕ) → PassLimits (visits m (scope_forms scope.now) (tree.assign (reads acceptor.now) (reads value.now) at)) }
{
    let acceptor = found_in(alloc, acceptor, &*scope, &mut *memo)?;
    let value = found_in(alloc, value, &*scope, &mut *memo)?;
    assignment(alloc, (acceptor, value), at)
}

#[cycle(least)]
fn found_in_loop(
    alloc: Global,
    test: &Phrase,
    body: &Phrase,
    at: Place,
    scope: &Scope<'_, '_>,
    memo: &mut Memo,
) -> Result<Found, LeastError>
    ensures ok { IfOk result (IsFound (scope_forms scope.now) (tree.while_do (reads test.now) (reads body.now) at)) }
    ensures large { IsErrOf result LeastError.TypeTooLarge →
        (m : ℕ) → PassLimits (visits m (scope_forms scope.now) (tree.while_do (reads test.now) (reads body.now) at)) }
{
    let test = found_in(alloc, test, &*scope, &mut *memo)?;
    let body = found_in(alloc, body, &*scope, &mut *memo)?;
    with_two(
        alloc,
        (test, body),
        (Atom::Bool, Atom::Comm),
        Atom::Comm,
        at,
    )
}

#[cycle(least)]
fn found_in_endless_loop(
    alloc: Global,
    body: &Phrase,
    at: Place,
    scope: &Scope<'_, '_>,
    memo: &mut Memo,
) -> Result<Found, LeastError>
    ensures ok { IfOk result (IsFound (scope_forms scope.now) (tree.forever (reads body.now) at)) }
    ensures large { IsErrOf result LeastError.TypeTooLarge →
        (m : ℕ) → PassLimits (visits m (scope_forms scope.now) (tree.forever (reads body.now) at)) }
{
    let body = found_in(alloc, body, &*scope, &mut *memo)?;
    with_one(alloc, body, Atom::Comm, Atom::Compl, at)
}

#[cycle(least)]
fn found_in_cell(
    alloc: Global,
    ty: DataTy,
    first: &Phrase,
    body: &Phrase,
    at: Place,
    scope: &Scope<'_, '_>,
    memo: &mut Memo,
) -> Result<Found, LeastError>
    ensures ok { (d : ℕ) → IfOk result (IsFound (scope_forms scope.now) (tree.new d ty (reads first.now) (reads body.now) at)) }
    ensures large { (d : ℕ) → IsErrOf result LeastError.TypeTooLarge →
        (m : ℕ) → PassLimits (visits m (scope_forms scope.now) (tree.new d ty (reads first.now) (reads body.now) at)) }
{
    let first = found_in(alloc, first, &*scope, &mut *memo)?;
    let cell = cell_form(alloc, ty)?;
    let bound = Bound::of_distinct(&cell);
    let body = found_in(alloc, body, &Scope::Under(&bound, &*scope), &mut *memo)?;
    command(alloc, (first, body), data_atom(ty), at)
}

#[cycle(least)]
fn found_in_cells(
    alloc: Global,
    count: &Phrase,
    body: &Phrase,
    at: Place,
    scope: &Scope<'_, '_>,
    memo: &mut Memo,
) -> Result<Found, LeastError>
    ensures ok { (d : ℕ) → IfOk result (IsFound (scope_forms scope.now) (tree.cells d (reads count.now) (reads body.now) at)) }
    ensures large { (d : ℕ) → IsErrOf result LeastError.TypeTooLarge →
        (m : ℕ) → PassLimits (visits m (scope_forms scope.now) (tree.cells d (reads count.now) (reads body.now) at)) }
{
    let count = found_in(alloc, count, &*scope, &mut *memo)?;
    let sequence = sequence_form(alloc)?;
    let bound = Bound::of_distinct(&sequence);
    let body = found_in(alloc, body, &Scope::Under(&bound, &*scope), &mut *memo)?;
    command(alloc, (count, body), Atom::Int, at)
}

#[cycle(least)]
fn found_in_escape(
    alloc: Global,
    body: &Phrase,
    at: Place,
    scope: &Scope<'_, '_>,
    memo: &mut Memo,
) -> Result<Found, LeastError>
    ensures ok { (d : ℕ) → IfOk result (IsFound (scope_forms scope.now) (tree.escape d (reads body.now) at)) }
    ensures large { (d : ℕ) → IsErrOf result LeastError.TypeTooLarge →
        (m : ℕ) → PassLimits (visits m (scope_forms scope.now) (tree.escape d (reads body.now) at)) }
{
    let end = one_end(alloc, Atom::Compl)?;
    let bound = Bound::of_distinct(&end);
    let body = found_in(alloc, body, &Scope::Under(&bound, &*scope), &mut *memo)?;
    with_one(alloc, body, Atom::Comm, Atom::Comm, at)
}

#[cycle(least)]
fn found_in_acceptor(
    alloc: Global,
    ty: DataTy,
    body: &Phrase,
    at: Place,
    scope: &Scope<'_, '_>,
    memo: &mut Memo,
) -> Result<Found, LeastError>
    ensures ok { (d : ℕ) → IfOk result (IsFound (scope_forms scope.now) (tree.accept d ty (reads body.now) at)) }
    ensures large { (d : ℕ) → IsErrOf result LeastError.TypeTooLarge →
        (m : ℕ) → PassLimits (visits m (scope_forms scope.now) (tree.accept d ty (reads body.now) at)) }
{
    let value = one_end(alloc, data_atom(ty))?;
    let bound = Bound::of_distinct(&value);
    let body = found_in(alloc, body, &Scope::Under(&bound, &*scope), &mut *memo)?;
    with_one(alloc, body, Atom::Comm, acceptor_atom(ty), at)
}

#[cycle(least)]
fn found_in_output(
    alloc: Global,
    kind: PutKind,
    part: &Phrase,
    at: Place,
    scope: &Scope<'_, '_>,
    memo: &mut Memo,
) -> Result<Found, LeastError>
    ensures ok { IfOk result (IsFound (scope_forms scope.now) (tree.put kind (reads part.now) at)) }
    ensures large { IsErrOf result LeastError.TypeTooLarge →
        (m : ℕ) → PassLimits (visits m (scope_forms scope.now) (tree.put kind (reads part.now) at)) }
{
    let part = found_in(alloc, part, &*scope, &mut *memo)?;
    with_one(alloc, part, put_atom(kind), Atom::Comm, at)
}

#[cycle(least)]
fn found_in_input(
    alloc: Global,
    part: &Phrase,
    at: Place,
    scope: &Scope<'_, '_>,
    memo: &mut Memo,
) -> Result<Found, LeastError>
    ensures ok { IfOk result (IsFound (scope_forms scope.now) (tree.read (reads part.now) at)) }
    ensures large { IsErrOf result LeastError.TypeTooLarge →
        (m : ℕ) → PassLimits (visits m (scope_forms scope.now) (tree.read (reads part.now) at)) }
{
    let part = found_in(alloc, part, &*scope, &mut *memo)?;
    with_one(alloc, part, Atom::IntAcc, Atom::Comm, at)
}

// What is found of each part of a case.
#[cycle(least)]
fn found_in_each(
    alloc: Global,
    parts: &Parts,
    scope: &Scope<'_, '_>,
    memo: &mut Memo,
) -> Result<Vec<Found>, LeastError>
    ensures ok { IfOk result (λ v. AreFound (scope_forms scope.now) (reads_parts parts.now) v.items) }
    ensures large { IsErrOf result LeastError.TypeTooLarge →
        (m : ℕ) → PassLimits (visits_of_all m (scope_forms scope.now) (reads_parts parts.now)) }
{
    let mut made = Vec::new(alloc);
    for part in parts.as_slice() {
        made.push(found_in(alloc, part, &*scope, &mut *memo)?)?;
    }
    Ok(made)
}

// What is found of an abstraction's body under each alternative.
#[cycle(least)]
fn found_under(
    alloc: Global,
    alternatives: &[Ty],
    body: &Phrase,
    at: Place,
    scope: &Scope<'_, '_>,
    memo: &mut Memo,
) -> Result<Vec<Found>, LeastError>
    ensures ok { IfOk result
        (λ v. AreFoundUnder (scope_forms scope.now) (reads body.now)
        (types_from (map plain_type alternatives.now)) v.items) }
    ensures large { IsErrOf result LeastError.TypeTooLarge →
        SomeTooLarge (forms (types_from (map plain_type alternatives.now)))
        ⊎ ((m : ℕ) → PassLimits (visits_under (types_from (map plain_type alternatives.now))
        (λ D. visits m (D ∷ scope_forms scope.now) (reads body.now)))) }
{
    let mut made = Vec::new(alloc);
    for ty in alternatives {
        let form = written_at(&*scope, at, made.len(), ty);
        made.push(found_with(alloc, ty, form, body, &*scope, &mut *memo)?)?;
    }
    Ok(made)
}

// What is found of a phrase in which a variable of the type is bound. The type's form may be given.
#[cycle(least)]
fn found_with(
    alloc: Global,
    ty: &Ty,
    form: Option<&Form>,
    body: &Phrase,
    scope: &Scope<'_, '_>,
    memo: &mut Memo,
) -> Result<Found, LeastError>
    requires form { IfSome form (λ form. plain_paths form.now.paths ≡ paths_in_type (plain_type ty.now)) }
    requires within { OnSome form (IsWithinLimits (paths_in_type (plain_type ty.now))) }
    ensures ok { IfOk result (IsFound (paths_in_type (plain_type ty.now) ∷ scope_forms scope.now) (reads body.now)) }
    ensures within { OnOk result (IsWithinLimits (paths_in_type (plain_type ty.now))) }
    ensures large { IsErrOf result LeastError.TypeTooLarge → IsTooLarge (paths_in_type (plain_type ty.now))
        ⊎ ((m : ℕ) → PassLimits (visits m (paths_in_type (plain_type ty.now) ∷ scope_forms scope.now) (reads body.now))) }
{
    match form {
        Some(form) => {
            let bound = Bound::of_form(form);
            found_in(alloc, body, &Scope::Under(&bound, &*scope), &mut *memo)
        }
        None => {
            let form = Form::of(alloc, ty)?;
            let bound = Bound::of_form(&form);
            found_in(alloc, body, &Scope::Under(&bound, &*scope), &mut *memo)
        }
    }
}

// The paths of a cell's variable.
fn cell_form(alloc: Global, ty: DataTy) -> Result<Paths, OutOfMemory>
    ensures { IfOk result (λ made. plain_paths made ≡ paths_in_type (cell_type ty)) }
{
    let mut paths = Paths::new(alloc);
    paths.push(Path {
        elems: ElemList::new(alloc),
        end: data_atom(ty),
    })?;
    paths.push(Path {
        elems: ElemList::new(alloc),
        end: acceptor_atom(ty),
    })?;
    Ok(paths)
}
