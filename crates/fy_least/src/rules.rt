//! Rules whose premises are atoms.

ghost use Rattle.std.specs.Prelude.{◌≡◌, ◌+◌, ◌<◌, ◌≤◌, false, true, IfOk, IsErrOf, MatchOption};
ghost use Rattle.fy_types.specs.Paths.{no_paths};
ghost use Rattle.fy_types.specs.Reading.{plain_paths};
ghost use Rattle.fy_derive.specs.Atoms.{binary_atom as binary_atom_of};
ghost use Rattle.fy_derive.specs.Derivations.{by_ns, no_derivations, rule};
ghost use Rattle.fy_derive.specs.Least.{
  has_assignment as has_assignment_of,
  has_operands as has_operands_of,
  if_passed,
  one_end as one_end_of,
  some_data,
};
ghost use Rattle.fy_derive.specs.Reading.{plain_derivation};
ghost use Rattle.fy_least.specs.Derived.{derived_if, rule_of, rule_of_both};
ghost use Rattle.fy_least.specs.Limits.{most_together};
ghost use Rattle.fy_least.specs.Rules.{
  IsAssigned,
  IsOperated,
  end_of_command,
  have_atoms,
  serves_assignment,
  serves_operator,
};
ghost use Rattle.fy_least.specs.Visited.{IsMade, IsRefused, as_atom, blame_at, has_atom};

use crate::error::LeastError;
use crate::found::{Found, both, to_atom};
use fy_base::{BinOp, OutOfMemory, Place};
use fy_derive::{Derivation, DerivationList, acceptor_atom, binary_atom, data_atom, takes};
use fy_order::{has, one_end};
use fy_phrase::DataTy;
use fy_types::{Atom, Paths};
use std::alloc::Global;

/// A rule without premises.
pub(crate) fn axiom(alloc: Global, gives: Atom, at: Place) -> Result<Found, LeastError>
    ensures made { IfOk result (λ f. IsMade (one_end_of gives) at 0 f) }
    ensures derived { IfOk result (λ f. plain_derivation f.derivation ≡ rule no_derivations) }
    ensures large { IsErrOf result LeastError.TypeTooLarge → IsRefused (one_end_of gives) 0 }
{
    let derivation = Derivation::Rule(DerivationList::new(alloc));
    Found::new(one_end(alloc, gives)?, derivation, at, 0)
}

/// A rule with one premise, which is to have the atom.
pub(crate) fn with_one(
    alloc: Global,
    part: Found,
    wants: Atom,
    gives: Atom,
    at: Place,
) -> Result<Found, LeastError>
    requires { part.total ≤ most_together }
    ensures made { IfOk result
        (λ f. IsMade (if_passed (has_atom part wants) (one_end_of gives)) (blame_at part at) part.total f) }
    ensures derived { IfOk result
        (λ f. plain_derivation f.derivation ≡ derived_if (has_atom part wants) (rule_of (as_atom wants part))) }
    ensures large { IsErrOf result LeastError.TypeTooLarge →
        IsRefused (if_passed (has_atom part wants) (one_end_of gives)) part.total }
{
    let blame = part.blame_or(at);
    if !has(&part.paths, wants) {
        return Ok(Found::none(alloc, blame, part.total));
    }
    let derivation = rule_of_one(alloc, to_atom(alloc, wants, part.derivation)?)?;
    Found::new(one_end(alloc, gives)?, derivation, blame, part.total)
}

/// A rule with two premises, which are to have the atoms.
pub(crate) fn with_two(
    alloc: Global,
    parts: (Found, Found),
    wants: (Atom, Atom),
    gives: Atom,
    at: Place,
) -> Result<Found, LeastError>
    ensures made { IfOk result
        (λ f. IsMade (if_passed (have_atoms parts.0 parts.1 wants.0 wants.1) (one_end_of gives))
        (blame_at parts.0 (blame_at parts.1 at)) (parts.0.total + parts.1.total) f) }
    ensures derived { IfOk result
        (λ f. plain_derivation f.derivation ≡ derived_if (have_atoms parts.0 parts.1 wants.0 wants.1)
        (rule_of_both (as_atom wants.0 parts.0) (as_atom wants.1 parts.1))) }
    ensures large { IsErrOf result LeastError.TypeTooLarge →
        IsRefused (if_passed (have_atoms parts.0 parts.1 wants.0 wants.1) (one_end_of gives))
        (parts.0.total + parts.1.total) }
{
    let (first, second) = parts;
    let blame = first.blame_or(second.blame_or(at));
    let total = both(first.total, second.total)?;
    if !has(&first.paths, wants.0) || !has(&second.paths, wants.1) {
        return Ok(Found::none(alloc, blame, total));
    }
    let derivation = rule_of_two(
        alloc,
        to_atom(alloc, wants.0, first.derivation)?,
        to_atom(alloc, wants.1, second.derivation)?,
    )?;
    Found::new(one_end(alloc, gives)?, derivation, blame, total)
}

/// The rule of a form over one premise.
pub(crate) fn rule_of_one(alloc: Global, first: Derivation) -> Result<Derivation, OutOfMemory>
    ensures { IfOk result (λ d. plain_derivation d ≡ rule_of (plain_derivation first)) }
{
    let mut premises = DerivationList::new(alloc);
    premises.push(first)?;
    Ok(Derivation::Rule(premises))
}

/// The rule of a form over two premises.
pub(crate) fn rule_of_two(
    alloc: Global,
    first: Derivation,
    second: Derivation,
) -> Result<Derivation, OutOfMemory>
    ensures { IfOk result
        (λ d. plain_derivation d ≡ rule_of_both (plain_derivation first) (plain_derivation second)) }
{
    let mut premises = DerivationList::new(alloc);
    premises.push(first)?;
    premises.push(second)?;
    Ok(Derivation::Rule(premises))
}

/// A command behind a phrase that is to have the atom.
pub(crate) fn command(
    alloc: Global,
    parts: (Found, Found),
    wants: Atom,
    at: Place,
) -> Result<Found, LeastError>
    ensures made { IfOk result
        (λ f. IsMade (if_passed (have_atoms parts.0 parts.1 wants (end_of_command parts.1)) (one_end_of (end_of_command parts.1)))
        (blame_at parts.0 (blame_at parts.1 at)) (parts.0.total + parts.1.total) f) }
    ensures derived { IfOk result
        (λ f. plain_derivation f.derivation ≡ derived_if (have_atoms parts.0 parts.1 wants (end_of_command parts.1))
        (rule_of_both (as_atom wants parts.0) (as_atom (end_of_command parts.1) parts.1))) }
    ensures large { IsErrOf result LeastError.TypeTooLarge →
        IsRefused (if_passed (have_atoms parts.0 parts.1 wants (end_of_command parts.1)) (one_end_of (end_of_command parts.1)))
        (parts.0.total + parts.1.total) }
{
    let gives = command_end(&parts.1);
    with_two(alloc, parts, (wants, gives), gives, at)
}

// How a command ends: `compl` where it has that.
fn command_end(part: &Found) -> Atom
    ensures { result ≡ end_of_command part.now }
{
    if has(&part.paths, Atom::Compl) {
        Atom::Compl
    } else {
        Atom::Comm
    }
}

/// An operator between two phrases.
pub(crate) fn binary(
    alloc: Global,
    op: BinOp,
    parts: (Found, Found),
    at: Place,
) -> Result<Found, LeastError>
    ensures made { IfOk result
        (λ f. IsMade (if_passed (serves_operator op parts.0 parts.1) (one_end_of (binary_atom_of op)))
        (blame_at parts.0 (blame_at parts.1 at)) (parts.0.total + parts.1.total) f) }
    ensures derived { IfOk result
        (λ f. IsOperated op parts.0 parts.1 (plain_derivation f.derivation)) }
    ensures large { IsErrOf result LeastError.TypeTooLarge →
        IsRefused (if_passed (serves_operator op parts.0 parts.1) (one_end_of (binary_atom_of op)))
        (parts.0.total + parts.1.total) }
{
    match operand_type(op, &parts.0.paths, &parts.1.paths) {
        Some(ty) => {
            let wants = data_atom(ty);
            with_two(alloc, parts, (wants, wants), binary_atom(op), at)
        }
        None => nothing(alloc, parts, at),
    }
}

/// An assignment.
pub(crate) fn assignment(
    alloc: Global,
    parts: (Found, Found),
    at: Place,
) -> Result<Found, LeastError>
    ensures made { IfOk result
        (λ f. IsMade (if_passed (serves_assignment parts.0 parts.1) (one_end_of Atom.Comm))
        (blame_at parts.0 (blame_at parts.1 at)) (parts.0.total + parts.1.total) f) }
    ensures derived { IfOk result
        (λ f. IsAssigned parts.0 parts.1 (plain_derivation f.derivation)) }
    ensures large { IsErrOf result LeastError.TypeTooLarge →
        IsRefused (if_passed (serves_assignment parts.0 parts.1) (one_end_of Atom.Comm))
        (parts.0.total + parts.1.total) }
{
    match assigned_type(&parts.0.paths, &parts.1.paths) {
        Some(ty) => {
            let wants = (acceptor_atom(ty), data_atom(ty));
            with_two(alloc, parts, wants, Atom::Comm, at)
        }
        None => nothing(alloc, parts, at),
    }
}

// A phrase of two parts whose rule doesn't hold.
fn nothing(alloc: Global, parts: (Found, Found), at: Place) -> Result<Found, LeastError>
    ensures made { IfOk result
        (λ f. IsMade no_paths (blame_at parts.0 (blame_at parts.1 at)) (parts.0.total + parts.1.total) f) }
    ensures derived { IfOk result (λ f. plain_derivation f.derivation ≡ by_ns) }
    ensures large { IsErrOf result LeastError.TypeTooLarge → most_together < parts.0.total + parts.1.total }
{
    let (first, second) = parts;
    let blame = first.blame_or(second.blame_or(at));
    let total = both(first.total, second.total)?;
    Ok(Found::none(alloc, blame, total))
}

// The first type of data that the operator takes and that both operands have.
fn operand_type(op: BinOp, left: &Paths, right: &Paths) -> Option<DataTy>
    ensures { MatchOption result
        (some_data (has_operands_of op (plain_paths left.now) (plain_paths right.now)) ≡ false)
        (λ ty. has_operands_of op (plain_paths left.now) (plain_paths right.now) ty ≡ true) }
{
    if has_operands(op, left, right, DataTy::Int) {
        Some(DataTy::Int)
    } else if has_operands(op, left, right, DataTy::Bool) {
        Some(DataTy::Bool)
    } else if has_operands(op, left, right, DataTy::Char) {
        Some(DataTy::Char)
    } else {
        None
    }
}

fn has_operands(op: BinOp, left: &Paths, right: &Paths, ty: DataTy) -> bool
    ensures { result ≡ has_operands_of op (plain_paths left.now) (plain_paths right.now) ty }
{
    takes(op, ty) && has(left, data_atom(ty)) && has(right, data_atom(ty))
}

// The first type of data that the first phrase takes and that the second has.
fn assigned_type(acceptor: &Paths, value: &Paths) -> Option<DataTy>
    ensures { MatchOption result
        (some_data (has_assignment_of (plain_paths acceptor.now) (plain_paths value.now)) ≡ false)
        (λ ty. has_assignment_of (plain_paths acceptor.now) (plain_paths value.now) ty ≡ true) }
{
    if has_assignment(acceptor, value, DataTy::Int) {
        Some(DataTy::Int)
    } else if has_assignment(acceptor, value, DataTy::Bool) {
        Some(DataTy::Bool)
    } else if has_assignment(acceptor, value, DataTy::Char) {
        Some(DataTy::Char)
    } else {
        None
    }
}

fn has_assignment(acceptor: &Paths, value: &Paths, ty: DataTy) -> bool
    ensures { result ≡ has_assignment_of (plain_paths acceptor.now) (plain_paths value.now) ty }
{
    has(acceptor, acceptor_atom(ty)) && has(value, data_atom(ty))
}
