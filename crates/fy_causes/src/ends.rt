//! Paths that rules give where their parts have the atoms that they take.

ghost use Rattle.std.specs.Prelude.{◌≡◌, IfOk};
ghost use Rattle.fy_types.specs.Reading.{plain_paths};
ghost use Rattle.fy_derive.specs.Least.{
  command_of as command_of_paths,
  has as has_of,
  has_assignment as has_assignment_of,
  has_operands as has_operands_of,
  if_passed,
  one_end as one_end_of,
  some_data,
};

use crate::found::no_path;
use fy_base::{BinOp, OutOfMemory};
use fy_derive::{acceptor_atom, data_atom, takes};
use fy_order::{has, one_end};
use fy_phrase::DataTy;
use fy_types::{Atom, Paths};
use std::alloc::Global;

/// The one path that ends in the atom, if the test is passed, else none.
pub(crate) fn end_if(alloc: Global, is_passed: bool, end: Atom) -> Result<Paths, OutOfMemory>
    ensures { IfOk result (λ made. plain_paths made ≡ if_passed is_passed (one_end_of end)) }
{
    if is_passed {
        one_end(alloc, end)
    } else {
        Ok(no_path(alloc))
    }
}

/// The paths of a command behind a phrase that is to have the atom.
pub(crate) fn command_behind(
    alloc: Global,
    first: &Paths,
    wants: Atom,
    second: &Paths,
) -> Result<Paths, OutOfMemory>
    ensures { IfOk result (λ made. plain_paths made
        ≡ if_passed (has_of (plain_paths first.now) wants) (command_of_paths (plain_paths second.now))) }
{
    if has(first, wants) {
        command_of(alloc, second)
    } else {
        Ok(no_path(alloc))
    }
}

// `compl` where the phrase has it, else `comm` where it has that.
fn command_of(alloc: Global, paths: &Paths) -> Result<Paths, OutOfMemory>
    ensures { IfOk result (λ made. plain_paths made ≡ command_of_paths (plain_paths paths.now)) }
{
    if has(paths, Atom::Compl) {
        one_end(alloc, Atom::Compl)
    } else {
        end_if(alloc, has(paths, Atom::Comm), Atom::Comm)
    }
}

/// Whether both operands have data of one type that the operator takes.
pub(crate) fn fit_operator(op: BinOp, left: &Paths, right: &Paths) -> bool
    ensures { result ≡ some_data (has_operands_of op (plain_paths left.now) (plain_paths right.now)) }
{
    has_operands(op, left, right, DataTy::Int)
        || (has_operands(op, left, right, DataTy::Bool)
            || has_operands(op, left, right, DataTy::Char))
}

fn has_operands(op: BinOp, left: &Paths, right: &Paths, ty: DataTy) -> bool
    ensures { result ≡ has_operands_of op (plain_paths left.now) (plain_paths right.now) ty }
{
    takes(op, ty) && (has(left, data_atom(ty)) && has(right, data_atom(ty)))
}

/// Whether the first phrase takes data of some type that the second one has.
pub(crate) fn fit_assignment(acceptor: &Paths, value: &Paths) -> bool
    ensures { result ≡ some_data (has_assignment_of (plain_paths acceptor.now) (plain_paths value.now)) }
{
    has_assignment(acceptor, value, DataTy::Int)
        || (has_assignment(acceptor, value, DataTy::Bool)
            || has_assignment(acceptor, value, DataTy::Char))
}

fn has_assignment(acceptor: &Paths, value: &Paths, ty: DataTy) -> bool
    ensures { result ≡ has_assignment_of (plain_paths acceptor.now) (plain_paths value.now) ty }
{
    has(acceptor, acceptor_atom(ty)) && has(value, data_atom(ty))
}
