//! What the types of premises have to be.

ghost use Rattle.std.specs.Prelude.{◌≡◌, ◌<◌, IfOk, OnOk, IfSome, option_map};
ghost use Rattle.fy_types.specs.Reading.{plain_type};
ghost use Rattle.fy_types.specs.Types.{atom as atom_type};
ghost use Rattle.fy_derive.specs.Rules.{
  all_same as all_same_types,
  applied as applied_type,
  are_operands as are_operand_types,
  chosen as chosen_type,
  command_behind as command_type,
  fits_assignment as assignment_fits,
  fits_operator as operator_fits,
  is_assignment as is_assignment_types,
  is_atom as is_atom_type,
  picked_type,
  provided,
  same_type,
  selected as selected_type,
};
ghost use Rattle.fy_derive.specs.Shown.{total, shown, all_shown, Extends, AreIn};

use crate::atoms::{acceptor_atom, data_atom, takes};
use crate::node::TypeNode;
use crate::reading::number_of_type;
use crate::table::TypeTable;
use fy_base::{BinOp, OutOfMemory};
use fy_phrase::DataTy;
use fy_types::{Atom, Name, Ty};
use std::alloc::Global;

/// Whether the number is that of an atom.
#[tactic(auto, using(crate::proofs::RuleLemmas::rule_rules))]
pub fn is_atom(table: &TypeTable, number: usize, atom: Atom) -> bool
    requires { number < total table.now }
    ensures { result ≡ is_atom_type atom (shown table.now number) }
{
    match table.node(number) {
        TypeNode::Atom(a) => a == atom,
        _ => false,
    }
}

/// The atom's number, if the test is passed.
#[tactic(auto, using(crate::proofs::RuleLemmas::rule_rules))]
pub fn provided_atom(
    table: &mut TypeTable,
    fits: bool,
    atom: Atom,
) -> Result<Option<usize>, OutOfMemory>
    ensures shown { IfOk result (λ o. option_map (shown table.new) o ≡ provided fits (atom_type atom)) }
    ensures within { IfOk result (λ o. IfSome o (λ k. k < total table.new)) }
    ensures extends { OnOk result (Extends table.old table.new) }
{
    if !fits {
        return Ok(None);
    }
    let number = table.number(TypeNode::Atom(atom))?;
    Ok(Some(number))
}

/// Whether an operator takes operands of these types.
#[tactic(auto, using(crate::proofs::RuleLemmas::rule_rules))]
pub fn fits_operator(table: &TypeTable, op: BinOp, left: usize, right: usize) -> bool
    requires left { left < total table.now }
    requires right { right < total table.now }
    ensures { result ≡ operator_fits op (shown table.now left) (shown table.now right) }
{
    are_operands(table, op, DataTy::Int, left, right)
        || are_operands(table, op, DataTy::Bool, left, right)
        || are_operands(table, op, DataTy::Char, left, right)
}

fn are_operands(table: &TypeTable, op: BinOp, ty: DataTy, left: usize, right: usize) -> bool
    requires left { left < total table.now }
    requires right { right < total table.now }
    ensures { result ≡ are_operand_types op ty (shown table.now left) (shown table.now right) }
{
    takes(op, ty) && is_atom(table, left, data_atom(ty)) && is_atom(table, right, data_atom(ty))
}

/// Whether the types are those of an acceptor and of what it accepts.
pub fn fits_assignment(table: &TypeTable, target: usize, value: usize) -> bool
    requires target { target < total table.now }
    requires value { value < total table.now }
    ensures { result ≡ assignment_fits (shown table.now target) (shown table.now value) }
{
    is_assignment(table, DataTy::Int, target, value)
        || is_assignment(table, DataTy::Bool, target, value)
        || is_assignment(table, DataTy::Char, target, value)
}

fn is_assignment(table: &TypeTable, ty: DataTy, target: usize, value: usize) -> bool
    requires target { target < total table.now }
    requires value { value < total table.now }
    ensures { result ≡ is_assignment_types ty (shown table.now target) (shown table.now value) }
{
    is_atom(table, target, acceptor_atom(ty)) && is_atom(table, value, data_atom(ty))
}

/// The type of a conditional.
#[tactic(auto, using(crate::proofs::RuleLemmas::rule_rules))]
pub fn chosen(table: &TypeTable, test: usize, left: usize, right: usize) -> Option<usize>
    requires test { test < total table.now }
    requires left { left < total table.now }
    requires right { right < total table.now }
    ensures shown { option_map (shown table.now) result ≡ chosen_type (shown table.now test) (shown table.now left) (shown table.now right) }
    ensures within { IfSome result (λ k. k < total table.now) }
{
    if is_atom(table, test, Atom::Bool) && left == right {
        Some(left)
    } else {
        None
    }
}

/// The type of what an index picks, from the types of the index and of the parts.
#[tactic(auto, using(crate::proofs::RuleLemmas::rule_rules))]
pub fn picked(table: &TypeTable, done: &[usize]) -> Option<usize>
    requires { AreIn table.now done.now }
    ensures shown { option_map (shown table.now) result ≡ picked_type (all_shown table.now done.now) }
    ensures within { IfSome result (λ k. k < total table.now) }
{
    if done.len() < 2 {
        return None;
    }
    if is_atom(table, done[0], Atom::Int) && all_same(table, done[1], &done[2..]) {
        Some(done[1])
    } else {
        None
    }
}

fn all_same(table: &TypeTable, first: usize, others: &[usize]) -> bool
    requires first { first < total table.now }
    requires others { AreIn table.now others.now }
    ensures { result ≡ all_same_types (shown table.now first) (all_shown table.now others.now) }
{
    for other in others {
        if *other != first {
            return false;
        }
    }
    let _ = table;
    true
}

/// The type of a call, from the types of the procedure and of the argument.
#[tactic(auto, using(crate::proofs::RuleLemmas::rule_rules))]
pub fn applied(table: &TypeTable, procedure: usize, argument: usize) -> Option<usize>
    requires procedure { procedure < total table.now }
    requires argument { argument < total table.now }
    ensures shown { option_map (shown table.now) result ≡ applied_type (shown table.now procedure) (shown table.now argument) }
    ensures within { IfSome result (λ k. k < total table.now) }
{
    match table.node(procedure) {
        TypeNode::Arrow(domain, rest) => { if domain == argument { Some(rest) } else { None } }
        _ => None,
    }
}

/// The type of a selection.
#[tactic(auto, using(crate::proofs::RuleLemmas::rule_rules))]
pub fn selected(table: &TypeTable, whole: usize, name: Name) -> Option<usize>
    requires { whole < total table.now }
    ensures shown { option_map (shown table.now) result ≡ selected_type (shown table.now whole) name }
    ensures within { IfSome result (λ k. k < total table.now) }
{
    match table.node(whole) {
        TypeNode::Field(field, rest) => { if field == name { Some(rest) } else { None } }
        _ => None,
    }
}

/// The second type, if it is that of a command and the first one is the atom.
#[tactic(auto, using(crate::proofs::RuleLemmas::rule_rules))]
pub fn command_behind(table: &TypeTable, first: usize, atom: Atom, second: usize) -> Option<usize>
    requires first { first < total table.now }
    requires second { second < total table.now }
    ensures shown { option_map (shown table.now) result ≡ command_type atom (shown table.now first) (shown table.now second) }
    ensures within { IfSome result (λ k. k < total table.now) }
{
    let is_command = is_atom(table, second, Atom::Comm) || is_atom(table, second, Atom::Compl);
    if is_atom(table, first, atom) && is_command {
        Some(second)
    } else {
        None
    }
}

/// The written type's number, if the number is that of the type.
#[tactic(auto, using(crate::proofs::RuleLemmas::rule_rules))]
pub fn same_as_written(
    alloc: Global,
    table: &mut TypeTable,
    number: usize,
    ty: &Ty,
) -> Result<Option<usize>, OutOfMemory>
    requires { number < total table.old }
    ensures shown { IfOk result (λ o. option_map (shown table.new) o
        ≡ provided (same_type (shown table.old number) (plain_type ty.now)) (plain_type ty.now)) }
    ensures within { IfOk result (λ o. IfSome o (λ k. k < total table.new)) }
    ensures extends { OnOk result (Extends table.old table.new) }
{
    let written = number_of_type(alloc, table, ty)?;
    if number == written {
        Ok(Some(written))
    } else {
        Ok(None)
    }
}
