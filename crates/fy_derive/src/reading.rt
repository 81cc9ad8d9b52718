//! Types in a table.

ghost use Rattle.std.specs.Prelude.{◌≡◌, ◌<◌, IfOk, OnOk};
ghost use Rattle.fy_types.specs.Types.{meet};
ghost use Rattle.fy_types.specs.Reading.{plain_type, plain_types, types_from};
ghost use Rattle.fy_phrase.specs.Premises.{cell_type, given_type, sequence_type};
ghost use Rattle.fy_derive.specs.Judging.{in_scope};
ghost use Rattle.fy_derive.specs.Shown.{total, shown, all_shown, Extends, AreIn};

use crate::atoms::{acceptor_atom, data_atom};
use crate::node::TypeNode;
use crate::table::TypeTable;
use fy_base::OutOfMemory;
use fy_phrase::{DataTy, Given};
use fy_types::{Atom, Name, Ty, TyList};
use std::alloc::Global;

// The number of the name `len`.
const LENGTH: Name = 0;

/// The number of the meet of the types with the numbers.
pub fn number_of_meet(table: &mut TypeTable, members: &[usize]) -> Result<usize, OutOfMemory>
    requires { AreIn table.old members.now }
    ensures within { IfOk result (λ k. k < total table.new) }
    ensures stands { IfOk result (λ k. shown table.new k ≡ meet (types_from (all_shown table.old members.now))) }
    ensures extends { OnOk result (Extends table.old table.new) }
{
    let mut whole = table.number(TypeNode::NoTypes)?;
    let mut i = members.len();
    while i > 0 {
        i -= 1;
        whole = table.number(TypeNode::AndType(members[i], whole))?;
    }
    Ok(whole)
}

/// The numbers of the types of the variables in scope, the innermost first, from a list that has the
/// outermost first.
pub fn numbers_in_scope(
    alloc: Global,
    table: &mut TypeTable,
    context: &TyList,
) -> Result<Vec<usize>, OutOfMemory>
    ensures within { IfOk result (λ ks. AreIn table.new ks.items) }
    ensures stands { IfOk result (λ ks. all_shown table.new ks.items ≡ in_scope context.now) }
{
    let types = context.as_slice();
    let mut numbers = Vec::new(alloc);
    let mut i = types.len();
    while i > 0 {
        i -= 1;
        numbers.push(number_of_type(alloc, table, &types[i])?)?;
    }
    Ok(numbers)
}

/// The number of the type.
#[cycle(reading)]
pub fn number_of_type(alloc: Global, table: &mut TypeTable, ty: &Ty) -> Result<usize, OutOfMemory>
    ensures within { IfOk result (λ k. k < total table.new) }
    ensures stands { IfOk result (λ k. shown table.new k ≡ plain_type ty.now) }
    ensures extends { OnOk result (Extends table.old table.new) }
{
    match ty {
        Ty::Ns => table.number(TypeNode::Ns),
        Ty::Atom(atom) => table.number(TypeNode::Atom(*atom)),
        Ty::Arrow(domain, rest) => {
            let domain = number_of_type(alloc, table, domain)?;
            let rest = number_of_type(alloc, table, rest)?;
            table.number(TypeNode::Arrow(domain, rest))
        }
        Ty::Field(name, part) => {
            let part = number_of_type(alloc, table, part)?;
            table.number(TypeNode::Field(*name, part))
        }
        Ty::Meet(list) => {
            let members = numbers_of_types(alloc, table, list)?;
            number_of_meet(table, &members)
        }
    }
}

#[cycle(reading)]
fn numbers_of_types(
    alloc: Global,
    table: &mut TypeTable,
    list: &TyList,
) -> Result<Vec<usize>, OutOfMemory>
    ensures within { IfOk result (λ ks. AreIn table.new ks.items) }
    ensures stands { IfOk result (λ ks. types_from (all_shown table.new ks.items) ≡ plain_types list.now) }
    ensures extends { OnOk result (Extends table.old table.new) }
{
    let mut numbers = Vec::new(alloc);
    for ty in list.as_slice() {
        numbers.push(number_of_type(alloc, table, ty)?)?;
    }
    Ok(numbers)
}

/// The number of the type that a binder gives its variable.
pub fn number_of_given(
    alloc: Global,
    table: &mut TypeTable,
    given: Given<'_>,
) -> Result<usize, OutOfMemory>
    ensures within { IfOk result (λ k. k < total table.new) }
    ensures stands { IfOk result (λ k. shown table.new k ≡ given_type given.entry) }
    ensures extends { OnOk result (Extends table.old table.new) }
{
    match given {
        Given::Type(ty) => number_of_type(alloc, table, ty),
        Given::Cell(ty) => number_of_cell(table, ty),
        Given::Sequence => number_of_sequence(table),
        Given::Value(ty) => table.number(TypeNode::Atom(data_atom(ty))),
        Given::Exit => table.number(TypeNode::Atom(Atom::Compl)),
    }
}

// The number of the type of a cell's variable.
fn number_of_cell(table: &mut TypeTable, ty: DataTy) -> Result<usize, OutOfMemory>
    ensures within { IfOk result (λ k. k < total table.new) }
    ensures stands { IfOk result (λ k. shown table.new k ≡ cell_type ty) }
    ensures extends { OnOk result (Extends table.old table.new) }
{
    let value = table.number(TypeNode::Atom(data_atom(ty)))?;
    let acceptor = table.number(TypeNode::Atom(acceptor_atom(ty)))?;
    let end = table.number(TypeNode::NoTypes)?;
    let rest = table.number(TypeNode::AndType(acceptor, end))?;
    table.number(TypeNode::AndType(value, rest))
}

// The number of the type of a sequence's variable.
fn number_of_sequence(table: &mut TypeTable) -> Result<usize, OutOfMemory>
    ensures within { IfOk result (λ k. k < total table.new) }
    ensures stands { IfOk result (λ k. shown table.new k ≡ sequence_type) }
    ensures extends { OnOk result (Extends table.old table.new) }
{
    let cell = number_of_cell(table, DataTy::Int)?;
    let index = table.number(TypeNode::Atom(Atom::Int))?;
    let indexed = table.number(TypeNode::Arrow(index, cell))?;
    let length = table.number(TypeNode::Field(LENGTH, index))?;
    let end = table.number(TypeNode::NoTypes)?;
    let rest = table.number(TypeNode::AndType(length, end))?;
    table.number(TypeNode::AndType(indexed, rest))
}
