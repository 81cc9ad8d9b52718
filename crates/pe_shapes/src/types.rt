//! The shapes of written types.

ghost use Rattle.std.specs.Prelude.{◌≡◌, ◌<◌, [], ◌∷◌, IfOk, OnOk};
ghost use Rattle.fy_types.specs.Types.{meet};
ghost use Rattle.fy_types.specs.Reading.{plain_type, plain_types};
ghost use Rattle.fy_derive.specs.Shapes.{a_call, a_field, a_value, an_assignment, at_end, end_shape};
ghost use Rattle.fy_derive.specs.ShapeTables.{plain_end};
ghost use Rattle.fy_phrase.specs.Premises.{given_type};
ghost use Rattle.pe_shapes.specs.Shown.{shown, total, all_shown, Extends, AreIn};
ghost use Rattle.pe_shapes.specs.Standing.{AreMade};

use crate::error::ShapeError;
use crate::node::ShapeNode;
use crate::numbers::ShapeNumbers;
use crate::sets::{add_all, fronted, listed, single};
use fy_base::OutOfMemory;
use fy_phrase::{Given, ShapeElem, ShapeEnd};
use fy_types::{Atom, Name, Ty, TyList};
use indexmap::IndexSet;
use std::alloc::Global;

/// How many shapes may be asked for.
pub const MOST_SHAPES: usize = 256;

// The number of the name `len`.
const LENGTH: Name = 0;

fn end_of(atom: Atom) -> ShapeEnd
    ensures { plain_end result ≡ end_shape atom }
{
    match atom {
        Atom::Int => ShapeEnd::Value,
        Atom::Bool => ShapeEnd::Value,
        Atom::Char => ShapeEnd::Value,
        Atom::Comm => ShapeEnd::Run,
        Atom::Compl => ShapeEnd::Run,
        Atom::IntAcc => ShapeEnd::Assign,
        Atom::BoolAcc => ShapeEnd::Assign,
        Atom::CharAcc => ShapeEnd::Assign,
    }
}

/// The shapes of a type's paths. Where a type has more than 256, it is told at once.
#[cycle(types)]
pub fn shapes_of_type(
    alloc: Global,
    numbers: &mut ShapeNumbers,
    ty: &Ty,
) -> Result<Vec<usize>, ShapeError>
    ensures made { AreMade result numbers.new (plain_type ty.now) }
    ensures within { IfOk result (λ v. AreIn numbers.new v.items) }
    ensures extends { OnOk result (Extends numbers.old numbers.new) }
{
    match ty {
        Ty::Ns => Ok(Vec::new(alloc)),
        Ty::Atom(atom) => {
            let all = single(alloc, numbers, end_of(*atom))?;
            Ok(all)
        }
        Ty::Arrow(_, rest) => {
            let behind = shapes_of_type(alloc, numbers, rest)?;
            let all = fronted(alloc, numbers, ShapeElem::Call, &behind)?;
            Ok(all)
        }
        Ty::Field(name, part) => {
            let behind = shapes_of_type(alloc, numbers, part)?;
            let all = fronted(alloc, numbers, ShapeElem::Field(*name), &behind)?;
            Ok(all)
        }
        Ty::Meet(list) => shapes_of_types(alloc, numbers, list),
    }
}

#[cycle(types)]
fn shapes_of_types(
    alloc: Global,
    numbers: &mut ShapeNumbers,
    list: &TyList,
) -> Result<Vec<usize>, ShapeError>
    ensures made { AreMade result numbers.new (meet (plain_types list.now)) }
    ensures within { IfOk result (λ v. AreIn numbers.new v.items) }
    ensures extends { OnOk result (Extends numbers.old numbers.new) }
{
    let mut met = IndexSet::new(alloc);
    for ty in list.as_slice() {
        let set = shapes_of_type(alloc, numbers, ty)?;
        add_all(&mut met, &set)?;
        if met.len() > MOST_SHAPES {
            return Err(ShapeError::TooManyShapes);
        }
    }
    let all = listed(alloc, &met)?;
    Ok(all)
}

/// The shapes of the type that a binder gives its variable.
pub fn shapes_of_given(
    alloc: Global,
    numbers: &mut ShapeNumbers,
    given: Given<'_>,
) -> Result<Vec<usize>, ShapeError>
    ensures made { AreMade result numbers.new (given_type given.entry) }
    ensures within { IfOk result (λ v. AreIn numbers.new v.items) }
    ensures extends { OnOk result (Extends numbers.old numbers.new) }
{
    match given {
        Given::Type(ty) => shapes_of_type(alloc, numbers, ty),
        Given::Cell(_) => {
            let all = shapes_of_cell(alloc, numbers)?;
            Ok(all)
        }
        Given::Sequence => {
            let all = shapes_of_sequence(alloc, numbers)?;
            Ok(all)
        }
        Given::Value(_) => {
            let all = single(alloc, numbers, ShapeEnd::Value)?;
            Ok(all)
        }
        Given::Exit => {
            let all = single(alloc, numbers, ShapeEnd::Run)?;
            Ok(all)
        }
    }
}

// A cell is a value and an acceptor.
fn shapes_of_cell(alloc: Global, numbers: &mut ShapeNumbers) -> Result<Vec<usize>, OutOfMemory>
    ensures within { IfOk result (λ v. AreIn numbers.new v.items) }
    ensures shown { IfOk result (λ v. all_shown numbers.new v.items ≡ at_end a_value ∷ at_end an_assignment ∷ []) }
    ensures extends { OnOk result (Extends numbers.old numbers.new) }
{
    let mut all = single(alloc, numbers, ShapeEnd::Value)?;
    let number = numbers.number(ShapeNode::End(ShapeEnd::Assign))?;
    all.push(number)?;
    Ok(all)
}

// A sequence is a cell for each index, and its length.
fn shapes_of_sequence(alloc: Global, numbers: &mut ShapeNumbers) -> Result<Vec<usize>, OutOfMemory>
    ensures within { IfOk result (λ v. AreIn numbers.new v.items) }
    ensures shown { IfOk result (λ v. all_shown numbers.new v.items
        ≡ a_call (at_end a_value) ∷ a_call (at_end an_assignment) ∷ a_field 0 (at_end a_value) ∷ []) }
    ensures extends { OnOk result (Extends numbers.old numbers.new) }
{
    let cell = shapes_of_cell(alloc, numbers)?;
    let mut all = fronted(alloc, numbers, ShapeElem::Call, &cell)?;
    let length = number_of_length(numbers)?;
    all.push(length)?;
    Ok(all)
}

// The number of the length's shape.
fn number_of_length(numbers: &mut ShapeNumbers) -> Result<usize, OutOfMemory>
    ensures within { IfOk result (λ k. k < total numbers.new) }
    ensures stands { IfOk result (λ k. shown numbers.new k ≡ a_field 0 (at_end a_value)) }
    ensures extends { OnOk result (Extends numbers.old numbers.new) }
{
    let value = numbers.number(ShapeNode::End(ShapeEnd::Value))?;
    numbers.number(ShapeNode::Front(ShapeElem::Field(LENGTH), value))
}
