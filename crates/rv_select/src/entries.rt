//! The labels of entries.

ghost use Rattle.std.specs.Prelude.{◌≡◌, ◌+◌, [], ◌∷◌, ◌++◌, map, IfOk, OnOk};
ghost use Rattle.rv_operators.specs.Operators.{binary_label, unary_label};
ghost use Rattle.rv_select.specs.Numbers.{first_operator, fixed_entries, label_of};
ghost use Rattle.rv_select.specs.Blocks.{binary_entries, unary_entries};
ghost use Rattle.rv_select.specs.Emission.{entries_at};
ghost use Rattle.rv_select.specs.Program.{word_code};

use crate::fixed::{
    COUNT_LABEL, DATUM_LABEL, END_LABEL, FIRST_OPERATOR, INDEX_READ_LABEL, INDEX_WRITE_LABEL,
    LEAVE_LABEL, LENGTH_LABEL, POP_LABEL, PUT_BOOL_LABEL, PUT_CHAR_LABEL, PUT_INT_LABEL,
    READ_ELEMENT_LABEL, READ_LABEL, START_LABEL, WRITE_ELEMENT_LABEL, WRITE_LABEL,
};
use crate::numbers::Numbers;
use crate::sites::Site;
use fy_base::{BinOp, OutOfMemory, UnOp};
use pe_code::{PeInsn, Purpose};
use rv_operators::{label_of_binary, label_of_unary};
use std::alloc::Global;

/// The labels of all entries of code, in order.
pub fn entry_labels(alloc: Global, numbers: &Numbers<'_>) -> Result<Vec<u32>, OutOfMemory>
    ensures { IfOk result (λ labels. labels.items ≡ (word_code numbers.now).entries) }
{
    let mut labels = fixed_labels(alloc)?;
    for (address, item) in numbers.code().items.as_slice().iter().enumerate() {
        let site = Site {
            numbers,
            address: address as u32,
            depth: item.depth,
        };
        add_entries(&mut labels, &site, &item.insn)?;
    }
    Ok(labels)
}

// Those of the entries that every program has.
fn fixed_labels(alloc: Global) -> Result<Vec<u32>, OutOfMemory>
    ensures { IfOk result (λ labels. labels.items ≡ fixed_entries) }
{
    let labels = [
        START_LABEL,
        END_LABEL,
        DATUM_LABEL,
        READ_LABEL,
        WRITE_LABEL,
        LEAVE_LABEL,
        POP_LABEL,
        PUT_INT_LABEL,
        PUT_CHAR_LABEL,
        PUT_BOOL_LABEL,
        READ_ELEMENT_LABEL,
        WRITE_ELEMENT_LABEL,
        LENGTH_LABEL,
        INDEX_READ_LABEL,
        INDEX_WRITE_LABEL,
    ];
    Ok(labels.to_vec(alloc)?)
}

fn add_entries(labels: &mut Vec<u32>, site: &Site<'_, '_>, insn: &PeInsn) -> Result<(), OutOfMemory>
    ensures { OnOk result (labels.new.items ≡ labels.old.items ++ entries_at site.now insn.now) }
{
    labels.push(site.label(0))?;
    match insn {
        PeInsn::Op1(op, _) => add_unary(labels, site, *op),
        PeInsn::Op2(op, _, _) => add_binary(labels, site, *op),
        PeInsn::Case(_, parts) => add_parts(labels, site, parts.as_slice()),
        PeInsn::While(_, _) => add_both(labels, site.label(1), site.label(2)),
        PeInsn::Cells(_, _) => {
            add_both(labels, COUNT_LABEL, site.label(1))?;
            add_both(labels, POP_LABEL, site.label(2))
        }
        PeInsn::Cond(_, _, _)
        | PeInsn::Seq(_, _)
        | PeInsn::Assign(_, _)
        | PeInsn::Loop(_)
        | PeInsn::New(_, _)
        | PeInsn::EvalFor(_, Purpose::Repeat(_)) => add_one(labels, site.label(1)),
        _ => Ok(()),
    }
}

// The operator's, and the one of its fault.
fn add_unary(labels: &mut Vec<u32>, site: &Site<'_, '_>, op: UnOp) -> Result<(), OutOfMemory>
    ensures { OnOk result (labels.new.items ≡ labels.old.items ++ unary_label first_operator op ∷ unary_entries site.now.numbers.now site.now.address site.now.depth op) }
{
    labels.push(label_of_unary(FIRST_OPERATOR, op))?;
    match op {
        UnOp::Neg | UnOp::Chr => add_one(labels, site.label(1)),
        UnOp::Not | UnOp::Ord => Ok(()),
    }
}

// The one of the left operand's context, the operator's, which `and` and `or` don't have, and those
// of its faults.
fn add_binary(labels: &mut Vec<u32>, site: &Site<'_, '_>, op: BinOp) -> Result<(), OutOfMemory>
    ensures { OnOk result (labels.new.items ≡ labels.old.items ++ (label_of site.now.numbers.now site.now.address + 1) ∷ binary_entries site.now.numbers.now site.now.address site.now.depth op) }
{
    labels.push(site.label(1))?;
    let label = label_of_binary(FIRST_OPERATOR, op);
    match op {
        BinOp::And | BinOp::Or => Ok(()),
        BinOp::Add | BinOp::Sub | BinOp::Mul | BinOp::Rem => add_both(labels, label, site.label(2)),
        BinOp::Div => {
            add_one(labels, label)?;
            add_both(labels, site.label(2), site.label(3))
        }
        _ => add_one(labels, label),
    }
}

// The one of the index's context, and those of the parts.
fn add_parts(labels: &mut Vec<u32>, site: &Site<'_, '_>, parts: &[u32]) -> Result<(), OutOfMemory>
    ensures { OnOk result (labels.new.items ≡ labels.old.items ++ (label_of site.now.numbers.now site.now.address + 1) ∷ map (label_of site.now.numbers.now) parts.now) }
{
    labels.push(site.label(1))?;
    for part in parts {
        labels.push(site.start(*part).label)?;
    }
    Ok(())
}

fn add_one(labels: &mut Vec<u32>, label: u32) -> Result<(), OutOfMemory>
    ensures { OnOk result (labels.new.items ≡ labels.old.items ++ label ∷ []) }
{
    labels.push(label)?;
    Ok(())
}

fn add_both(labels: &mut Vec<u32>, first: u32, second: u32) -> Result<(), OutOfMemory>
    ensures { OnOk result (labels.new.items ≡ labels.old.items ++ first ∷ second ∷ []) }
{
    labels.extend_from_slice(&[first, second])?;
    Ok(())
}
