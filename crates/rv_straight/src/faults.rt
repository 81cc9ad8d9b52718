//! The faults of straight code: a block for each.

ghost use Rattle.std.specs.Prelude.{◌≡◌, ◌<◌, ◌≤◌, [], ◌∷◌, ◌++◌, length, slice_index_or, OnOk};
ghost use Rattle.rv_straight.specs.Straight.{binary_kinds, blocks_for, fault_blocks, kinds_of, part_blocks};

use fy_base::{BinOp, FaultKind, OutOfMemory, UnOp};
use pe_code::StraightPart;
use rv_word::Micro;

/// How many faults straight code has, all together.
pub fn fault_count(parts: &[StraightPart]) -> u32
    requires { length parts.now ≤ 16 }
    ensures is { result ≡ length (fault_blocks parts.now) }
    ensures few { result ≤ 32 }
{
    let mut count = 0;
    for part in parts {
        count += fault_count_of(*part);
    }
    count
}

/// How many faults a part has.
pub fn fault_count_of(part: StraightPart) -> u32
    ensures kinds { result ≡ length (kinds_of part) }
    ensures blocks { result ≡ length (part_blocks part) }
    ensures few { result ≤ 2 }
{
    match part {
        StraightPart::Literal(_) => 0,
        StraightPart::Cell(_) => 0,
        StraightPart::Unary(UnOp::Neg | UnOp::Chr, _) => 1,
        StraightPart::Unary(UnOp::Not | UnOp::Ord, _) => 0,
        StraightPart::Binary(BinOp::Div, _) => 2,
        StraightPart::Binary(BinOp::Add | BinOp::Sub | BinOp::Mul | BinOp::Rem, _) => 1,
        StraightPart::Binary(_, _) => 0,
    }
}

/// The block of the fault with a number.
pub fn add_fault_block(
    block: &mut Vec<Micro>,
    parts: &[StraightPart],
    number: u32,
) -> Result<(), OutOfMemory>
    requires { number < length (fault_blocks parts.now) }
    ensures { OnOk result (block.new.items ≡ block.old.items ++ slice_index_or (fault_blocks parts.now) number []) }
{
    let mut left = number;
    for part in parts {
        let count = fault_count_of(*part);
        if left < count {
            return add_fault_of(block, *part, left);
        }
        left -= count;
    }
    Ok(())
}

// That of a part.
fn add_fault_of(block: &mut Vec<Micro>, part: StraightPart, number: u32) -> Result<(), OutOfMemory>
    requires { number < length (part_blocks part) }
    ensures { OnOk result (block.new.items ≡ block.old.items ++ slice_index_or (part_blocks part) number []) }
{
    match part {
        StraightPart::Literal(_) => Ok(()),
        StraightPart::Cell(_) => Ok(()),
        StraightPart::Unary(UnOp::Neg, item) => add_fault(block, FaultKind::Overflow, item),
        StraightPart::Unary(_, item) => add_fault(block, FaultKind::Range, item),
        StraightPart::Binary(op, item) => add_binary_fault(block, op, item, number),
    }
}

fn add_binary_fault(
    block: &mut Vec<Micro>,
    op: BinOp,
    item: u32,
    number: u32,
) -> Result<(), OutOfMemory>
    requires { number < length (binary_kinds op) }
    ensures { OnOk result (block.new.items ≡ block.old.items ++ slice_index_or (blocks_for (binary_kinds op) item) number []) }
{
    match op {
        BinOp::Div => match number {
            0 => add_fault(block, FaultKind::Zero, item),
            _ => add_fault(block, FaultKind::Overflow, item),
        },
        BinOp::Rem => add_fault(block, FaultKind::Zero, item),
        _ => add_fault(block, FaultKind::Overflow, item),
    }
}

fn add_fault(block: &mut Vec<Micro>, kind: FaultKind, item: u32) -> Result<(), OutOfMemory>
    ensures { OnOk result (block.new.items ≡ block.old.items ++ Micro.Fault kind item ∷ []) }
{
    block.push(Micro::Fault(kind, item))?;
    Ok(())
}
