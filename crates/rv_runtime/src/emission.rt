//! The items of the routines.

ghost use Rattle.std.specs.Prelude.{◌≡◌, ◌≤◌, ◌++◌, IfOk, OnErr, OnOk};
ghost use Rattle.rv_flow.specs.Emission.{Extends};
ghost use Rattle.rv_flow.specs.Lowering.{block_items, blocks_items};
ghost use Rattle.rv_runtime.specs.Emission.{AppendsCopied};
ghost use Rattle.rv_runtime.specs.Routines.{copy_display_block, copy_few_block, exhausted_block, fault_block, find_power_block, make_frame_block, put_digits_block, put_int_block, put_magnitude_block, routine_blocks, text_block};

use crate::labels::{
    COPY_DISPLAY, COPY_FEW, EXHAUSTED, FIND_POWER, GO, MAKE_FRAME, MEET, PUT_DIGITS, PUT_FALSE,
    PUT_INT, PUT_MAGNITUDE, PUT_TRUE,
};
use fy_base::{FaultKind, OutOfMemory};
use rv_asm::Item;
use rv_flow::{lower, lower_all, lower_block};
use rv_insn::{BranchOp, ImmOp, RegOp};
use rv_word::Micro;
use rv_word::Register::{Datum, First, Frame, Second, Third, Top, Zero};
use std::alloc::Global;

/// The items of the routines: a block for each label from `EXHAUSTED` up to `FIRST_FREE`.
pub fn routines(alloc: Global) -> Result<Vec<Item>, OutOfMemory>
    ensures { IfOk result (λ items. items.items ≡ blocks_items 0 0 EXHAUSTED routine_blocks) }
{
    let mut items = Vec::new(alloc);
    add_exhausted(&mut items)?;
    add_text(&mut items, PUT_TRUE, b"true")?;
    add_text(&mut items, PUT_FALSE, b"false")?;
    add_put_int(&mut items)?;
    add_put_magnitude(&mut items)?;
    add_find_power(&mut items)?;
    add_put_digits(&mut items)?;
    add_make_frame(&mut items)?;
    add_copy_display(&mut items)?;
    add_copy_few(&mut items)?;
    Ok(items)
}

/// Appends the block of a fault of a kind at the place with a number. After a refusal what was there
/// still begins the items.
pub fn add_fault(
    items: &mut Vec<Item>,
    label: u32,
    kind: FaultKind,
    place: u32,
) -> Result<(), OutOfMemory>
    ensures ok { OnOk result (items.new.items ≡ items.old.items ++ block_items 0 0 label (fault_block kind place)) }
    ensures err { OnErr result (Extends items.old.items items.new.items) }
{
    lower_block(items, 0, 0, label, &[Micro::Fault(kind, place)])
}

fn add_exhausted(items: &mut Vec<Item>) -> Result<(), OutOfMemory>
    ensures { OnOk result (items.new.items ≡ items.old.items ++ block_items 0 0 EXHAUSTED exhausted_block) }
{
    lower_block(items, 0, 0, EXHAUSTED, &[Micro::Exhaust])
}

fn add_text(items: &mut Vec<Item>, label: u32, text: &[u8]) -> Result<(), OutOfMemory>
    ensures { OnOk result (items.new.items ≡ items.old.items ++ block_items 0 0 label (text_block text.now)) }
{
    items.push(Item::Mark(label))?;
    for byte in text {
        lower(items, 0, 0, &Micro::Set(Second, *byte as u64))?;
        lower(items, 0, 0, &Micro::Put(Second))?;
    }
    lower(items, 0, 0, &Micro::Jump(MEET))
}

fn add_put_int(items: &mut Vec<Item>) -> Result<(), OutOfMemory>
    ensures { OnOk result (items.new.items ≡ items.old.items ++ block_items 0 0 PUT_INT put_int_block) }
{
    let micros = [
        Micro::Test(BranchOp::Bge, Datum, Zero, PUT_MAGNITUDE),
        Micro::Set(Second, b'-' as u64),
        Micro::Put(Second),
        Micro::Alu(RegOp::Sub, Datum, Zero, Datum),
        Micro::Jump(PUT_MAGNITUDE),
    ];
    lower_block(items, 0, 0, PUT_INT, &micros)
}

fn add_put_magnitude(items: &mut Vec<Item>) -> Result<(), OutOfMemory>
    ensures { OnOk result (items.new.items ≡ items.old.items ++ block_items 0 0 PUT_MAGNITUDE put_magnitude_block) }
{
    let micros = [
        Micro::Set(First, 1),
        Micro::Set(Third, 10),
        Micro::Alu(RegOp::Divu, Second, Datum, Third),
        Micro::Jump(FIND_POWER),
    ];
    lower_block(items, 0, 0, PUT_MAGNITUDE, &micros)
}

fn add_find_power(items: &mut Vec<Item>) -> Result<(), OutOfMemory>
    ensures { OnOk result (items.new.items ≡ items.old.items ++ block_items 0 0 FIND_POWER find_power_block) }
{
    let micros = [
        Micro::Test(BranchOp::Bltu, Second, First, PUT_DIGITS),
        Micro::Alu(RegOp::Mul, First, First, Third),
        Micro::Jump(FIND_POWER),
    ];
    lower_block(items, 0, 0, FIND_POWER, &micros)
}

fn add_put_digits(items: &mut Vec<Item>) -> Result<(), OutOfMemory>
    ensures { OnOk result (items.new.items ≡ items.old.items ++ block_items 0 0 PUT_DIGITS put_digits_block) }
{
    let micros = [
        Micro::Alu(RegOp::Divu, Second, Datum, First),
        Micro::Imm(ImmOp::Addi, Second, Second, b'0' as i16),
        Micro::Put(Second),
        Micro::Alu(RegOp::Remu, Datum, Datum, First),
        Micro::Alu(RegOp::Divu, First, First, Third),
        Micro::Test(BranchOp::Bne, First, Zero, PUT_DIGITS),
        Micro::Jump(MEET),
    ];
    lower_block(items, 0, 0, PUT_DIGITS, &micros)
}

fn add_make_frame(items: &mut Vec<Item>) -> Result<(), OutOfMemory>
    ensures { OnOk result (items.new.items ≡ items.old.items ++ block_items 0 0 MAKE_FRAME make_frame_block) }
{
    let micros = [
        Micro::Window(Top, 4),
        Micro::Save(Top, 3, Frame),
        Micro::Alu(RegOp::Add, Second, Top, Third),
        Micro::Imm(ImmOp::Addi, Third, Frame, 24),
        Micro::Imm(ImmOp::Addi, Frame, Top, 0),
        Micro::Imm(ImmOp::Addi, Top, Top, 32),
        Micro::Test(BranchOp::Bne, Top, Second, COPY_DISPLAY),
        Micro::Jump(GO),
    ];
    lower_block(items, 0, 0, MAKE_FRAME, &micros)
}

fn add_copy_display(items: &mut Vec<Item>) -> Result<(), OutOfMemory>
    ensures { OnOk result (items.new.items ≡ items.old.items ++ block_items 0 0 COPY_DISPLAY copy_display_block) }
{
    items.push(Item::Mark(COPY_DISPLAY))?;
    let first = [
        Micro::Alu(RegOp::Sub, First, Second, Top),
        Micro::Imm(ImmOp::Sltiu, First, First, 64),
        Micro::Test(BranchOp::Bne, First, Zero, COPY_FEW),
        Micro::Window(Third, 8),
        Micro::Window(Top, 8),
    ];
    lower_all(items, 0, 0, &first)?;
    add_copied(items, 8)?;
    let last = [
        Micro::Imm(ImmOp::Addi, Third, Third, 64),
        Micro::Imm(ImmOp::Addi, Top, Top, 64),
        Micro::Test(BranchOp::Bne, Top, Second, COPY_DISPLAY),
        Micro::Jump(GO),
    ];
    lower_all(items, 0, 0, &last)
}

fn add_copy_few(items: &mut Vec<Item>) -> Result<(), OutOfMemory>
    ensures { OnOk result (items.new.items ≡ items.old.items ++ block_items 0 0 COPY_FEW copy_few_block) }
{
    items.push(Item::Mark(COPY_FEW))?;
    let first = [Micro::Window(Third, 4), Micro::Window(Top, 4)];
    lower_all(items, 0, 0, &first)?;
    add_copied(items, 4)?;
    let last = [Micro::Imm(ImmOp::Addi, Top, Top, 32), Micro::Jump(GO)];
    lower_all(items, 0, 0, &last)
}

// Copies so many words from `Third` to `Top`.
fn add_copied(items: &mut Vec<Item>, count: u16) -> Result<(), OutOfMemory>
    requires { count ≤ 256 }
    ensures { OnOk result (AppendsCopied count items.old.items items.new.items) }
{
    for k in 0..count {
        lower(items, 0, 0, &Micro::Get(First, Third, k))?;
        lower(items, 0, 0, &Micro::Save(Top, k, First))?;
    }
    Ok(())
}
