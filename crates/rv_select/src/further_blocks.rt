//! The blocks of items behind their own: those of their contexts, and those of their faults.

ghost use Rattle.std.specs.Prelude.{◌≡◌, ◌+◌, ◌<◌, ◌≤◌, [], ◌∷◌, ◌++◌, slice_index_or, OnOk};
ghost use Rattle.rv_select.specs.Numbers.{binary_faults, block_count, meet};
ghost use Rattle.rv_select.specs.Blocks.{again_block, answer_frame, assign_block, binary_fault_blocks, blocks_of, case_block, if_block, left_block, new_block, then_block, while_block};
ghost use Rattle.rv_select.specs.Emission.{Adds};

use crate::fixed::{CELL_COLUMN, POP_ENTRY, POP_LABEL};
use crate::parts::{add_answer_frame, add_bind, add_open_frame, add_renew, word_of_entry};
use crate::sites::Site;
use fy_base::{BinOp, FaultKind, OutOfMemory, UnOp};
use pe_code::{PeInsn, Purpose};
use pe_frame::plan_frame;
use rv_insn::{BranchOp, RegOp, ShiftOp};
use rv_runtime::{EXHAUSTED, MEET};
use rv_straight::{add_fault_block, words_behind};
use rv_word::Micro;
use rv_word::Register::{self, Context, Datum, First, Frame, Top, Zero};

/// The block with a number, from 1 on, of an instruction.
pub fn add_further(
    block: &mut Vec<Micro>,
    site: &Site<'_, '_>,
    insn: &PeInsn,
    number: u32,
) -> Result<(), OutOfMemory>
    requires further { 1 ≤ number }
    requires inside { number < block_count insn.now }
    ensures { OnOk result (Adds site.now (λ code a d. slice_index_or (blocks_of code a d insn.now) number []) block.old.items block.new.items) }
{
    match insn {
        PeInsn::Op1(UnOp::Neg, _) => add_fault(block, site, FaultKind::Overflow),
        PeInsn::Op1(_, _) => add_fault(block, site, FaultKind::Range),
        PeInsn::Op2(op, _, y) => match number {
            1 => add_left(block, site, *op, *y),
            _ => add_binary_fault(block, site, *op, number - 2),
        },
        PeInsn::Cond(_, y, z) => add_if(block, site, *y, *z),
        PeInsn::Case(_, parts) => match number {
            1 => add_case(block, site, parts.len()),
            _ => add_fault(block, site, FaultKind::Range),
        },
        PeInsn::Seq(_, y) => add_then(block, site, *y),
        PeInsn::Assign(x, _) => add_assign(block, site, *x),
        PeInsn::While(_, y) => match number {
            1 => add_while(block, site, *y),
            _ => add_again(block, site),
        },
        PeInsn::Loop(_) => add_again(block, site),
        PeInsn::New(_, y) => add_new(block, site, *y),
        PeInsn::Cells(_, y) => match number {
            1 => add_bind(block, site.depth, site.start(*y)),
            _ => add_fault(block, site, FaultKind::Range),
        },
        PeInsn::Eval(parts) => add_fault_block(block, parts.as_slice(), number - 1),
        PeInsn::Set(_, parts) => add_fault_block(block, parts.as_slice(), number - 1),
        PeInsn::EvalFor(parts, Purpose::Repeat(_)) => match number {
            1 => add_again(block, site),
            _ => add_fault_block(block, parts.as_slice(), number - 2),
        },
        PeInsn::EvalFor(parts, _) => add_fault_block(block, parts.as_slice(), number - 1),
        _ => unreachable!(),
    }
}

// The fault of a kind, at the place of the item.
fn add_fault(
    block: &mut Vec<Micro>,
    site: &Site<'_, '_>,
    kind: FaultKind,
) -> Result<(), OutOfMemory>
    ensures { OnOk result (Adds site.now (λ code a d. Micro.Fault kind a ∷ []) block.old.items block.new.items) }
{
    block.push(Micro::Fault(kind, site.address))?;
    Ok(())
}

// The fault with a number of a binary operator.
fn add_binary_fault(
    block: &mut Vec<Micro>,
    site: &Site<'_, '_>,
    op: BinOp,
    number: u32,
) -> Result<(), OutOfMemory>
    requires { number < binary_faults op }
    ensures { OnOk result (Adds site.now (λ code a d. slice_index_or (binary_fault_blocks code a d op) number []) block.old.items block.new.items) }
{
    let kind = match op {
        BinOp::Div if number == 0 => FaultKind::Zero,
        BinOp::Rem => FaultKind::Zero,
        _ => FaultKind::Overflow,
    };
    add_fault(block, site, kind)
}

// The left operand's datum: of `and` and `or` it may decide, else the right operand is next.
fn add_left(
    block: &mut Vec<Micro>,
    site: &Site<'_, '_>,
    op: BinOp,
    right: u32,
) -> Result<(), OutOfMemory>
    ensures { OnOk result (Adds site.now (λ code a d. left_block code a d op right) block.old.items block.new.items) }
{
    let label = site.start(right).label;
    match op {
        BinOp::And => add_deciding(block, BranchOp::Beq, label),
        BinOp::Or => add_deciding(block, BranchOp::Bne, label),
        _ => {
            add_renew(
                block,
                &[
                    Micro::Save(Context, 2, Datum),
                    Micro::Set(First, word_of_entry(site.entry(2))),
                    Micro::Save(Context, 0, First),
                ],
            )?;
            block.push(Micro::Jump(label))?;
            Ok(())
        }
    }
}

// A left operand that decides where it compares so with 0, which is false.
fn add_deciding(block: &mut Vec<Micro>, op: BranchOp, label: u32) -> Result<(), OutOfMemory>
    ensures { OnOk result (block.new.items ≡ block.old.items ++ (answer_frame ++ (Micro.Test op Register.Datum Register.Zero meet ∷ Micro.Jump label ∷ []))) }
{
    add_answer_frame(block)?;
    block.extend_from_slice(&[Micro::Test(op, Datum, Zero, MEET), Micro::Jump(label)])?;
    Ok(())
}

fn add_if(block: &mut Vec<Micro>, site: &Site<'_, '_>, yes: u32, no: u32) -> Result<(), OutOfMemory>
    ensures { OnOk result (Adds site.now (λ code a d. if_block code a d yes no) block.old.items block.new.items) }
{
    add_answer_frame(block)?;
    block.extend_from_slice(&[
        Micro::Test(BranchOp::Beq, Datum, Zero, site.start(no).label),
        Micro::Jump(site.start(yes).label),
    ])?;
    Ok(())
}

// The entries of the parts stand one behind the other.
fn add_case(block: &mut Vec<Micro>, site: &Site<'_, '_>, count: usize) -> Result<(), OutOfMemory>
    ensures { OnOk result (Adds site.now (λ code a d. case_block code a d count) block.old.items block.new.items) }
{
    add_answer_frame(block)?;
    block.extend_from_slice(&[
        Micro::Set(First, count as u64),
        Micro::Test(BranchOp::Bgeu, Datum, First, site.label(2)),
        Micro::Shift(ShiftOp::Slli, Datum, Datum, 3),
        Micro::Set(First, word_of_entry(site.entry(2))),
        Micro::Alu(RegOp::Add, First, First, Datum),
        Micro::Enter(First),
    ])?;
    Ok(())
}

fn add_then(block: &mut Vec<Micro>, site: &Site<'_, '_>, next: u32) -> Result<(), OutOfMemory>
    ensures { OnOk result (Adds site.now (λ code a d. then_block code a d next) block.old.items block.new.items) }
{
    add_answer_frame(block)?;
    block.push(Micro::Jump(site.start(next).label))?;
    Ok(())
}

// The value is kept in an acceptor's context.
fn add_assign(block: &mut Vec<Micro>, site: &Site<'_, '_>, target: u32) -> Result<(), OutOfMemory>
    ensures { OnOk result (Adds site.now (λ code a d. assign_block code a d target) block.old.items block.new.items) }
{
    add_renew(block, &[Micro::Save(Context, 2, Datum)])?;
    block.push(Micro::Jump(site.start(target).label))?;
    Ok(())
}

fn add_while(block: &mut Vec<Micro>, site: &Site<'_, '_>, body: u32) -> Result<(), OutOfMemory>
    ensures { OnOk result (Adds site.now (λ code a d. while_block code a d body) block.old.items block.new.items) }
{
    block.push(Micro::Test(BranchOp::Beq, Datum, Zero, POP_LABEL))?;
    add_renew(
        block,
        &[
            Micro::Set(First, word_of_entry(site.entry(2))),
            Micro::Save(Context, 0, First),
        ],
    )?;
    block.push(Micro::Jump(site.start(body).label))?;
    Ok(())
}

// A loop again.
fn add_again(block: &mut Vec<Micro>, site: &Site<'_, '_>) -> Result<(), OutOfMemory>
    ensures { OnOk result (Adds site.now again_block block.old.items block.new.items) }
{
    add_answer_frame(block)?;
    block.push(Micro::Jump(site.start(site.address).label))?;
    Ok(())
}

// A cell that holds the datum, in whose context's place one is that a finished command answers.
fn add_new(block: &mut Vec<Micro>, site: &Site<'_, '_>, body: u32) -> Result<(), OutOfMemory>
    ensures { OnOk result (Adds site.now (λ code a d. new_block code a d body) block.old.items block.new.items) }
{
    block.extend_from_slice(&[
        words_behind(Top, Context, 4),
        Micro::Room(plan_frame(site.depth).words as u16, EXHAUSTED),
        Micro::Window(Context, 7),
        Micro::Get(Frame, Context, 2),
        Micro::Set(First, word_of_entry(POP_ENTRY)),
        Micro::Save(Context, 0, First),
        words_behind(Top, Context, 4),
    ])?;
    block.extend_from_slice(&[
        Micro::Set(First, CELL_COLUMN),
        Micro::Save(Top, 0, First),
        Micro::Save(Top, 1, Top),
        Micro::Save(Top, 2, Datum),
    ])?;
    add_open_frame(block, site.depth, site.start(body))
}
