//! The items of the operators.

ghost use Rattle.std.specs.Prelude.{◌≡◌, ◌+◌, ◌^◌, ◌≤◌, ◌++◌, IsTrue, OnErr, OnOk};
ghost use Rattle.rv_flow.specs.Emission.{Extends, are_near};
ghost use Rattle.rv_flow.specs.Lowering.{blocks_items};
ghost use Rattle.rv_operators.specs.Emission.{AddsBlock, AddsBlocks};
ghost use Rattle.rv_operators.specs.declared.labels.TheConstants.{OPERATOR_COUNT};
ghost use Rattle.rv_operators.specs.Operators.{binary_block, binary_label, by_minus_one, by_minus_one_block, equality_blocks, fault_block, fault_blocks, meet_operand, meet_operand_or_fault, meet_operands, meet_operands_or_fault, operator_blocks, order_blocks, quotient_blocks, sum_blocks, truth_blocks, unary_block, unary_blocks, unary_label};

use crate::labels::{OPERATOR_COUNT, label_of_binary, label_of_minus_one, label_of_unary};
use fy_base::{BinOp, OutOfMemory, UnOp};
use rv_asm::Item;
use rv_flow::{lower_all, lower_block};
use rv_insn::{BranchOp, ImmOp, RegOp, ShiftOp};
use rv_word::Micro;
use rv_word::Register::{Context, Datum, First, Second, Third, Top, Zero};

/// Appends the blocks of the operators, in code with so many entries. Their labels count up from
/// `first`, and `meet` is the block at which a datum meets the newest context. After a refusal what
/// was there still begins the items.
pub fn operators(
    items: &mut Vec<Item>,
    entries: u32,
    first: u32,
    meet: u32,
) -> Result<(), OutOfMemory>
    requires { first + OPERATOR_COUNT ≤ 2 ^ 32 }
    ensures ok { OnOk result (items.new.items ≡ items.old.items ++ blocks_items entries 0 first (operator_blocks first meet)) }
    ensures err { OnErr result (Extends items.old.items items.new.items) }
{
    let site = Site {
        entries,
        first,
        meet,
    };
    add_faults(items, site)?;
    add_unary(items, site)?;
    add_sums(items, site)?;
    add_quotients(items, site)?;
    add_equalities(items, site)?;
    add_orders(items, site)?;
    add_truths(items, site)
}

// The code in which the operators stand, and the labels by which they are named.
#[derive(Clone, Copy)]
struct Site {
    entries: u32,
    first: u32,
    meet: u32,
    ghost counted: { first + OPERATOR_COUNT ≤ 2 ^ 32 },
}

fn add_faults(items: &mut Vec<Item>, site: Site) -> Result<(), OutOfMemory>
    ensures ok { OnOk result (AddsBlocks site.entries site.first fault_blocks items.old.items items.new.items) }
    ensures err { OnErr result (Extends items.old.items items.new.items) }
{
    add_fault(items, site, site.first, 8)?;
    add_fault(items, site, site.first + 1, 16)
}

fn add_unary(items: &mut Vec<Item>, site: Site) -> Result<(), OutOfMemory>
    ensures ok { OnOk result (AddsBlocks site.entries (unary_label site.first UnOp.Neg) (unary_blocks site.first site.meet) items.old.items items.new.items) }
    ensures err { OnErr result (Extends items.old.items items.new.items) }
{
    add_negative(items, site)?;
    add_turned(items, site)?;
    add_number(items, site)?;
    add_character(items, site)
}

fn add_sums(items: &mut Vec<Item>, site: Site) -> Result<(), OutOfMemory>
    ensures ok { OnOk result (AddsBlocks site.entries (binary_label site.first BinOp.Add) (sum_blocks site.first site.meet) items.old.items items.new.items) }
    ensures err { OnErr result (Extends items.old.items items.new.items) }
{
    add_sum(items, site)?;
    add_difference(items, site)?;
    add_product(items, site)
}

fn add_quotients(items: &mut Vec<Item>, site: Site) -> Result<(), OutOfMemory>
    ensures ok { OnOk result (AddsBlocks site.entries (binary_label site.first BinOp.Div) (quotient_blocks site.first site.meet) items.old.items items.new.items) }
    ensures err { OnErr result (Extends items.old.items items.new.items) }
{
    add_quotient(items, site)?;
    add_by_minus_one(items, site)?;
    add_remainder(items, site)
}

fn add_equalities(items: &mut Vec<Item>, site: Site) -> Result<(), OutOfMemory>
    ensures ok { OnOk result (AddsBlocks site.entries (binary_label site.first BinOp.Eq) (equality_blocks site.first site.meet) items.old.items items.new.items) }
    ensures err { OnErr result (Extends items.old.items items.new.items) }
{
    add_equal(items, site)?;
    add_unequal(items, site)
}

fn add_orders(items: &mut Vec<Item>, site: Site) -> Result<(), OutOfMemory>
    ensures ok { OnOk result (AddsBlocks site.entries (binary_label site.first BinOp.Lt) (order_blocks site.first site.meet) items.old.items items.new.items) }
    ensures err { OnErr result (Extends items.old.items items.new.items) }
{
    add_less(items, site)?;
    add_at_most(items, site)?;
    add_greater(items, site)?;
    add_at_least(items, site)
}

fn add_truths(items: &mut Vec<Item>, site: Site) -> Result<(), OutOfMemory>
    ensures ok { OnOk result (AddsBlocks site.entries (binary_label site.first BinOp.And) (truth_blocks site.first site.meet) items.old.items items.new.items) }
    ensures err { OnErr result (Extends items.old.items items.new.items) }
{
    add_both(items, site)?;
    add_either(items, site)
}

// The jump to the entry that stands so many bytes behind that in `Third`.
fn add_fault(items: &mut Vec<Item>, site: Site, label: u32, bytes: i16) -> Result<(), OutOfMemory>
    ensures ok { OnOk result (AddsBlock site.entries label (fault_block bytes) items.old.items items.new.items) }
    ensures err { OnErr result (Extends items.old.items items.new.items) }
{
    let micros = [
        Micro::Imm(ImmOp::Addi, Third, Third, bytes),
        Micro::Enter(Third),
    ];
    lower_block(items, site.entries, 0, label, &micros)
}

fn add_negative(items: &mut Vec<Item>, site: Site) -> Result<(), OutOfMemory>
    ensures ok { OnOk result (AddsBlock site.entries (unary_label site.first UnOp.Neg) (unary_block site.first site.meet UnOp.Neg) items.old.items items.new.items) }
    ensures err { OnErr result (Extends items.old.items items.new.items) }
{
    let work = [
        Micro::Imm(ImmOp::Addi, First, Zero, 1),
        Micro::Shift(ShiftOp::Slli, First, First, 63),
        Micro::Test(BranchOp::Beq, Datum, First, site.first),
        Micro::Alu(RegOp::Sub, Datum, Zero, Datum),
        Micro::Jump(site.meet),
    ];
    add_one_or_fault(items, site, UnOp::Neg, &work)
}

fn add_turned(items: &mut Vec<Item>, site: Site) -> Result<(), OutOfMemory>
    ensures ok { OnOk result (AddsBlock site.entries (unary_label site.first UnOp.Not) (unary_block site.first site.meet UnOp.Not) items.old.items items.new.items) }
    ensures err { OnErr result (Extends items.old.items items.new.items) }
{
    let work = [
        Micro::Imm(ImmOp::Xori, Datum, Datum, 1),
        Micro::Jump(site.meet),
    ];
    add_one(items, site, UnOp::Not, &work)
}

fn add_number(items: &mut Vec<Item>, site: Site) -> Result<(), OutOfMemory>
    ensures ok { OnOk result (AddsBlock site.entries (unary_label site.first UnOp.Ord) (unary_block site.first site.meet UnOp.Ord) items.old.items items.new.items) }
    ensures err { OnErr result (Extends items.old.items items.new.items) }
{
    add_one(items, site, UnOp::Ord, &[Micro::Jump(site.meet)])
}

fn add_character(items: &mut Vec<Item>, site: Site) -> Result<(), OutOfMemory>
    ensures ok { OnOk result (AddsBlock site.entries (unary_label site.first UnOp.Chr) (unary_block site.first site.meet UnOp.Chr) items.old.items items.new.items) }
    ensures err { OnErr result (Extends items.old.items items.new.items) }
{
    let work = [
        Micro::Imm(ImmOp::Sltiu, First, Datum, 256),
        Micro::Test(BranchOp::Beq, First, Zero, site.first),
        Micro::Jump(site.meet),
    ];
    add_one_or_fault(items, site, UnOp::Chr, &work)
}

fn add_sum(items: &mut Vec<Item>, site: Site) -> Result<(), OutOfMemory>
    ensures ok { OnOk result (AddsBlock site.entries (binary_label site.first BinOp.Add) (binary_block site.first site.meet BinOp.Add) items.old.items items.new.items) }
    ensures err { OnErr result (Extends items.old.items items.new.items) }
{
    let work = [
        Micro::Alu(RegOp::Add, Second, First, Datum),
        Micro::Alu(RegOp::Slt, First, Second, First),
        Micro::Imm(ImmOp::Slti, Datum, Datum, 0),
        Micro::Test(BranchOp::Bne, First, Datum, site.first),
        Micro::Imm(ImmOp::Addi, Datum, Second, 0),
        Micro::Jump(site.meet),
    ];
    add_two_or_fault(items, site, BinOp::Add, &work)
}

fn add_difference(items: &mut Vec<Item>, site: Site) -> Result<(), OutOfMemory>
    ensures ok { OnOk result (AddsBlock site.entries (binary_label site.first BinOp.Sub) (binary_block site.first site.meet BinOp.Sub) items.old.items items.new.items) }
    ensures err { OnErr result (Extends items.old.items items.new.items) }
{
    let work = [
        Micro::Alu(RegOp::Sub, Second, First, Datum),
        Micro::Alu(RegOp::Slt, First, Second, First),
        Micro::Alu(RegOp::Slt, Datum, Zero, Datum),
        Micro::Test(BranchOp::Bne, First, Datum, site.first),
        Micro::Imm(ImmOp::Addi, Datum, Second, 0),
        Micro::Jump(site.meet),
    ];
    add_two_or_fault(items, site, BinOp::Sub, &work)
}

fn add_product(items: &mut Vec<Item>, site: Site) -> Result<(), OutOfMemory>
    ensures ok { OnOk result (AddsBlock site.entries (binary_label site.first BinOp.Mul) (binary_block site.first site.meet BinOp.Mul) items.old.items items.new.items) }
    ensures err { OnErr result (Extends items.old.items items.new.items) }
{
    let work = [
        Micro::Alu(RegOp::Mulh, Second, First, Datum),
        Micro::Alu(RegOp::Mul, Datum, First, Datum),
        Micro::Shift(ShiftOp::Srai, First, Datum, 63),
        Micro::Test(BranchOp::Bne, Second, First, site.first),
        Micro::Jump(site.meet),
    ];
    add_two_or_fault(items, site, BinOp::Mul, &work)
}

fn add_quotient(items: &mut Vec<Item>, site: Site) -> Result<(), OutOfMemory>
    ensures ok { OnOk result (AddsBlock site.entries (binary_label site.first BinOp.Div) (binary_block site.first site.meet BinOp.Div) items.old.items items.new.items) }
    ensures err { OnErr result (Extends items.old.items items.new.items) }
{
    let work = [
        Micro::Test(BranchOp::Beq, Datum, Zero, site.first),
        Micro::Alu(RegOp::Div, Second, First, Datum),
        Micro::Imm(ImmOp::Addi, Datum, Datum, 1),
        Micro::Test(BranchOp::Beq, Datum, Zero, label_of_minus_one(site.first)),
        Micro::Imm(ImmOp::Addi, Datum, Second, 0),
        Micro::Jump(site.meet),
    ];
    add_two_or_fault(items, site, BinOp::Div, &work)
}

fn add_by_minus_one(items: &mut Vec<Item>, site: Site) -> Result<(), OutOfMemory>
    ensures ok { OnOk result (AddsBlock site.entries (by_minus_one site.first) (by_minus_one_block site.first site.meet) items.old.items items.new.items) }
    ensures err { OnErr result (Extends items.old.items items.new.items) }
{
    let micros = [
        Micro::Imm(ImmOp::Addi, Datum, Zero, 1),
        Micro::Shift(ShiftOp::Slli, Datum, Datum, 63),
        Micro::Test(BranchOp::Beq, First, Datum, site.first + 1),
        Micro::Imm(ImmOp::Addi, Datum, Second, 0),
        Micro::Jump(site.meet),
    ];
    lower_block(
        items,
        site.entries,
        0,
        label_of_minus_one(site.first),
        &micros,
    )
}

fn add_remainder(items: &mut Vec<Item>, site: Site) -> Result<(), OutOfMemory>
    ensures ok { OnOk result (AddsBlock site.entries (binary_label site.first BinOp.Rem) (binary_block site.first site.meet BinOp.Rem) items.old.items items.new.items) }
    ensures err { OnErr result (Extends items.old.items items.new.items) }
{
    let work = [
        Micro::Test(BranchOp::Beq, Datum, Zero, site.first),
        Micro::Alu(RegOp::Rem, Datum, First, Datum),
        Micro::Jump(site.meet),
    ];
    add_two_or_fault(items, site, BinOp::Rem, &work)
}

fn add_equal(items: &mut Vec<Item>, site: Site) -> Result<(), OutOfMemory>
    ensures ok { OnOk result (AddsBlock site.entries (binary_label site.first BinOp.Eq) (binary_block site.first site.meet BinOp.Eq) items.old.items items.new.items) }
    ensures err { OnErr result (Extends items.old.items items.new.items) }
{
    let work = [
        Micro::Alu(RegOp::Sub, Second, First, Datum),
        Micro::Imm(ImmOp::Sltiu, Datum, Second, 1),
        Micro::Jump(site.meet),
    ];
    add_two(items, site, BinOp::Eq, &work)
}

fn add_unequal(items: &mut Vec<Item>, site: Site) -> Result<(), OutOfMemory>
    ensures ok { OnOk result (AddsBlock site.entries (binary_label site.first BinOp.Ne) (binary_block site.first site.meet BinOp.Ne) items.old.items items.new.items) }
    ensures err { OnErr result (Extends items.old.items items.new.items) }
{
    let work = [
        Micro::Alu(RegOp::Sub, Second, First, Datum),
        Micro::Alu(RegOp::Sltu, Datum, Zero, Second),
        Micro::Jump(site.meet),
    ];
    add_two(items, site, BinOp::Ne, &work)
}

fn add_less(items: &mut Vec<Item>, site: Site) -> Result<(), OutOfMemory>
    ensures ok { OnOk result (AddsBlock site.entries (binary_label site.first BinOp.Lt) (binary_block site.first site.meet BinOp.Lt) items.old.items items.new.items) }
    ensures err { OnErr result (Extends items.old.items items.new.items) }
{
    let work = [
        Micro::Alu(RegOp::Slt, Datum, First, Datum),
        Micro::Jump(site.meet),
    ];
    add_two(items, site, BinOp::Lt, &work)
}

fn add_at_most(items: &mut Vec<Item>, site: Site) -> Result<(), OutOfMemory>
    ensures ok { OnOk result (AddsBlock site.entries (binary_label site.first BinOp.Le) (binary_block site.first site.meet BinOp.Le) items.old.items items.new.items) }
    ensures err { OnErr result (Extends items.old.items items.new.items) }
{
    let work = [
        Micro::Alu(RegOp::Slt, Datum, Datum, First),
        Micro::Imm(ImmOp::Xori, Datum, Datum, 1),
        Micro::Jump(site.meet),
    ];
    add_two(items, site, BinOp::Le, &work)
}

fn add_greater(items: &mut Vec<Item>, site: Site) -> Result<(), OutOfMemory>
    ensures ok { OnOk result (AddsBlock site.entries (binary_label site.first BinOp.Gt) (binary_block site.first site.meet BinOp.Gt) items.old.items items.new.items) }
    ensures err { OnErr result (Extends items.old.items items.new.items) }
{
    let work = [
        Micro::Alu(RegOp::Slt, Datum, Datum, First),
        Micro::Jump(site.meet),
    ];
    add_two(items, site, BinOp::Gt, &work)
}

fn add_at_least(items: &mut Vec<Item>, site: Site) -> Result<(), OutOfMemory>
    ensures ok { OnOk result (AddsBlock site.entries (binary_label site.first BinOp.Ge) (binary_block site.first site.meet BinOp.Ge) items.old.items items.new.items) }
    ensures err { OnErr result (Extends items.old.items items.new.items) }
{
    let work = [
        Micro::Alu(RegOp::Slt, Datum, First, Datum),
        Micro::Imm(ImmOp::Xori, Datum, Datum, 1),
        Micro::Jump(site.meet),
    ];
    add_two(items, site, BinOp::Ge, &work)
}

fn add_both(items: &mut Vec<Item>, site: Site) -> Result<(), OutOfMemory>
    ensures ok { OnOk result (AddsBlock site.entries (binary_label site.first BinOp.And) (binary_block site.first site.meet BinOp.And) items.old.items items.new.items) }
    ensures err { OnErr result (Extends items.old.items items.new.items) }
{
    let work = [
        Micro::Alu(RegOp::And, Datum, First, Datum),
        Micro::Jump(site.meet),
    ];
    add_two(items, site, BinOp::And, &work)
}

fn add_either(items: &mut Vec<Item>, site: Site) -> Result<(), OutOfMemory>
    ensures ok { OnOk result (AddsBlock site.entries (binary_label site.first BinOp.Or) (binary_block site.first site.meet BinOp.Or) items.old.items items.new.items) }
    ensures err { OnErr result (Extends items.old.items items.new.items) }
{
    let work = [
        Micro::Alu(RegOp::Or, Datum, First, Datum),
        Micro::Jump(site.meet),
    ];
    add_two(items, site, BinOp::Or, &work)
}

// A block that leaves the context of a unary operator, and then does its work.
fn add_one(items: &mut Vec<Item>, site: Site, op: UnOp, work: &[Micro]) -> Result<(), OutOfMemory>
    requires { IsTrue (are_near work.now) }
    ensures ok { OnOk result (AddsBlock site.entries (unary_label site.first op) (meet_operand work.now) items.old.items items.new.items) }
    ensures err { OnErr result (Extends items.old.items items.new.items) }
{
    let leaving = [
        Micro::Window(Context, 2),
        Micro::Imm(ImmOp::Addi, Top, Context, 0),
        Micro::Get(Context, Context, 1),
    ];
    add_block(items, site, label_of_unary(site.first, op), &leaving, work)
}

// The same of an operator that may fault.
fn add_one_or_fault(
    items: &mut Vec<Item>,
    site: Site,
    op: UnOp,
    work: &[Micro],
) -> Result<(), OutOfMemory>
    requires { IsTrue (are_near work.now) }
    ensures ok { OnOk result (AddsBlock site.entries (unary_label site.first op) (meet_operand_or_fault work.now) items.old.items items.new.items) }
    ensures err { OnErr result (Extends items.old.items items.new.items) }
{
    let leaving = [
        Micro::Window(Context, 2),
        Micro::Get(Third, Context, 0),
        Micro::Imm(ImmOp::Addi, Top, Context, 0),
        Micro::Get(Context, Context, 1),
    ];
    add_block(items, site, label_of_unary(site.first, op), &leaving, work)
}

// A block that leaves the context of a binary operator, and then does its work.
fn add_two(items: &mut Vec<Item>, site: Site, op: BinOp, work: &[Micro]) -> Result<(), OutOfMemory>
    requires { IsTrue (are_near work.now) }
    ensures ok { OnOk result (AddsBlock site.entries (binary_label site.first op) (meet_operands work.now) items.old.items items.new.items) }
    ensures err { OnErr result (Extends items.old.items items.new.items) }
{
    let leaving = [
        Micro::Window(Context, 3),
        Micro::Get(First, Context, 2),
        Micro::Imm(ImmOp::Addi, Top, Context, 0),
        Micro::Get(Context, Context, 1),
    ];
    add_block(items, site, label_of_binary(site.first, op), &leaving, work)
}

// The same of an operator that may fault.
fn add_two_or_fault(
    items: &mut Vec<Item>,
    site: Site,
    op: BinOp,
    work: &[Micro],
) -> Result<(), OutOfMemory>
    requires { IsTrue (are_near work.now) }
    ensures ok { OnOk result (AddsBlock site.entries (binary_label site.first op) (meet_operands_or_fault work.now) items.old.items items.new.items) }
    ensures err { OnErr result (Extends items.old.items items.new.items) }
{
    let leaving = [
        Micro::Window(Context, 3),
        Micro::Get(Third, Context, 0),
        Micro::Get(First, Context, 2),
        Micro::Imm(ImmOp::Addi, Top, Context, 0),
        Micro::Get(Context, Context, 1),
    ];
    add_block(items, site, label_of_binary(site.first, op), &leaving, work)
}

// A block that leaves a context, and then does its work.
fn add_block(
    items: &mut Vec<Item>,
    site: Site,
    label: u32,
    leaving: &[Micro],
    work: &[Micro],
) -> Result<(), OutOfMemory>
    requires leaving { IsTrue (are_near leaving.now) }
    requires work { IsTrue (are_near work.now) }
    ensures ok { OnOk result (AddsBlock site.entries label (leaving.now ++ work.now) items.old.items items.new.items) }
    ensures err { OnErr result (Extends items.old.items items.new.items) }
{
    lower_block(items, site.entries, 0, label, leaving)?;
    lower_all(items, site.entries, 0, work)
}
