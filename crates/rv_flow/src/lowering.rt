//! The items of micro-operations, appended to those that are there.

ghost use Rattle.std.specs.Prelude.{◌≡◌, ◌*◌, ◌^◌, ◌<◌, ◌≤◌, [], ◌∷◌, ◌++◌, pos, IsTrue, OnOk, OnErr};
ghost use Rattle.std.specs.Int.{cast_signed, w64};
ghost use Rattle.rv_flow.specs.Emission.{DisciplinedAreNear, Extends, are_near, is_near};
ghost use Rattle.rv_flow.specs.Lowering.{block_items, entry_items, kind_number, lower_part, lowered, micro_items, minus, number_of, upper_part};

use fy_base::{FaultKind, OutOfMemory};
use rv_asm::Item;
use rv_insn::{BranchOp, ImmOp, Insn, LoadOp, RegOp, ShiftOp, StoreOp};
use rv_word::{Micro, Register};

/// Appends a block: its label, and then the items of its micro-operations, in code with so many
/// entries and words of the table. After a refusal what was there still begins the items.
pub fn lower_block(
    items: &mut Vec<Item>,
    entries: u32,
    table_words: u32,
    label: u32,
    micros: &[Micro],
) -> Result<(), OutOfMemory>
    requires { IsTrue (are_near micros.now) }
    ensures ok { OnOk result (items.new.items ≡ items.old.items ++ block_items entries table_words label micros.now) }
    ensures err { OnErr result (Extends items.old.items items.new.items) }
{
    items.push(Item::Mark(label))?;
    lower_all(items, entries, table_words, micros)
}

/// Appends the items of micro-operations in order, in code with so many entries and words of the
/// table. After a refusal what was there still begins the items.
pub fn lower_all(
    items: &mut Vec<Item>,
    entries: u32,
    table_words: u32,
    micros: &[Micro],
) -> Result<(), OutOfMemory>
    requires { IsTrue (are_near micros.now) }
    ensures ok { OnOk result (items.new.items ≡ items.old.items ++ micro_items entries table_words micros.now) }
    ensures err { OnErr result (Extends items.old.items items.new.items) }
{
    for micro in micros {
        lower(items, entries, table_words, micro)?;
    }
    Ok(())
}

/// The operations of disciplined blocks are near, as `lower` and the others ask. It does nothing.
pub fn disciplined_are_near()
    ensures { DisciplinedAreNear }
{}

/// Appends the far jumps to the labels of the entries, with which code begins. After a refusal what
/// was there still begins the items.
pub fn lower_entries(items: &mut Vec<Item>, labels: &[u32]) -> Result<(), OutOfMemory>
    ensures ok { OnOk result (items.new.items ≡ items.old.items ++ entry_items labels.now) }
    ensures err { OnErr result (Extends items.old.items items.new.items) }
{
    for label in labels {
        items.push(Item::FarTo { label: *label })?;
    }
    Ok(())
}

/// Appends the items of a micro-operation, in code with so many entries and words of the table.
/// After a refusal the items are as they were.
pub fn lower(
    items: &mut Vec<Item>,
    entries: u32,
    table_words: u32,
    micro: &Micro,
) -> Result<(), OutOfMemory>
    requires { IsTrue (is_near micro.now) }
    ensures ok { OnOk result (items.new.items ≡ items.old.items ++ lowered entries table_words micro.now) }
    ensures err { OnErr result (items.new.items ≡ items.old.items) }
{
    match *micro {
        Micro::Set(r, value) => push(items, constant(r, value)),
        Micro::Imm(op, r, s, imm) => push(items, number_operation(op, r, s, imm)),
        Micro::Shift(op, r, s, amount) => push(items, shift(op, r, s, amount)),
        Micro::Alu(op, r, s, t) => push(items, operation(op, r, s, t)),
        Micro::Window(r, k) => lower_window(items, r, k),
        Micro::Get(r, s, k) => push(items, load(r, s, k)),
        Micro::Save(s, k, r) => push(items, store(s, k, r)),
        Micro::Look(r, s) => lower_look(items, table_words, r, s),
        Micro::Room(k, label) => lower_room(items, k, label),
        Micro::Test(op, r, s, label) => push(items, test(op, r, s, label)),
        Micro::Jump(label) => push(items, Item::JumpTo { label }),
        Micro::Enter(r) => lower_enter(items, entries, r),
        Micro::Put(r) => lower_put(items, r),
        Micro::Take(r) => lower_take(items, r),
        Micro::End => lower_service(items, 0),
        Micro::Exhaust => lower_service(items, 4),
        Micro::Fault(kind, place) => lower_fault(items, kind, place),
    }
}

fn push(items: &mut Vec<Item>, item: Item) -> Result<(), OutOfMemory>
    ensures ok { OnOk result (items.new.items ≡ items.old.items ++ item ∷ []) }
    ensures err { OnErr result (items.new.items ≡ items.old.items) }
{
    items.push(item)?;
    Ok(())
}

// The number of the register of RV64IM.
fn number(r: Register) -> u8
    ensures { result ≡ number_of r }
{
    match r {
        Register::Zero => 0,
        Register::Frame => 5,
        Register::Context => 6,
        Register::Top => 7,
        Register::Datum => 8,
        Register::First => 9,
        Register::Second => 12,
        Register::Third => 13,
    }
}

fn constant(r: Register, value: u64) -> Item
    ensures { result ≡ Item.Constant (number_of r) (cast_signed w64 value) }
{
    Item::Constant {
        rd: number(r),
        value: value.cast_signed(),
    }
}

fn number_operation(op: ImmOp, r: Register, s: Register, imm: i16) -> Item
    ensures { result ≡ Item.Plain (Insn.Imm op (number_of r) (number_of s) imm) }
{
    Item::Plain(Insn::Imm {
        op,
        rd: number(r),
        rs1: number(s),
        imm,
    })
}

fn shift(op: ShiftOp, r: Register, s: Register, amount: u8) -> Item
    ensures { result ≡ Item.Plain (Insn.Shift op (number_of r) (number_of s) amount) }
{
    Item::Plain(Insn::Shift {
        op,
        rd: number(r),
        rs1: number(s),
        amount,
    })
}

fn operation(op: RegOp, r: Register, s: Register, t: Register) -> Item
    ensures { result ≡ Item.Plain (Insn.Reg op (number_of r) (number_of s) (number_of t)) }
{
    Item::Plain(Insn::Reg {
        op,
        rd: number(r),
        rs1: number(s),
        rs2: number(t),
    })
}

fn load(r: Register, s: Register, k: u16) -> Item
    requires { k < 256 }
    ensures { result ≡ Item.Plain (Insn.Load LoadOp.Ld (number_of r) (number_of s) (pos (8 * k))) }
{
    Item::Plain(Insn::Load {
        op: LoadOp::Ld,
        rd: number(r),
        base: number(s),
        imm: 8 * k as i16,
    })
}

fn store(s: Register, k: u16, r: Register) -> Item
    requires { k < 256 }
    ensures { result ≡ Item.Plain (Insn.Store StoreOp.Sd (number_of r) (number_of s) (pos (8 * k))) }
{
    Item::Plain(Insn::Store {
        op: StoreOp::Sd,
        rs2: number(r),
        base: number(s),
        imm: 8 * k as i16,
    })
}

fn test(op: BranchOp, r: Register, s: Register, label: u32) -> Item
    ensures { result ≡ Item.BranchTo op (number_of r) (number_of s) label }
{
    Item::BranchTo {
        op,
        rs1: number(r),
        rs2: number(s),
        label,
    }
}

// A check that so many words lie in the stack from a register on.
fn lower_window(items: &mut Vec<Item>, r: Register, k: u16) -> Result<(), OutOfMemory>
    ensures ok { OnOk result (items.new.items ≡ items.old.items ++ lowered 0 0 (Micro.Window r k)) }
    ensures err { OnErr result (items.new.items ≡ items.old.items) }
{
    let register = number(r);
    if k <= 255 {
        items.extend_from_slice(&[
            stay(BranchOp::Bltu, register, 2),
            sum(31, 3, bytes_down(k)),
            stay(BranchOp::Bltu, 31, register),
            masked(register, 7),
            stay(BranchOp::Bne, 31, 0),
        ])?;
        Ok(())
    } else {
        let size = 8 * k as u64;
        items.extend_from_slice(&[
            stay(BranchOp::Bltu, register, 2),
            stay(BranchOp::Bltu, 3, register),
            upper(31, size),
            lower_added(31, size),
            added(31, register),
            stay(BranchOp::Bltu, 3, 31),
            masked(register, 7),
            stay(BranchOp::Bne, 31, 0),
        ])?;
        Ok(())
    }
}

// A check that a register is the address of a word of the table, and the load of that word.
fn lower_look(
    items: &mut Vec<Item>,
    table_words: u32,
    r: Register,
    s: Register,
) -> Result<(), OutOfMemory>
    ensures ok { OnOk result (items.new.items ≡ items.old.items ++ lowered 0 table_words (Micro.Look r s)) }
    ensures err { OnErr result (items.new.items ≡ items.old.items) }
{
    let register = number(s);
    let last = 536_870_904 + 8 * table_words as u64;
    items.extend_from_slice(&[
        stay(BranchOp::Bltu, register, 4),
        upper(31, last),
        lower_added(31, last),
        stay(BranchOp::Bltu, 31, register),
        masked(register, 7),
        stay(BranchOp::Bne, 31, 0),
        load(r, s, 0),
    ])?;
    Ok(())
}

// A branch to a label where fewer words than so many are left from the top on.
fn lower_room(items: &mut Vec<Item>, k: u16, label: u32) -> Result<(), OutOfMemory>
    ensures ok { OnOk result (items.new.items ≡ items.old.items ++ lowered 0 0 (Micro.Room k label)) }
    ensures err { OnErr result (items.new.items ≡ items.old.items) }
{
    let branch = Item::BranchTo {
        op: BranchOp::Bltu,
        rs1: 31,
        rs2: number(Register::Top),
        label,
    };
    if k <= 255 {
        items.extend_from_slice(&[sum(31, 3, bytes_down(k)), branch])?;
        Ok(())
    } else {
        let size = 8 * k as u64;
        items.extend_from_slice(&[
            upper(31, size),
            lower_added(31, size),
            below_limit(),
            branch,
        ])?;
        Ok(())
    }
}

// A jump to the entry of which a register has the number, times 8.
fn lower_enter(items: &mut Vec<Item>, entries: u32, r: Register) -> Result<(), OutOfMemory>
    ensures ok { OnOk result (items.new.items ≡ items.old.items ++ lowered entries 0 (Micro.Enter r)) }
    ensures err { OnErr result (items.new.items ≡ items.old.items) }
{
    let size = 8 * entries as u64;
    items.extend_from_slice(&[
        masked(number(r), -8),
        upper(30, size),
        lower_added(30, size),
        stay(BranchOp::Bgeu, 31, 30),
        Item::Plain(Insn::Lui { rd: 30, high: 16 }),
        added(31, 30),
        Item::Plain(Insn::Jalr {
            rd: 0,
            base: 31,
            imm: 0,
        }),
    ])?;
    Ok(())
}

// The service that puts the low byte of a register.
fn lower_put(items: &mut Vec<Item>, r: Register) -> Result<(), OutOfMemory>
    ensures ok { OnOk result (items.new.items ≡ items.old.items ++ lowered 0 0 (Micro.Put r)) }
    ensures err { OnErr result (items.new.items ≡ items.old.items) }
{
    items.extend_from_slice(&[
        sum(10, number(r), 0),
        sum(17, 0, 1),
        Item::Plain(Insn::Ecall),
    ])?;
    Ok(())
}

// The service that takes a byte into a register.
fn lower_take(items: &mut Vec<Item>, r: Register) -> Result<(), OutOfMemory>
    ensures ok { OnOk result (items.new.items ≡ items.old.items ++ lowered 0 0 (Micro.Take r)) }
    ensures err { OnErr result (items.new.items ≡ items.old.items) }
{
    items.extend_from_slice(&[
        sum(17, 0, 2),
        Item::Plain(Insn::Ecall),
        sum(number(r), 10, 0),
    ])?;
    Ok(())
}

// The service with a number.
fn lower_service(items: &mut Vec<Item>, service: i16) -> Result<(), OutOfMemory>
    ensures ok { OnOk result (items.new.items ≡ items.old.items ++ Item.Plain (Insn.Imm ImmOp.Addi 17 0 service) ∷ Item.Plain Insn.Ecall ∷ []) }
    ensures err { OnErr result (items.new.items ≡ items.old.items) }
{
    items.extend_from_slice(&[sum(17, 0, service), Item::Plain(Insn::Ecall)])?;
    Ok(())
}

// The service of a fault of a kind at the place with a number.
fn lower_fault(items: &mut Vec<Item>, kind: FaultKind, place: u32) -> Result<(), OutOfMemory>
    ensures ok { OnOk result (items.new.items ≡ items.old.items ++ lowered 0 0 (Micro.Fault kind place)) }
    ensures err { OnErr result (items.new.items ≡ items.old.items) }
{
    let place = place as u64;
    items.extend_from_slice(&[
        sum(10, 0, fault_number(kind)),
        upper(11, place),
        lower_added(11, place),
        sum(17, 0, 3),
        Item::Plain(Insn::Ecall),
    ])?;
    Ok(())
}

fn fault_number(kind: FaultKind) -> i16
    ensures { result ≡ pos (kind_number kind) }
{
    match kind {
        FaultKind::Overflow => 1,
        FaultKind::Zero => 2,
        FaultKind::Range => 3,
    }
}

// So many words, in bytes below zero.
fn bytes_down(k: u16) -> i16
    requires { k ≤ 255 }
    ensures { result ≡ minus (8 * k) }
{
    -(8 * k as i16)
}

// A branch to itself, where a comparison holds.
fn stay(op: BranchOp, rs1: u8, rs2: u8) -> Item
    ensures { result ≡ Item.Plain (Insn.Branch op rs1 rs2 (pos 0)) }
{
    Item::Plain(Insn::Branch {
        op,
        rs1,
        rs2,
        offset: 0,
    })
}

// The sum of a register and a number.
fn sum(rd: u8, rs1: u8, imm: i16) -> Item
    ensures { result ≡ Item.Plain (Insn.Imm ImmOp.Addi rd rs1 imm) }
{
    Item::Plain(Insn::Imm {
        op: ImmOp::Addi,
        rd,
        rs1,
        imm,
    })
}

// The bits of a register that a mask keeps, in x31.
fn masked(rs1: u8, mask: i16) -> Item
    ensures { result ≡ Item.Plain (Insn.Imm ImmOp.Andi 31 rs1 mask) }
{
    Item::Plain(Insn::Imm {
        op: ImmOp::Andi,
        rd: 31,
        rs1,
        imm: mask,
    })
}

// A register added to another.
fn added(rd: u8, rs2: u8) -> Item
    ensures { result ≡ Item.Plain (Insn.Reg RegOp.Add rd rd rs2) }
{
    Item::Plain(Insn::Reg {
        op: RegOp::Add,
        rd,
        rs1: rd,
        rs2,
    })
}

// The stack's end, less x31.
fn below_limit() -> Item
    ensures { result ≡ Item.Plain (Insn.Reg RegOp.Sub 31 3 31) }
{
    Item::Plain(Insn::Reg {
        op: RegOp::Sub,
        rd: 31,
        rs1: 3,
        rs2: 31,
    })
}

// The upper part of a number in a register.
fn upper(rd: u8, value: u64) -> Item
    requires { value < 2 ^ 40 }
    ensures { result ≡ Item.Plain (Insn.Lui rd (upper_part value)) }
{
    Item::Plain(Insn::Lui {
        rd,
        high: ((value + 2048) / 4096) as u32,
    })
}

// The lower part of a number, added to its upper part.
fn lower_added(rd: u8, value: u64) -> Item
    ensures { result ≡ Item.Plain (Insn.Imm ImmOp.Addi rd rd (lower_part value)) }
{
    sum(rd, rd, lower_bits(value))
}

// The lower part of a number: its low twelve bits, with a sign.
fn lower_bits(value: u64) -> i16
    ensures { result ≡ lower_part value }
{
    let low = (value % 4096) as i16;
    if low < 2048 { low } else { low - 4096 }
}
