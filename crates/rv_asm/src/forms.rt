//! The instructions of items.

ghost use Rattle.std.specs.Prelude.{◌≡◌, ◌≤◌, ◌<◌, ◌^◌, ◌||◌, ◌∷◌, [], not, true, if◌then◌else◌, All, OnOk};
ghost use Rattle.std.specs.Int.{cast_unsigned, w64};
ghost use Rattle.rv_insn.specs.declared.instructions.ImmOp.TheVariants.{Addi};
ghost use Rattle.rv_insn.specs.declared.instructions.Insn.TheVariants as insn;
ghost use Rattle.rv_insn.specs.declared.instructions.ShiftOp.TheVariants.{Slli};
ghost use Rattle.rv_insn.specs.Encoding.{IsEncodable};
ghost use Rattle.rv_asm.specs.Items.{IsFit};
ghost use Rattle.rv_asm.specs.Forms.{opposite, has_bits, constant_words};
ghost use Rattle.rv_asm.specs.Choosing.{offset_between, distance, upper_part, lower_part, near_jump, near_branch, far_jump, far_branch, address_form, word_form, double_form, constant_form, form_of, size_of, is_within, is_reached};
ghost use Rattle.rv_asm.specs.Planning.{Appends, IsSmall};

use crate::items::Item;
use fy_base::OutOfMemory;
use rv_insn::{BranchOp, ImmOp, Insn, ShiftOp, encode};

fn has_12_bits(value: i64) -> bool
    ensures { result ≡ has_bits 12 value }
{
    (-2048..2048).contains(&value)
}

fn has_32_bits(value: i64) -> bool
    ensures { result ≡ has_bits 32 value }
{
    (-2_147_483_648..2_147_483_648).contains(&value)
}

/// How many words an item takes.
pub fn size(item: &Item, near: bool) -> u32
    ensures size { result ≡ size_of near item.now }
    ensures most { result ≤ 8 }
{
    match *item {
        Item::Mark(_) => 0,
        Item::Plain(_) => 1,
        Item::BranchTo { .. } => if near { 1 } else { 3 },
        Item::JumpTo { .. } | Item::CallTo { .. } => if near { 1 } else { 2 },
        Item::FarTo { .. } | Item::AddressOf { .. } => 2,
        Item::Constant { value, .. } => words_of_constant(value),
    }
}

fn words_of_constant(value: i64) -> u32
    ensures { result ≡ constant_words value }
{
    if has_12_bits(value) {
        1
    } else if has_32_bits(value) {
        2
    } else {
        8
    }
}

// The comparison that holds where the other doesn't.
fn opposite_of(op: BranchOp) -> BranchOp
    ensures { result ≡ opposite op }
{
    match op {
        BranchOp::Beq => BranchOp::Bne,
        BranchOp::Bne => BranchOp::Beq,
        BranchOp::Blt => BranchOp::Bge,
        BranchOp::Bge => BranchOp::Blt,
        BranchOp::Bltu => BranchOp::Bgeu,
        BranchOp::Bgeu => BranchOp::Bltu,
    }
}

// How many bytes the word `to` stands behind the word `here`.
#[tactic(auto, unfolding(crate::specs::Choosing::offset_between))]
fn offset(here: u32, to: u32) -> i32
    requires here { here ≤ 2 ^ 26 }
    requires to { to ≤ 2 ^ 26 }
    ensures { result ≡ offset_between here to }
{
    if to < here {
        -((4 * (here - to)) as i32)
    } else {
        (4 * (to - here)) as i32
    }
}

// The same modulo 2^32.
#[tactic(auto, unfolding(crate::specs::Choosing::distance))]
fn bytes_between(here: u32, to: u32) -> u64
    requires here { here ≤ 2 ^ 26 }
    ensures bytes { result ≡ distance here to }
    ensures below { result < 2 ^ 35 }
{
    4_294_967_296 + 4 * to as u64 - 4 * here as u64
}

// The upper 20 bits of a number that `low` adds 12 bits with sign to.
#[tactic(auto, unfolding(crate::specs::Choosing::upper_part))]
fn high(n: u64) -> u32
    requires { n < 2 ^ 63 }
    ensures { result ≡ upper_part n }
{
    ((n + 2048) / 4096 % 1_048_576) as u32
}

#[tactic(auto, unfolding(crate::specs::Choosing::lower_part))]
fn low(n: u64) -> i16
    ensures { result ≡ lower_part n }
{
    let bits = (n % 4096) as i16;
    if bits < 2048 { bits } else { bits - 4096 }
}

fn near_jump(rd: u8, here: u32, to: u32) -> Insn
    requires here { here ≤ 2 ^ 26 }
    requires to { to ≤ 2 ^ 26 }
    ensures { result ≡ near_jump rd here to }
{
    Insn::Jal {
        rd,
        offset: offset(here, to),
    }
}

fn near_branch(op: BranchOp, rs1: u8, rs2: u8, here: u32, to: u32) -> Insn
    requires here { here ≤ 2 ^ 26 }
    requires to { to ≤ 2 ^ 26 }
    requires reach { is_within 1024 here to ≡ true }
    ensures { result ≡ near_branch op rs1 rs2 here to }
{
    let offset = offset(here, to) as i16;
    Insn::Branch {
        op,
        rs1,
        rs2,
        offset,
    }
}

fn far_jump(rd: u8, here: u32, to: u32) -> [Insn; 2]
    requires here { here ≤ 2 ^ 26 }
    ensures { result ≡ far_jump rd here to }
{
    let n = bytes_between(here, to);
    [
        Insn::Auipc {
            rd: 31,
            high: high(n),
        },
        Insn::Jalr {
            rd,
            base: 31,
            imm: low(n),
        },
    ]
}

fn far_branch(op: BranchOp, rs1: u8, rs2: u8, here: u32, to: u32) -> [Insn; 3]
    requires here { here < 2 ^ 26 }
    ensures { result ≡ far_branch op rs1 rs2 here to }
{
    let over = Insn::Branch {
        op: opposite_of(op),
        rs1,
        rs2,
        offset: 12,
    };
    let [first, second] = far_jump(0, here + 1, to);
    [over, first, second]
}

fn address(rd: u8, here: u32, to: u32) -> [Insn; 2]
    requires here { here ≤ 2 ^ 26 }
    ensures { result ≡ address_form rd here to }
{
    let n = bytes_between(here, to);
    [
        Insn::Auipc { rd, high: high(n) },
        Insn::Imm {
            op: ImmOp::Addi,
            rd,
            rs1: rd,
            imm: low(n),
        },
    ]
}

// A number of 32 bits, with the sign that it has.
fn word(rd: u8, n: u64) -> [Insn; 2]
    requires { n < 2 ^ 32 }
    ensures { result ≡ word_form rd n }
{
    [
        Insn::Lui { rd, high: high(n) },
        Insn::Imm {
            op: ImmOp::Addiw,
            rd,
            rs1: rd,
            imm: low(n),
        },
    ]
}

// A number of 64 bits: the upper 32 first.
fn double(rd: u8, n: u64) -> [Insn; 8]
    ensures { result ≡ double_form rd n }
{
    let [upper, lower] = word(rd, n >> 32);
    [
        upper,
        lower,
        shift(rd, 11),
        add(rd, ((n >> 21) % 2048) as i16),
        shift(rd, 11),
        add(rd, ((n >> 10) % 2048) as i16),
        shift(rd, 10),
        add(rd, (n % 1024) as i16),
    ]
}

fn shift(rd: u8, amount: u8) -> Insn
    ensures { result ≡ insn.Shift Slli rd rd amount }
{
    Insn::Shift {
        op: ShiftOp::Slli,
        rd,
        rs1: rd,
        amount,
    }
}

fn add(rd: u8, imm: i16) -> Insn
    ensures { result ≡ insn.Imm Addi rd rd imm }
{
    Insn::Imm {
        op: ImmOp::Addi,
        rd,
        rs1: rd,
        imm,
    }
}

// Adds the words of instructions.
fn push_words(words: &mut Vec<u32>, insns: &[Insn]) -> Result<(), OutOfMemory>
    requires { All IsEncodable insns.now }
    ensures { OnOk result (Appends insns.now words.old.items words.new.items) }
{
    for insn in insns {
        words.push(encode(insn))?;
    }
    Ok(())
}

fn push_branch(
    words: &mut Vec<u32>,
    op: BranchOp,
    rs1: u8,
    rs2: u8,
    near: bool,
    here: u32,
    to: u32,
) -> Result<(), OutOfMemory>
    requires rs1 { rs1 < 32 }
    requires rs2 { rs2 < 32 }
    requires here { here ≤ 2 ^ 25 }
    requires to { to ≤ 2 ^ 25 }
    requires reach { (not near || is_within 1024 here to) ≡ true }
    ensures { OnOk result (Appends (if near then near_branch op rs1 rs2 here to ∷ [] else far_branch op rs1 rs2 here to) words.old.items words.new.items) }
{
    if near {
        push_words(words, &[near_branch(op, rs1, rs2, here, to)])
    } else {
        push_words(words, &far_branch(op, rs1, rs2, here, to))
    }
}

fn push_jump(
    words: &mut Vec<u32>,
    rd: u8,
    near: bool,
    here: u32,
    to: u32,
) -> Result<(), OutOfMemory>
    requires rd { rd < 32 }
    requires here { here ≤ 2 ^ 25 }
    requires to { to ≤ 2 ^ 25 }
    requires reach { (not near || is_within 262144 here to) ≡ true }
    ensures { OnOk result (Appends (if near then near_jump rd here to ∷ [] else far_jump rd here to) words.old.items words.new.items) }
{
    if near {
        push_words(words, &[near_jump(rd, here, to)])
    } else {
        push_words(words, &far_jump(rd, here, to))
    }
}

fn push_constant(words: &mut Vec<u32>, rd: u8, value: i64) -> Result<(), OutOfMemory>
    requires { rd < 32 }
    ensures small { cast_unsigned w64 value < 2 ^ 64 }
    ensures words { OnOk result (Appends (constant_form rd value) words.old.items words.new.items) }
{
    if has_12_bits(value) {
        let only = Insn::Imm {
            op: ImmOp::Addi,
            rd,
            rs1: 0,
            imm: value as i16,
        };
        return push_words(words, &[only]);
    }
    let bits = value.cast_unsigned();
    if has_32_bits(value) {
        push_words(words, &word(rd, bits % 4_294_967_296))
    } else {
        push_words(words, &double(rd, bits))
    }
}

/// Adds the words of an item that stands before the word `here` and whose label stands before the
/// word `to`.
pub fn push_item(
    words: &mut Vec<u32>,
    item: &Item,
    near: bool,
    here: u32,
    to: u32,
) -> Result<(), OutOfMemory>
    requires fit { IsFit item.now }
    requires here { here ≤ 2 ^ 25 }
    requires to { to ≤ 2 ^ 25 }
    requires reach { is_reached near item.now here to ≡ true }
    ensures small { IsSmall item.now }
    ensures words { OnOk result (Appends (form_of near here to item.now) words.old.items words.new.items) }
{
    match *item {
        Item::Mark(_) => Ok(()),
        Item::Plain(insn) => push_words(words, &[insn]),
        Item::BranchTo { op, rs1, rs2, .. } => push_branch(words, op, rs1, rs2, near, here, to),
        Item::JumpTo { .. } => push_jump(words, 0, near, here, to),
        Item::FarTo { .. } => push_words(words, &far_jump(0, here, to)),
        Item::CallTo { rd, .. } => push_jump(words, rd, near, here, to),
        Item::AddressOf { rd, .. } => push_words(words, &address(rd, here, to)),
        Item::Constant { rd, value } => push_constant(words, rd, value),
    }
}
