//! From instructions to words.

ghost use Rattle.std.specs.Prelude.{◌≡◌, ◌^◌, ◌<◌, ◌%◌, ◌+◌, ◌-◌, ◌↔◌, IsTrue};
ghost use Rattle.rv_insn.specs.Fields.{twos_complement, opcode_of, rd_of, funct3_of, rs1_of, rs2_of, funct7_of, i_immediate, s_immediate, b_immediate, u_immediate, j_immediate};
ghost use Rattle.rv_insn.specs.declared.instructions.Insn.{Insn};
ghost use Rattle.rv_insn.specs.Encoding.{IsWordOf, IsWithin, IsEven, IsEncodable, amount_bits};

use crate::codes::{AUIPC, Fixed, JAL, JALR, LUI, MISC_MEM};
use crate::instructions::{Insn, ShiftOp};

/// Whether an instruction has a word: registers are below 32, immediates in -2,048 to 2,047, `high`
/// below 2^20, branch offsets even in -4,096 to 4,094, jump offsets even in -1,048,576 to 1,048,574,
/// and amounts below 64, in the W forms below 32. It takes no memory.
pub fn is_encodable(insn: &Insn) -> bool
    ensures { IsTrue result ↔ IsEncodable insn.now }
{
    match *insn {
        Insn::Lui { rd, high } | Insn::Auipc { rd, high } => rd < 32 && high < 1048576,
        Insn::Jal { rd, offset } => {
            rd < 32 && (-1048576..1048576).contains(&offset) && offset % 2 == 0
        }
        Insn::Branch {
            rs1,
            rs2,
            offset,
            ..
        } => { rs1 < 32 && rs2 < 32 && (-4096..4096).contains(&offset) && offset % 2 == 0 }
        Insn::Jalr { rd, base, imm } => rd < 32 && base < 32 && is_immediate(imm),
        Insn::Load { rd, base, imm, .. } => rd < 32 && base < 32 && is_immediate(imm),
        Insn::Store { rs2, base, imm, .. } => rs2 < 32 && base < 32 && is_immediate(imm),
        Insn::Imm { rd, rs1, imm, .. } => rd < 32 && rs1 < 32 && is_immediate(imm),
        Insn::Fence { rd, rs1, imm } => rd < 32 && rs1 < 32 && is_immediate(imm),
        Insn::Shift {
            op,
            rd,
            rs1,
            amount,
        } => rd < 32 && rs1 < 32 && amount < op.amounts(),
        Insn::Reg { rd, rs1, rs2, .. } => rd < 32 && rs1 < 32 && rs2 < 32,
        Insn::Ecall => true,
    }
}

fn is_immediate(imm: i16) -> bool
    ensures { IsTrue result ↔ IsWithin (2 ^ 11) imm }
{
    (-2048..2048).contains(&imm)
}

/// The word of an instruction that has one; it has no other, and `decode` gives the instruction back,
/// a `Fence` with the fields that it had. It takes no memory.
/// (RISC-V Unprivileged ISA, chapter "RV32/64G Instruction Set Listings".)
pub fn encode(insn: &Insn) -> u32
    requires { IsEncodable insn.now }
    ensures { IsWordOf insn.now result }
{
    match *insn {
        Insn::Lui { rd, high } => u_word(LUI, rd, high),
        Insn::Auipc { rd, high } => u_word(AUIPC, rd, high),
        Insn::Jal { rd, offset } => j_word(rd, offset),
        Insn::Jalr { rd, base, imm } => i_word((0, JALR), rd, base, imm),
        Insn::Branch {
            op,
            rs1,
            rs2,
            offset,
        } => b_word(op.fields(), rs1, rs2, offset),
        Insn::Load { op, rd, base, imm } => i_word(op.fields(), rd, base, imm),
        Insn::Store { op, rs2, base, imm } => s_word(op.fields(), rs2, base, imm),
        Insn::Imm { op, rd, rs1, imm } => i_word(op.fields(), rd, rs1, imm),
        Insn::Shift {
            op,
            rd,
            rs1,
            amount,
        } => shift_word(op, rd, rs1, amount),
        Insn::Reg { op, rd, rs1, rs2 } => r_word(op.fields(), rd, rs1, rs2),
        Insn::Fence { rd, rs1, imm } => i_word((0, MISC_MEM), rd, rs1, imm),
        Insn::Ecall => 0x00000073,
    }
}

// The low 12 bits of an immediate.
fn low_12(imm: i16) -> u32
    requires { IsWithin (2 ^ 11) imm }
    ensures below { result < 2 ^ 12 }
    ensures back { twos_complement 12 result ≡ imm }
{
    if imm < 0 {
        (imm + 4096) as u32
    } else {
        imm as u32
    }
}

// The low 13 bits of a branch's offset.
fn low_13(offset: i16) -> u32
    requires within { IsWithin (2 ^ 12) offset }
    requires even { IsEven offset }
    ensures below { result < 2 ^ 13 }
    ensures even { result % 2 ≡ 0 }
    ensures back { twos_complement 13 result ≡ offset }
{
    if offset < 0 {
        (offset + 8192) as u32
    } else {
        offset as u32
    }
}

// The low 21 bits of a jump's offset.
fn low_21(offset: i32) -> u32
    requires within { IsWithin (2 ^ 20) offset }
    requires even { IsEven offset }
    ensures below { result < 2 ^ 21 }
    ensures even { result % 2 ≡ 0 }
    ensures back { twos_complement 21 result ≡ offset }
{
    if offset < 0 {
        (offset + 2097152) as u32
    } else {
        offset as u32
    }
}

fn r_word(fixed: Fixed, rd: u8, rs1: u8, rs2: u8) -> u32
    requires top { fixed.top < 2 ^ 7 }
    requires funct3 { fixed.funct3 < 2 ^ 3 }
    requires opcode { fixed.opcode < 2 ^ 7 }
    requires rd { rd < 32 }
    requires rs1 { rs1 < 32 }
    requires rs2 { rs2 < 32 }
    ensures funct7 { funct7_of result ≡ fixed.top }
    ensures funct3 { funct3_of result ≡ fixed.funct3 }
    ensures opcode { opcode_of result ≡ fixed.opcode }
    ensures rd { rd_of result ≡ rd }
    ensures rs1 { rs1_of result ≡ rs1 }
    ensures rs2 { rs2_of result ≡ rs2 }
{
    (fixed.top << 25)
        + ((rs2 as u32) << 20)
        + ((rs1 as u32) << 15)
        + (fixed.funct3 << 12)
        + ((rd as u32) << 7)
        + fixed.opcode
}

fn i_word(fixed: (u32, u32), rd: u8, rs1: u8, imm: i16) -> u32
    requires fixed { (fixed.0 < 2 ^ 3) × (fixed.1 < 2 ^ 7) }
    requires rd { rd < 32 }
    requires rs1 { rs1 < 32 }
    requires imm { IsWithin (2 ^ 11) imm }
    ensures funct3 { funct3_of result ≡ fixed.0 }
    ensures opcode { opcode_of result ≡ fixed.1 }
    ensures rd { rd_of result ≡ rd }
    ensures rs1 { rs1_of result ≡ rs1 }
    ensures imm { i_immediate result ≡ imm }
{
    let (funct3, opcode) = fixed;
    (low_12(imm) << 20) + ((rs1 as u32) << 15) + (funct3 << 12) + ((rd as u32) << 7) + opcode
}

fn s_word(fixed: (u32, u32), rs2: u8, base: u8, imm: i16) -> u32
    requires fixed { (fixed.0 < 2 ^ 3) × (fixed.1 < 2 ^ 7) }
    requires rs2 { rs2 < 32 }
    requires base { base < 32 }
    requires imm { IsWithin (2 ^ 11) imm }
    ensures funct3 { funct3_of result ≡ fixed.0 }
    ensures opcode { opcode_of result ≡ fixed.1 }
    ensures rs1 { rs1_of result ≡ base }
    ensures rs2 { rs2_of result ≡ rs2 }
    ensures imm { s_immediate result ≡ imm }
{
    let (funct3, opcode) = fixed;
    let low = low_12(imm);
    let top = low / 32;
    r_word(
        Fixed {
            top,
            funct3,
            opcode,
        },
        (low % 32) as u8,
        base,
        rs2,
    )
}

fn b_word(fixed: (u32, u32), rs1: u8, rs2: u8, offset: i16) -> u32
    requires fixed { (fixed.0 < 2 ^ 3) × (fixed.1 < 2 ^ 7) }
    requires rs1 { rs1 < 32 }
    requires rs2 { rs2 < 32 }
    requires within { IsWithin (2 ^ 12) offset }
    requires even { IsEven offset }
    ensures funct3 { funct3_of result ≡ fixed.0 }
    ensures opcode { opcode_of result ≡ fixed.1 }
    ensures rs1 { rs1_of result ≡ rs1 }
    ensures rs2 { rs2_of result ≡ rs2 }
    ensures offset { b_immediate result ≡ offset }
{
    let (funct3, opcode) = fixed;
    let low = low_13(offset);
    let top = low / 4096 * 64 + low / 32 % 64;
    r_word(
        Fixed {
            top,
            funct3,
            opcode,
        },
        (low / 2 % 16 * 2 + low / 2048 % 2) as u8,
        rs1,
        rs2,
    )
}

fn u_word(opcode: u32, rd: u8, high: u32) -> u32
    requires opcode { opcode < 2 ^ 7 }
    requires rd { rd < 32 }
    requires high { high < 2 ^ 20 }
    ensures opcode { opcode_of result ≡ opcode }
    ensures rd { rd_of result ≡ rd }
    ensures high { u_immediate result ≡ high }
{
    (high << 12) + ((rd as u32) << 7) + opcode
}

fn j_word(rd: u8, offset: i32) -> u32
    requires rd { rd < 32 }
    requires within { IsWithin (2 ^ 20) offset }
    requires even { IsEven offset }
    ensures opcode { opcode_of result ≡ JAL }
    ensures rd { rd_of result ≡ rd }
    ensures offset { j_immediate result ≡ offset }
{
    let low = low_21(offset);
    let high = low / 1048576 * 524288
        + low / 2 % 1024 * 512
        + low / 2048 % 2 * 256
        + low / 4096 % 256;
    u_word(JAL, rd, high)
}

// In the full forms the amount's highest bit stands in the lowest of funct7.
fn shift_word(op: ShiftOp, rd: u8, rs1: u8, amount: u8) -> u32
    requires rd { rd < 32 }
    requires rs1 { rs1 < 32 }
    requires amount { amount < 2 ^ amount_bits op }
    ensures { IsWordOf (Insn.Shift op rd rs1 amount) result }
{
    let Fixed {
        top,
        funct3,
        opcode,
    } = op.fields();
    let top = match op {
        ShiftOp::Slli | ShiftOp::Srli | ShiftOp::Srai => top * 2 + (amount / 32) as u32,
        ShiftOp::Slliw | ShiftOp::Srliw | ShiftOp::Sraiw => top,
    };
    r_word(
        Fixed {
            top,
            funct3,
            opcode,
        },
        rd,
        rs1,
        amount % 32,
    )
}
