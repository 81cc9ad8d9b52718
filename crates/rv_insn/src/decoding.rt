//! From words to instructions.

ghost use Rattle.std.specs.Prelude.{◌≡◌, ◌^◌, ◌⊎◌};
ghost use Rattle.rv_insn.specs.Fields.{opcode_of, rd_of, funct3_of, rs1_of, rs2_of, i_immediate, s_immediate, b_immediate, j_immediate};
ghost use Rattle.rv_insn.specs.Encoding.{IsReadingOf, IsWithin, IsEven};

use crate::codes::{
    AUIPC, BRANCH, JAL, JALR, LOAD, LUI, MISC_MEM, OP, OP_32, OP_IMM, OP_IMM_32, STORE, SYSTEM,
};
use crate::instructions::{BranchOp, ImmOp, Insn, LoadOp, RegOp, ShiftOp, StoreOp};

/// The instruction of a word, or `None` exactly where no instruction has it. It takes no memory.
/// (RISC-V Unprivileged ISA, chapter "RV32/64G Instruction Set Listings".)
pub fn decode(word: u32) -> Option<Insn>
    ensures { IsReadingOf word result }
{
    match word % 128 {
        LUI => Some(Insn::Lui {
            rd: rd_field(word),
            high: word >> 12,
        }),
        AUIPC => Some(Insn::Auipc {
            rd: rd_field(word),
            high: word >> 12,
        }),
        JAL => Some(Insn::Jal {
            rd: rd_field(word),
            offset: j_field(word),
        }),
        JALR => jalr_of(word),
        BRANCH => branch_of(word),
        LOAD => load_of(word),
        STORE => store_of(word),
        OP_IMM => imm_of(word),
        OP_IMM_32 => word_imm_of(word),
        OP | OP_32 => reg_of(word),
        MISC_MEM => fence_of(word),
        SYSTEM => if word == 0x00000073 {
            Some(Insn::Ecall)
        } else {
            None
        },
        _ => None,
    }
}

fn rd_field(word: u32) -> u8
    ensures { result ≡ rd_of word }
{
    ((word >> 7) % 32) as u8
}

fn rs1_field(word: u32) -> u8
    ensures { result ≡ rs1_of word }
{
    ((word >> 15) % 32) as u8
}

fn rs2_field(word: u32) -> u8
    ensures { result ≡ rs2_of word }
{
    ((word >> 20) % 32) as u8
}

fn funct3_field(word: u32) -> u32
    ensures { result ≡ funct3_of word }
{
    (word >> 12) % 8
}

fn i_field(word: u32) -> i16
    ensures value { result ≡ i_immediate word }
    ensures within { IsWithin (2 ^ 11) result }
{
    let raw = (word >> 20) as i16;
    if raw < 2048 { raw } else { raw - 4096 }
}

fn s_field(word: u32) -> i16
    ensures value { result ≡ s_immediate word }
    ensures within { IsWithin (2 ^ 11) result }
{
    let raw = ((word >> 25) * 32 + (word >> 7) % 32) as i16;
    if raw < 2048 { raw } else { raw - 4096 }
}

fn b_field(word: u32) -> i16
    ensures value { result ≡ b_immediate word }
    ensures within { IsWithin (2 ^ 12) result }
    ensures even { IsEven result }
{
    let raw = ((word >> 31) * 4096
        + (word >> 7) % 2 * 2048
        + (word >> 25) % 64 * 32
        + (word >> 8) % 16 * 2) as i16;
    if raw < 4096 { raw } else { raw - 8192 }
}

fn j_field(word: u32) -> i32
    ensures value { result ≡ j_immediate word }
    ensures within { IsWithin (2 ^ 20) result }
    ensures even { IsEven result }
{
    let raw = ((word >> 31) * 1048576
        + (word >> 12) % 256 * 4096
        + (word >> 20) % 2 * 2048
        + (word >> 21) % 1024 * 2) as i32;
    if raw < 1048576 { raw } else { raw - 2097152 }
}

fn jalr_of(word: u32) -> Option<Insn>
    requires { opcode_of word ≡ JALR }
    ensures { IsReadingOf word result }
{
    if funct3_field(word) != 0 {
        return None;
    }
    Some(Insn::Jalr {
        rd: rd_field(word),
        base: rs1_field(word),
        imm: i_field(word),
    })
}

fn branch_of(word: u32) -> Option<Insn>
    requires { opcode_of word ≡ BRANCH }
    ensures { IsReadingOf word result }
{
    let op = BranchOp::of_fields(funct3_field(word), BRANCH)?;
    Some(Insn::Branch {
        op,
        rs1: rs1_field(word),
        rs2: rs2_field(word),
        offset: b_field(word),
    })
}

fn load_of(word: u32) -> Option<Insn>
    requires { opcode_of word ≡ LOAD }
    ensures { IsReadingOf word result }
{
    let op = LoadOp::of_fields(funct3_field(word), LOAD)?;
    Some(Insn::Load {
        op,
        rd: rd_field(word),
        base: rs1_field(word),
        imm: i_field(word),
    })
}

fn store_of(word: u32) -> Option<Insn>
    requires { opcode_of word ≡ STORE }
    ensures { IsReadingOf word result }
{
    let op = StoreOp::of_fields(funct3_field(word), STORE)?;
    Some(Insn::Store {
        op,
        rs2: rs2_field(word),
        base: rs1_field(word),
        imm: s_field(word),
    })
}

fn imm_of(word: u32) -> Option<Insn>
    requires { opcode_of word ≡ OP_IMM }
    ensures { IsReadingOf word result }
{
    let funct3 = funct3_field(word);
    let rd = rd_field(word);
    let rs1 = rs1_field(word);
    if let Some(op) = ImmOp::of_fields(funct3, OP_IMM) {
        let imm = i_field(word);
        return Some(Insn::Imm { op, rd, rs1, imm });
    }
    let op = ShiftOp::of_fields(word >> 26, funct3, OP_IMM)?;
    let amount = ((word >> 20) % 64) as u8;
    Some(Insn::Shift {
        op,
        rd,
        rs1,
        amount,
    })
}

fn word_imm_of(word: u32) -> Option<Insn>
    requires { opcode_of word ≡ OP_IMM_32 }
    ensures { IsReadingOf word result }
{
    let funct3 = funct3_field(word);
    let rd = rd_field(word);
    let rs1 = rs1_field(word);
    if let Some(op) = ImmOp::of_fields(funct3, OP_IMM_32) {
        let imm = i_field(word);
        return Some(Insn::Imm { op, rd, rs1, imm });
    }
    let op = ShiftOp::of_fields(word >> 25, funct3, OP_IMM_32)?;
    let amount = rs2_field(word);
    Some(Insn::Shift {
        op,
        rd,
        rs1,
        amount,
    })
}

fn reg_of(word: u32) -> Option<Insn>
    requires { (opcode_of word ≡ OP) ⊎ (opcode_of word ≡ OP_32) }
    ensures { IsReadingOf word result }
{
    let op = RegOp::of_fields(word >> 25, funct3_field(word), word % 128)?;
    Some(Insn::Reg {
        op,
        rd: rd_field(word),
        rs1: rs1_field(word),
        rs2: rs2_field(word),
    })
}

fn fence_of(word: u32) -> Option<Insn>
    requires { opcode_of word ≡ MISC_MEM }
    ensures { IsReadingOf word result }
{
    if funct3_field(word) != 0 {
        return None;
    }
    Some(Insn::Fence {
        rd: rd_field(word),
        rs1: rs1_field(word),
        imm: i_field(word),
    })
}
