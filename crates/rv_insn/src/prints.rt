//! Prints of instructions.

ghost use Rattle.std.specs.Prelude.{◌≡◌, IfOk, string_bytes};
ghost use Rattle.rv_insn.specs.Prints.{reg_mnemonic, shift_mnemonic, imm_mnemonic, load_mnemonic, store_mnemonic, branch_mnemonic, insn_print};

use crate::instructions::{BranchOp, ImmOp, Insn, LoadOp, RegOp, ShiftOp, StoreOp};
use fy_base::{OutOfMemory, Text};
use std::alloc::{AllocError, Global};

/// The print of an instruction: the mnemonic in small letters and the operands, registers as `x0`
/// to `x31`, numbers in signed decimal, as `ld x5, 8(x2)` and `beq x5, x6, -4`.
///
/// # Errors
///
/// Want of memory is the only one.
pub fn print_insn(alloc: Global, insn: &Insn) -> Result<Text, OutOfMemory>
    ensures { IfOk result (λ text. text ≡ insn_print insn.now) }
{
    Ok(Text::from_vec(line_of(alloc, insn)?.into_bytes()))
}

fn line_of(alloc: Global, insn: &Insn) -> Result<String, AllocError>
    ensures { IfOk result (λ line. string_bytes line ≡ insn_print insn.now) }
{
    match *insn {
        Insn::Lui { rd, high } => format!(in alloc; "lui x{rd}, {high}"),
        Insn::Auipc { rd, high } => format!(in alloc; "auipc x{rd}, {high}"),
        Insn::Jal { rd, offset } => format!(in alloc; "jal x{rd}, {offset}"),
        Insn::Jalr { rd, base, imm } => format!(in alloc; "jalr x{rd}, {imm}(x{base})"),
        Insn::Branch {
            op,
            rs1,
            rs2,
            offset,
        } => { format!(in alloc; "{} x{rs1}, x{rs2}, {offset}", op.mnemonic()) }
        Insn::Load { op, rd, base, imm } => {
            format!(in alloc; "{} x{rd}, {imm}(x{base})", op.mnemonic())
        }
        Insn::Store { op, rs2, base, imm } => {
            format!(in alloc; "{} x{rs2}, {imm}(x{base})", op.mnemonic())
        }
        Insn::Imm { op, rd, rs1, imm } => {
            format!(in alloc; "{} x{rd}, x{rs1}, {imm}", op.mnemonic())
        }
        Insn::Shift {
            op,
            rd,
            rs1,
            amount,
        } => { format!(in alloc; "{} x{rd}, x{rs1}, {amount}", op.mnemonic()) }
        Insn::Reg { op, rd, rs1, rs2 } => {
            format!(in alloc; "{} x{rd}, x{rs1}, x{rs2}", op.mnemonic())
        }
        Insn::Fence { .. } => format!(in alloc; "fence"),
        Insn::Ecall => format!(in alloc; "ecall"),
    }
}

impl RegOp {
    /// The mnemonic in small letters.
    pub(crate) fn mnemonic(self) -> &'static str
        ensures { result.now ≡ reg_mnemonic self }
    {
        match self {
            RegOp::Add => "add",
            RegOp::Sub => "sub",
            RegOp::Sll => "sll",
            RegOp::Slt => "slt",
            RegOp::Sltu => "sltu",
            RegOp::Xor => "xor",
            RegOp::Srl => "srl",
            RegOp::Sra => "sra",
            RegOp::Or => "or",
            RegOp::And => "and",
            RegOp::Addw => "addw",
            RegOp::Subw => "subw",
            RegOp::Sllw => "sllw",
            RegOp::Srlw => "srlw",
            RegOp::Sraw => "sraw",
            RegOp::Mul => "mul",
            RegOp::Mulh => "mulh",
            RegOp::Mulhsu => "mulhsu",
            RegOp::Mulhu => "mulhu",
            RegOp::Div => "div",
            RegOp::Divu => "divu",
            RegOp::Rem => "rem",
            RegOp::Remu => "remu",
            RegOp::Mulw => "mulw",
            RegOp::Divw => "divw",
            RegOp::Divuw => "divuw",
            RegOp::Remw => "remw",
            RegOp::Remuw => "remuw",
        }
    }
}

impl ShiftOp {
    /// The mnemonic in small letters.
    pub(crate) fn mnemonic(self) -> &'static str
        ensures { result.now ≡ shift_mnemonic self }
    {
        match self {
            ShiftOp::Slli => "slli",
            ShiftOp::Srli => "srli",
            ShiftOp::Srai => "srai",
            ShiftOp::Slliw => "slliw",
            ShiftOp::Srliw => "srliw",
            ShiftOp::Sraiw => "sraiw",
        }
    }
}

impl ImmOp {
    /// The mnemonic in small letters.
    pub(crate) fn mnemonic(self) -> &'static str
        ensures { result.now ≡ imm_mnemonic self }
    {
        match self {
            ImmOp::Addi => "addi",
            ImmOp::Slti => "slti",
            ImmOp::Sltiu => "sltiu",
            ImmOp::Xori => "xori",
            ImmOp::Ori => "ori",
            ImmOp::Andi => "andi",
            ImmOp::Addiw => "addiw",
        }
    }
}

impl LoadOp {
    /// The mnemonic in small letters.
    pub(crate) fn mnemonic(self) -> &'static str
        ensures { result.now ≡ load_mnemonic self }
    {
        match self {
            LoadOp::Lb => "lb",
            LoadOp::Lh => "lh",
            LoadOp::Lw => "lw",
            LoadOp::Ld => "ld",
            LoadOp::Lbu => "lbu",
            LoadOp::Lhu => "lhu",
            LoadOp::Lwu => "lwu",
        }
    }
}

impl StoreOp {
    /// The mnemonic in small letters.
    pub(crate) fn mnemonic(self) -> &'static str
        ensures { result.now ≡ store_mnemonic self }
    {
        match self {
            StoreOp::Sb => "sb",
            StoreOp::Sh => "sh",
            StoreOp::Sw => "sw",
            StoreOp::Sd => "sd",
        }
    }
}

impl BranchOp {
    /// The mnemonic in small letters.
    pub(crate) fn mnemonic(self) -> &'static str
        ensures { result.now ≡ branch_mnemonic self }
    {
        match self {
            BranchOp::Beq => "beq",
            BranchOp::Bne => "bne",
            BranchOp::Blt => "blt",
            BranchOp::Bge => "bge",
            BranchOp::Bltu => "bltu",
            BranchOp::Bgeu => "bgeu",
        }
    }
}
