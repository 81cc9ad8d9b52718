//! The instructions of RV64I and of its extension M, without EBREAK (RISC-V Unprivileged ISA).

/// Operations on two registers. A name that ends in `w` works on the low 32 bits.
#[derive(Clone, Copy, PartialEq, Eq, Debug)]
pub enum RegOp {
    Add,
    Sll,
    Slt,
    Sltu,
    Xor,
    Srl,
    Or,
    And,
    Sub,
    Sra,
    Mul,
    Mulh,
    Mulhsu,
    Mulhu,
    Div,
    Divu,
    Rem,
    Remu,
    Addw,
    Sllw,
    Srlw,
    Subw,
    Sraw,
    Mulw,
    Divw,
    Divuw,
    Remw,
    Remuw,
}

/// Operations on a register and an immediate.
#[derive(Clone, Copy, PartialEq, Eq, Debug)]
pub enum ImmOp {
    Addi,
    Slti,
    Sltiu,
    Xori,
    Ori,
    Andi,
    Addiw,
}

/// Shifts of a register by an immediate amount.
#[derive(Clone, Copy, PartialEq, Eq, Debug)]
pub enum ShiftOp {
    Slli,
    Srli,
    Srai,
    Slliw,
    Srliw,
    Sraiw,
}

/// Loads, of 1, 2, 4 or 8 bytes. A name that ends in `u` extends with zeros, the others with the sign.
#[derive(Clone, Copy, PartialEq, Eq, Debug)]
pub enum LoadOp {
    Lb,
    Lh,
    Lw,
    Ld,
    Lbu,
    Lhu,
    Lwu,
}

/// Stores, of 1, 2, 4 or 8 bytes.
#[derive(Clone, Copy, PartialEq, Eq, Debug)]
pub enum StoreOp {
    Sb,
    Sh,
    Sw,
    Sd,
}

/// Comparisons that branch.
#[derive(Clone, Copy, PartialEq, Eq, Debug)]
pub enum BranchOp {
    Beq,
    Bne,
    Blt,
    Bge,
    Bltu,
    Bgeu,
}

/// An instruction. Registers are numbers below 32, and `is_encodable` says which immediates and
/// offsets have a word.
#[derive(Clone, Copy, PartialEq, Eq, Debug)]
pub enum Insn {
    Reg {
        op: RegOp,
        rd: u8,
        rs1: u8,
        rs2: u8,
    },
    Imm {
        op: ImmOp,
        rd: u8,
        rs1: u8,
        imm: i16,
    },
    Shift {
        op: ShiftOp,
        rd: u8,
        rs1: u8,
        amount: u8,
    },
    Load {
        op: LoadOp,
        rd: u8,
        base: u8,
        imm: i16,
    },
    Store {
        op: StoreOp,
        rs2: u8,
        base: u8,
        imm: i16,
    },
    /// A branch to an offset in bytes from this instruction.
    Branch {
        op: BranchOp,
        rs1: u8,
        rs2: u8,
        offset: i16,
    },
    /// `high` is the upper 20 bits of the value.
    Lui {
        rd: u8,
        high: u32,
    },
    /// `high` is the upper 20 bits of what is added to the address of this instruction.
    Auipc {
        rd: u8,
        high: u32,
    },
    /// A jump to an offset in bytes from this instruction.
    Jal {
        rd: u8,
        offset: i32,
    },
    Jalr {
        rd: u8,
        base: u8,
        imm: i16,
    },
    /// It does nothing. `rd`, `rs1` and `imm` are the other fields of its word.
    Fence {
        rd: u8,
        rs1: u8,
        imm: i16,
    },
    Ecall,
}
