//! The fixed fields of the operations' words, both ways.

ghost use Rattle.std.specs.Prelude.{◌≡◌, ◌<◌, ◌^◌, ◌-◌, IfSome};
ghost use Rattle.rv_insn.specs.Encoding.{code, short_code, reg_code, shift_code, imm_code, load_code, store_code, branch_code, amount_bits};
ghost use Rattle.rv_insn.specs.declared.instructions.RegOp.{RegOp};
ghost use Rattle.rv_insn.specs.declared.instructions.ShiftOp.{ShiftOp};
ghost use Rattle.rv_insn.specs.declared.instructions.ImmOp.{ImmOp};
ghost use Rattle.rv_insn.specs.declared.instructions.LoadOp.{LoadOp};
ghost use Rattle.rv_insn.specs.declared.instructions.StoreOp.{StoreOp};
ghost use Rattle.rv_insn.specs.declared.instructions.BranchOp.{BranchOp};

use crate::instructions::{BranchOp, ImmOp, LoadOp, RegOp, ShiftOp, StoreOp};

// The opcodes, by the names of the manual's opcode map.
pub(crate) const LOAD: u32 = 0b0000011;

pub(crate) const MISC_MEM: u32 = 0b0001111;

pub(crate) const OP_IMM: u32 = 0b0010011;

pub(crate) const AUIPC: u32 = 0b0010111;

pub(crate) const OP_IMM_32: u32 = 0b0011011;

pub(crate) const STORE: u32 = 0b0100011;

pub(crate) const OP: u32 = 0b0110011;

pub(crate) const LUI: u32 = 0b0110111;

pub(crate) const OP_32: u32 = 0b0111011;

pub(crate) const BRANCH: u32 = 0b1100011;

pub(crate) const JALR: u32 = 0b1100111;

pub(crate) const JAL: u32 = 0b1101111;

pub(crate) const SYSTEM: u32 = 0b1110011;

/// The fixed fields of a word of an operation: what stands above the operands, funct3 and opcode.
#[derive(Clone, Copy)]
pub(crate) struct Fixed {
    pub top: u32,
    pub funct3: u32,
    pub opcode: u32,
}

impl RegOp {
    /// The operation of the fixed fields.
    pub(crate) fn of_fields(top: u32, funct3: u32, opcode: u32) -> Option<RegOp>
        ensures sound { IfSome result (λ op. reg_code op ≡ code top funct3 opcode) }
        ensures complete { (op : RegOp) → reg_code op ≡ code top funct3 opcode → result ≡ Some op }
    {
        match (top, funct3, opcode) {
            (0b0000000, 0b000, OP) => Some(RegOp::Add),
            (0b0100000, 0b000, OP) => Some(RegOp::Sub),
            (0b0000000, 0b001, OP) => Some(RegOp::Sll),
            (0b0000000, 0b010, OP) => Some(RegOp::Slt),
            (0b0000000, 0b011, OP) => Some(RegOp::Sltu),
            (0b0000000, 0b100, OP) => Some(RegOp::Xor),
            (0b0000000, 0b101, OP) => Some(RegOp::Srl),
            (0b0100000, 0b101, OP) => Some(RegOp::Sra),
            (0b0000000, 0b110, OP) => Some(RegOp::Or),
            (0b0000000, 0b111, OP) => Some(RegOp::And),
            (0b0000000, 0b000, OP_32) => Some(RegOp::Addw),
            (0b0100000, 0b000, OP_32) => Some(RegOp::Subw),
            (0b0000000, 0b001, OP_32) => Some(RegOp::Sllw),
            (0b0000000, 0b101, OP_32) => Some(RegOp::Srlw),
            (0b0100000, 0b101, OP_32) => Some(RegOp::Sraw),
            (0b0000001, 0b000, OP) => Some(RegOp::Mul),
            (0b0000001, 0b001, OP) => Some(RegOp::Mulh),
            (0b0000001, 0b010, OP) => Some(RegOp::Mulhsu),
            (0b0000001, 0b011, OP) => Some(RegOp::Mulhu),
            (0b0000001, 0b100, OP) => Some(RegOp::Div),
            (0b0000001, 0b101, OP) => Some(RegOp::Divu),
            (0b0000001, 0b110, OP) => Some(RegOp::Rem),
            (0b0000001, 0b111, OP) => Some(RegOp::Remu),
            (0b0000001, 0b000, OP_32) => Some(RegOp::Mulw),
            (0b0000001, 0b100, OP_32) => Some(RegOp::Divw),
            (0b0000001, 0b101, OP_32) => Some(RegOp::Divuw),
            (0b0000001, 0b110, OP_32) => Some(RegOp::Remw),
            (0b0000001, 0b111, OP_32) => Some(RegOp::Remuw),
            _ => None,
        }
    }

    /// The fixed fields of the operation.
    pub(crate) fn fields(self) -> Fixed
        ensures top { result.top ≡ (reg_code self).top }
        ensures funct3 { result.funct3 ≡ (reg_code self).funct3 }
        ensures opcode { result.opcode ≡ (reg_code self).opcode }
        ensures bounds { (result.top < 2 ^ 7) × (result.funct3 < 2 ^ 3) × (result.opcode < 2 ^ 7) }
    {
        let (top, funct3, opcode) = match self {
            RegOp::Add => (0b0000000, 0b000, OP),
            RegOp::Sub => (0b0100000, 0b000, OP),
            RegOp::Sll => (0b0000000, 0b001, OP),
            RegOp::Slt => (0b0000000, 0b010, OP),
            RegOp::Sltu => (0b0000000, 0b011, OP),
            RegOp::Xor => (0b0000000, 0b100, OP),
            RegOp::Srl => (0b0000000, 0b101, OP),
            RegOp::Sra => (0b0100000, 0b101, OP),
            RegOp::Or => (0b0000000, 0b110, OP),
            RegOp::And => (0b0000000, 0b111, OP),
            RegOp::Addw => (0b0000000, 0b000, OP_32),
            RegOp::Subw => (0b0100000, 0b000, OP_32),
            RegOp::Sllw => (0b0000000, 0b001, OP_32),
            RegOp::Srlw => (0b0000000, 0b101, OP_32),
            RegOp::Sraw => (0b0100000, 0b101, OP_32),
            RegOp::Mul => (0b0000001, 0b000, OP),
            RegOp::Mulh => (0b0000001, 0b001, OP),
            RegOp::Mulhsu => (0b0000001, 0b010, OP),
            RegOp::Mulhu => (0b0000001, 0b011, OP),
            RegOp::Div => (0b0000001, 0b100, OP),
            RegOp::Divu => (0b0000001, 0b101, OP),
            RegOp::Rem => (0b0000001, 0b110, OP),
            RegOp::Remu => (0b0000001, 0b111, OP),
            RegOp::Mulw => (0b0000001, 0b000, OP_32),
            RegOp::Divw => (0b0000001, 0b100, OP_32),
            RegOp::Divuw => (0b0000001, 0b101, OP_32),
            RegOp::Remw => (0b0000001, 0b110, OP_32),
            RegOp::Remuw => (0b0000001, 0b111, OP_32),
        };
        Fixed {
            top,
            funct3,
            opcode,
        }
    }
}

impl ShiftOp {
    /// The operation of the fixed fields.
    pub(crate) fn of_fields(top: u32, funct3: u32, opcode: u32) -> Option<ShiftOp>
        ensures sound { IfSome result (λ op. shift_code op ≡ code top funct3 opcode) }
        ensures complete { (op : ShiftOp) → shift_code op ≡ code top funct3 opcode → result ≡ Some op }
        ensures full { opcode ≡ OP_IMM → IfSome result (λ op. amount_bits op ≡ 6) }
        ensures short { opcode ≡ OP_IMM_32 → IfSome result (λ op. amount_bits op ≡ 5) }
    {
        match (top, funct3, opcode) {
            (0b000000, 0b001, OP_IMM) => Some(ShiftOp::Slli),
            (0b000000, 0b101, OP_IMM) => Some(ShiftOp::Srli),
            (0b010000, 0b101, OP_IMM) => Some(ShiftOp::Srai),
            (0b0000000, 0b001, OP_IMM_32) => Some(ShiftOp::Slliw),
            (0b0000000, 0b101, OP_IMM_32) => Some(ShiftOp::Srliw),
            (0b0100000, 0b101, OP_IMM_32) => Some(ShiftOp::Sraiw),
            _ => None,
        }
    }

    /// The fixed fields of the operation.
    pub(crate) fn fields(self) -> Fixed
        ensures top { result.top ≡ (shift_code self).top }
        ensures funct3 { result.funct3 ≡ (shift_code self).funct3 }
        ensures opcode { result.opcode ≡ (shift_code self).opcode }
        ensures bounds { (result.top < 2 ^ (12 - amount_bits self)) × (result.funct3 < 2 ^ 3) × (result.opcode < 2 ^ 7) }
    {
        let (top, funct3, opcode) = match self {
            ShiftOp::Slli => (0b000000, 0b001, OP_IMM),
            ShiftOp::Srli => (0b000000, 0b101, OP_IMM),
            ShiftOp::Srai => (0b010000, 0b101, OP_IMM),
            ShiftOp::Slliw => (0b0000000, 0b001, OP_IMM_32),
            ShiftOp::Srliw => (0b0000000, 0b101, OP_IMM_32),
            ShiftOp::Sraiw => (0b0100000, 0b101, OP_IMM_32),
        };
        Fixed {
            top,
            funct3,
            opcode,
        }
    }
}

impl ShiftOp {
    /// How many amounts the operation has.
    pub(crate) fn amounts(self) -> u8
        ensures { result ≡ 2 ^ amount_bits self }
    {
        match self {
            ShiftOp::Slli | ShiftOp::Srli | ShiftOp::Srai => 64,
            ShiftOp::Slliw | ShiftOp::Srliw | ShiftOp::Sraiw => 32,
        }
    }
}

impl ImmOp {
    /// The operation of the fixed fields.
    pub(crate) fn of_fields(funct3: u32, opcode: u32) -> Option<ImmOp>
        ensures sound { IfSome result (λ op. imm_code op ≡ short_code funct3 opcode) }
        ensures complete { (op : ImmOp) → imm_code op ≡ short_code funct3 opcode → result ≡ Some op }
    {
        match (funct3, opcode) {
            (0b000, OP_IMM) => Some(ImmOp::Addi),
            (0b010, OP_IMM) => Some(ImmOp::Slti),
            (0b011, OP_IMM) => Some(ImmOp::Sltiu),
            (0b100, OP_IMM) => Some(ImmOp::Xori),
            (0b110, OP_IMM) => Some(ImmOp::Ori),
            (0b111, OP_IMM) => Some(ImmOp::Andi),
            (0b000, OP_IMM_32) => Some(ImmOp::Addiw),
            _ => None,
        }
    }

    /// The fixed fields of the operation: funct3 and opcode.
    pub(crate) fn fields(self) -> (u32, u32)
        ensures funct3 { result.0 ≡ (imm_code self).funct3 }
        ensures opcode { result.1 ≡ (imm_code self).opcode }
        ensures bounds { (result.0 < 2 ^ 3) × (result.1 < 2 ^ 7) }
    {
        match self {
            ImmOp::Addi => (0b000, OP_IMM),
            ImmOp::Slti => (0b010, OP_IMM),
            ImmOp::Sltiu => (0b011, OP_IMM),
            ImmOp::Xori => (0b100, OP_IMM),
            ImmOp::Ori => (0b110, OP_IMM),
            ImmOp::Andi => (0b111, OP_IMM),
            ImmOp::Addiw => (0b000, OP_IMM_32),
        }
    }
}

impl LoadOp {
    /// The operation of the fixed fields.
    pub(crate) fn of_fields(funct3: u32, opcode: u32) -> Option<LoadOp>
        ensures sound { IfSome result (λ op. load_code op ≡ short_code funct3 opcode) }
        ensures complete { (op : LoadOp) → load_code op ≡ short_code funct3 opcode → result ≡ Some op }
    {
        match (funct3, opcode) {
            (0b000, LOAD) => Some(LoadOp::Lb),
            (0b001, LOAD) => Some(LoadOp::Lh),
            (0b010, LOAD) => Some(LoadOp::Lw),
            (0b011, LOAD) => Some(LoadOp::Ld),
            (0b100, LOAD) => Some(LoadOp::Lbu),
            (0b101, LOAD) => Some(LoadOp::Lhu),
            (0b110, LOAD) => Some(LoadOp::Lwu),
            _ => None,
        }
    }

    /// The fixed fields of the operation: funct3 and opcode.
    pub(crate) fn fields(self) -> (u32, u32)
        ensures funct3 { result.0 ≡ (load_code self).funct3 }
        ensures opcode { result.1 ≡ (load_code self).opcode }
        ensures bounds { (result.0 < 2 ^ 3) × (result.1 < 2 ^ 7) }
    {
        match self {
            LoadOp::Lb => (0b000, LOAD),
            LoadOp::Lh => (0b001, LOAD),
            LoadOp::Lw => (0b010, LOAD),
            LoadOp::Ld => (0b011, LOAD),
            LoadOp::Lbu => (0b100, LOAD),
            LoadOp::Lhu => (0b101, LOAD),
            LoadOp::Lwu => (0b110, LOAD),
        }
    }
}

impl StoreOp {
    /// The operation of the fixed fields.
    pub(crate) fn of_fields(funct3: u32, opcode: u32) -> Option<StoreOp>
        ensures sound { IfSome result (λ op. store_code op ≡ short_code funct3 opcode) }
        ensures complete { (op : StoreOp) → store_code op ≡ short_code funct3 opcode → result ≡ Some op }
    {
        match (funct3, opcode) {
            (0b000, STORE) => Some(StoreOp::Sb),
            (0b001, STORE) => Some(StoreOp::Sh),
            (0b010, STORE) => Some(StoreOp::Sw),
            (0b011, STORE) => Some(StoreOp::Sd),
            _ => None,
        }
    }

    /// The fixed fields of the operation: funct3 and opcode.
    pub(crate) fn fields(self) -> (u32, u32)
        ensures funct3 { result.0 ≡ (store_code self).funct3 }
        ensures opcode { result.1 ≡ (store_code self).opcode }
        ensures bounds { (result.0 < 2 ^ 3) × (result.1 < 2 ^ 7) }
    {
        match self {
            StoreOp::Sb => (0b000, STORE),
            StoreOp::Sh => (0b001, STORE),
            StoreOp::Sw => (0b010, STORE),
            StoreOp::Sd => (0b011, STORE),
        }
    }
}

impl BranchOp {
    /// The operation of the fixed fields.
    pub(crate) fn of_fields(funct3: u32, opcode: u32) -> Option<BranchOp>
        ensures sound { IfSome result (λ op. branch_code op ≡ short_code funct3 opcode) }
        ensures complete { (op : BranchOp) → branch_code op ≡ short_code funct3 opcode → result ≡ Some op }
    {
        match (funct3, opcode) {
            (0b000, BRANCH) => Some(BranchOp::Beq),
            (0b001, BRANCH) => Some(BranchOp::Bne),
            (0b100, BRANCH) => Some(BranchOp::Blt),
            (0b101, BRANCH) => Some(BranchOp::Bge),
            (0b110, BRANCH) => Some(BranchOp::Bltu),
            (0b111, BRANCH) => Some(BranchOp::Bgeu),
            _ => None,
        }
    }

    /// The fixed fields of the operation: funct3 and opcode.
    pub(crate) fn fields(self) -> (u32, u32)
        ensures funct3 { result.0 ≡ (branch_code self).funct3 }
        ensures opcode { result.1 ≡ (branch_code self).opcode }
        ensures bounds { (result.0 < 2 ^ 3) × (result.1 < 2 ^ 7) }
    {
        match self {
            BranchOp::Beq => (0b000, BRANCH),
            BranchOp::Bne => (0b001, BRANCH),
            BranchOp::Blt => (0b100, BRANCH),
            BranchOp::Bge => (0b101, BRANCH),
            BranchOp::Bltu => (0b110, BRANCH),
            BranchOp::Bgeu => (0b111, BRANCH),
        }
    }
}
