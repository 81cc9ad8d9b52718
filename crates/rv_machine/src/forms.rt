//! The forms of instructions that touch the registers and the pc alone. Each leads to `Going`.

ghost use Rattle.std.specs.Prelude.{◌≡◌, ◌+◌, ◌*◌, ◌/◌, ◌%◌, ◌^◌, ◌<◌, slice_index, if◌then◌else◌};
ghost use Rattle.std.specs.Int.{cast_unsigned, w64};
ghost use Rattle.rv_insn.specs.Operations.{reg_value, imm_value, shift_value, is_taken, upper_value};
ghost use Rattle.rv_insn.specs.Step.{set_reg, displaced};

use crate::operations::{of_immediate, of_registers, of_shift, of_upper, takes};
use rv_insn::{BranchOp, Event, ImmOp, RegOp, ShiftOp};

/// An address and a number with a sign. Addresses wrap at 2^64.
#[inline(always)]
pub fn displace(address: u64, offset: i64) -> u64
    ensures { result ≡ displaced address offset }
{
    address.wrapping_add(offset.cast_unsigned())
}

// Gives a register a value. x0 stays as it is.
#[inline(always)]
fn write(regs: &mut [u64; 32], rd: u8, value: u64)
    requires { rd < 32 }
    ensures { regs.new ≡ set_reg regs.old rd value }
{
    if rd != 0 {
        regs[rd as usize] = value;
    }
}

/// Gives rd a value, and goes on to the instruction behind.
#[inline(always)]
pub fn put(value: u64, rd: u8, regs: &mut [u64; 32], pc: &mut u64) -> Event
    requires rd { rd < 32 }
    requires near { pc.old < 2 ^ 32 }
    ensures going { result ≡ Event.Going }
    ensures regs { regs.new ≡ set_reg regs.old rd value }
    ensures pc { pc.new ≡ pc.old + 4 }
{
    write(regs, rd, value);
    *pc += 4;
    Event::Going
}

/// An operation on two registers.
#[inline(always)]
pub fn on_registers(
    op: RegOp,
    rd: u8,
    rs1: u8,
    rs2: u8,
    regs: &mut [u64; 32],
    pc: &mut u64,
) -> Event
    requires rd { rd < 32 }
    requires rs1 { rs1 < 32 }
    requires rs2 { rs2 < 32 }
    requires near { pc.old < 2 ^ 32 }
    ensures going { result ≡ Event.Going }
    ensures regs { regs.new ≡ set_reg regs.old rd (reg_value op (slice_index regs.old rs1) (slice_index regs.old rs2)) }
    ensures pc { pc.new ≡ pc.old + 4 }
{
    let value = of_registers(op, regs[rs1 as usize], regs[rs2 as usize]);
    put(value, rd, regs, pc)
}

/// An operation on a register and an immediate.
#[inline(always)]
pub fn on_immediate(
    op: ImmOp,
    rd: u8,
    rs1: u8,
    imm: i16,
    regs: &mut [u64; 32],
    pc: &mut u64,
) -> Event
    requires rd { rd < 32 }
    requires rs1 { rs1 < 32 }
    requires near { pc.old < 2 ^ 32 }
    ensures going { result ≡ Event.Going }
    ensures regs { regs.new ≡ set_reg regs.old rd (imm_value op (slice_index regs.old rs1) (cast_unsigned w64 imm)) }
    ensures pc { pc.new ≡ pc.old + 4 }
{
    let value = of_immediate(op, regs[rs1 as usize], (imm as i64).cast_unsigned());
    put(value, rd, regs, pc)
}

/// A shift of a register by an amount.
#[inline(always)]
pub fn on_shift(
    op: ShiftOp,
    rd: u8,
    rs1: u8,
    amount: u8,
    regs: &mut [u64; 32],
    pc: &mut u64,
) -> Event
    requires rd { rd < 32 }
    requires rs1 { rs1 < 32 }
    requires near { pc.old < 2 ^ 32 }
    ensures going { result ≡ Event.Going }
    ensures regs { regs.new ≡ set_reg regs.old rd (shift_value op (slice_index regs.old rs1) amount) }
    ensures pc { pc.new ≡ pc.old + 4 }
{
    let value = of_shift(op, regs[rs1 as usize], amount as u64);
    put(value, rd, regs, pc)
}

/// AUIPC.
#[inline(always)]
pub fn add_upper(rd: u8, high: u32, regs: &mut [u64; 32], pc: &mut u64) -> Event
    requires rd { rd < 32 }
    requires near { pc.old < 2 ^ 32 }
    ensures going { result ≡ Event.Going }
    ensures regs { regs.new ≡ set_reg regs.old rd ((pc.old + upper_value high) % 2 ^ 64) }
    ensures pc { pc.new ≡ pc.old + 4 }
{
    let value = pc.wrapping_add(of_upper(high));
    put(value, rd, regs, pc)
}

/// A branch.
#[inline(always)]
pub fn branch(op: BranchOp, rs1: u8, rs2: u8, offset: i16, regs: &[u64; 32], pc: &mut u64) -> Event
    requires rs1 { rs1 < 32 }
    requires rs2 { rs2 < 32 }
    requires near { pc.old < 2 ^ 32 }
    ensures going { result ≡ Event.Going }
    ensures pc { pc.new ≡ (if is_taken op (slice_index regs.now rs1) (slice_index regs.now rs2) then displaced pc.old offset else pc.old + 4) }
{
    let here = *pc;
    if takes(op, regs[rs1 as usize], regs[rs2 as usize]) {
        *pc = displace(here, offset as i64);
    } else {
        *pc = here + 4;
    }
    Event::Going
}

/// JAL.
#[inline(always)]
pub fn jump(rd: u8, offset: i32, regs: &mut [u64; 32], pc: &mut u64) -> Event
    requires rd { rd < 32 }
    requires near { pc.old < 2 ^ 32 }
    ensures going { result ≡ Event.Going }
    ensures regs { regs.new ≡ set_reg regs.old rd (pc.old + 4) }
    ensures pc { pc.new ≡ displaced pc.old offset }
{
    let here = *pc;
    write(regs, rd, here + 4);
    *pc = displace(here, offset as i64);
    Event::Going
}

/// JALR. The target is computed before rd is written, and its bit 0 is cleared.
#[inline(always)]
pub fn jump_register(rd: u8, base: u8, imm: i16, regs: &mut [u64; 32], pc: &mut u64) -> Event
    requires rd { rd < 32 }
    requires base { base < 32 }
    requires near { pc.old < 2 ^ 32 }
    ensures going { result ≡ Event.Going }
    ensures regs { regs.new ≡ set_reg regs.old rd (pc.old + 4) }
    ensures pc { pc.new ≡ displaced (slice_index regs.old base) imm / 2 * 2 }
{
    let here = *pc;
    let target = displace(regs[base as usize], imm as i64);
    write(regs, rd, here + 4);
    *pc = target / 2 * 2;
    Event::Going
}
