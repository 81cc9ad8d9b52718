//! What the operations compute, on register values.

ghost use Rattle.std.specs.Prelude.{◌≡◌, ◌^◌, ◌<◌};
ghost use Rattle.rv_insn.specs.Operations.{sign_extended, word_result, is_less, shifted_arithmetic, word_shifted_arithmetic, widened, upper_half, quotient, remainder, unsigned_quotient, unsigned_remainder, word_quotient, word_remainder, unsigned_word_quotient, reg_value, imm_value, shift_value, is_taken, upper_value};

use rv_insn::{BranchOp, ImmOp, RegOp, ShiftOp};

// 2 to the 32nd.
const WORD: u64 = 0x1_0000_0000;

/// The low 8 bits of a number, sign-extended.
#[inline(always)]
pub fn byte_extended(n: u64) -> u64
    ensures { result ≡ sign_extended 8 n }
{
    let low = n % 256;
    if low < 128 {
        low
    } else {
        low + 0xffff_ffff_ffff_ff00
    }
}

/// The low 16 bits of a number, sign-extended.
#[inline(always)]
pub fn half_extended(n: u64) -> u64
    ensures { result ≡ sign_extended 16 n }
{
    let low = n % 65536;
    if low < 32768 {
        low
    } else {
        low + 0xffff_ffff_ffff_0000
    }
}

/// The low 32 bits of a number, sign-extended.
#[inline(always)]
pub fn word_extended(n: u64) -> u64
    ensures { result ≡ word_result n }
{
    (((n % WORD) as u32).cast_signed() as i64).cast_unsigned()
}

#[inline(always)]
fn is_below(a: u64, b: u64) -> bool
    ensures { result ≡ is_less a b }
{
    a.cast_signed() < b.cast_signed()
}

#[inline(always)]
fn shift_arithmetic(a: u64, amount: u64) -> u64
    requires { amount < 64 }
    ensures { result ≡ shifted_arithmetic a amount }
{
    (a.cast_signed() >> amount).cast_unsigned()
}

#[inline(always)]
fn word_shift_arithmetic(a: u64, amount: u64) -> u64
    requires word { a < 2 ^ 32 }
    requires amount { amount < 32 }
    ensures { result ≡ word_shifted_arithmetic a amount }
{
    ((a as u32).cast_signed() >> amount).cast_unsigned() as u64
}

#[inline(always)]
fn divide(a: u64, b: u64) -> u64
    ensures { result ≡ quotient a b }
{
    if b == 0 {
        u64::MAX
    } else {
        a.cast_signed()
            .wrapping_div(b.cast_signed())
            .cast_unsigned()
    }
}

#[inline(always)]
fn rest(a: u64, b: u64) -> u64
    ensures { result ≡ remainder a b }
{
    if b == 0 {
        a
    } else {
        a.cast_signed()
            .wrapping_rem(b.cast_signed())
            .cast_unsigned()
    }
}

#[inline(always)]
fn divide_unsigned(a: u64, b: u64) -> u64
    ensures { result ≡ unsigned_quotient a b }
{
    if b == 0 { u64::MAX } else { a / b }
}

#[inline(always)]
fn rest_unsigned(a: u64, b: u64) -> u64
    ensures { result ≡ unsigned_remainder a b }
{
    if b == 0 { a } else { a % b }
}

#[inline(always)]
fn divide_words(a: u64, b: u64) -> u64
    requires a { a < 2 ^ 32 }
    requires b { b < 2 ^ 32 }
    ensures { result ≡ word_quotient a b }
{
    if b == 0 {
        0xffff_ffff
    } else {
        (a as u32)
            .cast_signed()
            .wrapping_div((b as u32).cast_signed())
            .cast_unsigned() as u64
    }
}

#[inline(always)]
fn rest_of_words(a: u64, b: u64) -> u64
    requires a { a < 2 ^ 32 }
    requires b { b < 2 ^ 32 }
    ensures { result ≡ word_remainder a b }
{
    if b == 0 {
        a
    } else {
        (a as u32)
            .cast_signed()
            .wrapping_rem((b as u32).cast_signed())
            .cast_unsigned() as u64
    }
}

#[inline(always)]
fn divide_unsigned_words(a: u64, b: u64) -> u64
    ensures { result ≡ unsigned_word_quotient a b }
{
    if b == 0 { 0xffff_ffff } else { a / b }
}

// 64 bits, sign-extended to 128.
#[inline(always)]
fn widen(a: u64) -> u128
    ensures { result ≡ widened a }
{
    let wide = a as u128;
    if a < 0x8000_0000_0000_0000 {
        wide
    } else {
        wide + 0xffff_ffff_ffff_ffff_0000_0000_0000_0000
    }
}

#[inline(always)]
fn upper_product(a: u128, b: u128) -> u64
    ensures { result ≡ upper_half a b }
{
    (a.wrapping_mul(b) >> 64) as u64
}

/// The value of an operation on two registers. No operation traps: a division by zero and one that
/// overflows have the values that the RISC-V manual gives them.
#[inline(always)]
#[tactic(auto, unfolding(rv_insn::specs::Operations::reg_value))]
pub fn of_registers(op: RegOp, a: u64, b: u64) -> u64
    ensures { result ≡ reg_value op a b }
{
    match op {
        RegOp::Add => a.wrapping_add(b),
        RegOp::Sub => a.wrapping_sub(b),
        RegOp::Sll => a << (b % 64),
        RegOp::Slt => is_below(a, b) as u64,
        RegOp::Sltu => (a < b) as u64,
        RegOp::Xor => a ^ b,
        RegOp::Srl => a >> (b % 64),
        RegOp::Sra => shift_arithmetic(a, b % 64),
        RegOp::Or => a | b,
        RegOp::And => a & b,
        RegOp::Mul => a.wrapping_mul(b),
        RegOp::Mulh => upper_product(widen(a), widen(b)),
        RegOp::Mulhsu => upper_product(widen(a), b as u128),
        RegOp::Mulhu => upper_product(a as u128, b as u128),
        RegOp::Div => divide(a, b),
        RegOp::Divu => divide_unsigned(a, b),
        RegOp::Rem => rest(a, b),
        RegOp::Remu => rest_unsigned(a, b),
        RegOp::Addw => word_extended(a.wrapping_add(b)),
        RegOp::Subw => word_extended(a.wrapping_sub(b)),
        RegOp::Sllw => word_extended(a << (b % 32)),
        RegOp::Srlw => word_extended((a % WORD) >> (b % 32)),
        RegOp::Sraw => word_extended(word_shift_arithmetic(a % WORD, b % 32)),
        RegOp::Mulw => word_extended(a.wrapping_mul(b)),
        RegOp::Divw => word_extended(divide_words(a % WORD, b % WORD)),
        RegOp::Divuw => word_extended(divide_unsigned_words(a % WORD, b % WORD)),
        RegOp::Remw => word_extended(rest_of_words(a % WORD, b % WORD)),
        RegOp::Remuw => word_extended(rest_unsigned(a % WORD, b % WORD)),
    }
}

/// The value of an operation on a register and a sign-extended immediate.
#[inline(always)]
#[tactic(auto, unfolding(rv_insn::specs::Operations::imm_value))]
pub fn of_immediate(op: ImmOp, a: u64, b: u64) -> u64
    ensures { result ≡ imm_value op a b }
{
    match op {
        ImmOp::Addi => a.wrapping_add(b),
        ImmOp::Slti => is_below(a, b) as u64,
        ImmOp::Sltiu => (a < b) as u64,
        ImmOp::Xori => a ^ b,
        ImmOp::Ori => a | b,
        ImmOp::Andi => a & b,
        ImmOp::Addiw => word_extended(a.wrapping_add(b)),
    }
}

/// The value of a shift by an amount that the instruction gives.
#[inline(always)]
#[tactic(auto, unfolding(rv_insn::specs::Operations::shift_value))]
pub fn of_shift(op: ShiftOp, a: u64, amount: u64) -> u64
    ensures { result ≡ shift_value op a amount }
{
    match op {
        ShiftOp::Slli => a << (amount % 64),
        ShiftOp::Srli => a >> (amount % 64),
        ShiftOp::Srai => shift_arithmetic(a, amount % 64),
        ShiftOp::Slliw => word_extended(a << (amount % 32)),
        ShiftOp::Srliw => word_extended((a % WORD) >> (amount % 32)),
        ShiftOp::Sraiw => word_extended(word_shift_arithmetic(a % WORD, amount % 32)),
    }
}

/// Whether a branch on two registers is taken.
#[inline(always)]
#[tactic(auto, unfolding(rv_insn::specs::Operations::is_taken))]
pub fn takes(op: BranchOp, a: u64, b: u64) -> bool
    ensures { result ≡ is_taken op a b }
{
    match op {
        BranchOp::Beq => a == b,
        BranchOp::Bne => a != b,
        BranchOp::Blt => is_below(a, b),
        BranchOp::Bge => !is_below(a, b),
        BranchOp::Bltu => a < b,
        BranchOp::Bgeu => a >= b,
    }
}

/// What LUI gives and AUIPC adds: 20 bits above twelve zeros, sign-extended from 32 bits.
#[inline(always)]
pub fn of_upper(high: u32) -> u64
    ensures { result ≡ upper_value high }
{
    word_extended(high as u64 * 4096)
}
