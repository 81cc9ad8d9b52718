//! Which pattern begins at a word of the code, by its words alone.

ghost use Rattle.std.specs.Prelude.{◌≡◌, ℕ, ℤ, IfSome, Some, IsTrue, ◌↔◌, ◌++◌, drop};
ghost use Rattle.rv_guard.specs.Patterns.{IsCompound};
ghost use Rattle.rv_guard.specs.Cutting.{Begins};
ghost use Rattle.fy_audit.specs.Words.{IsFarJump, stack_check_end, table_check_end, entry_end, fault_end};
ghost use Rattle.rv_guard.specs.declared.pieces.Piece.{Piece};

use rv_guard::Piece;
use rv_insn::{BranchOp, ImmOp, Insn, RegOp};

pub fn far_jump(insns: &[Insn]) -> Option<Piece>
    ensures sound { IfSome result (λ piece. IsCompound piece × Begins piece insns.now) }
    ensures far { IfSome result (λ piece. IsFarJump piece) }
    ensures complete { (rd high : ℕ) (low : ℤ) → Begins (Piece.FarJump rd high low) insns.now → result ≡ Some (Piece.FarJump rd high low) }
{
    match insns {
        [
            Insn::Auipc { rd: 31, high },
            Insn::Jalr { rd, base: 31, imm },
            ..
        ] => {
            Some(Piece::FarJump {
                link: *rd,
                high: *high,
                low: *imm,
            })
        }
        _ => None,
    }
}

fn service(insns: &[Insn]) -> Option<Piece>
    ensures sound { IfSome result (λ piece. IsCompound piece × Begins piece insns.now) }
    ensures complete { (k : ℕ) → Begins (Piece.ServiceCall k) insns.now → result ≡ Some (Piece.ServiceCall k) }
{
    match insns {
        [
            Insn::Imm {
                op: ImmOp::Addi,
                rd: 17,
                rs1: 0,
                imm,
            },
            Insn::Ecall,
            ..
        ] if *imm >= 0 => Some(Piece::ServiceCall {
            number: *imm as u16,
        }),
        _ => None,
    }
}

// Whether these are the last three of a near check or a table check of a register.
fn is_table_check_end(insns: &[Insn], register: u8) -> bool
    ensures { IsTrue result ↔ (insns.now ≡ table_check_end register ++ drop 3 insns.now) }
{
    match insns {
        [
            Insn::Branch {
                op: BranchOp::Bltu,
                rs1: 31,
                rs2: r1,
                offset: 0,
            },
            Insn::Imm {
                op: ImmOp::Andi,
                rd: 31,
                rs1: r2,
                imm: 7,
            },
            Insn::Branch {
                op: BranchOp::Bne,
                rs1: 31,
                rs2: 0,
                offset: 0,
            },
            ..
        ] => *r1 == register && *r2 == register,
        _ => false,
    }
}

fn table_check(insns: &[Insn]) -> Option<Piece>
    ensures sound { IfSome result (λ piece. IsCompound piece × Begins piece insns.now) }
    ensures complete { (r high : ℕ) (low : ℤ) → Begins (Piece.TableCheck r high low) insns.now → result ≡ Some (Piece.TableCheck r high low) }
{
    match insns {
        [
            Insn::Branch {
                op: BranchOp::Bltu,
                rs1: r,
                rs2: 4,
                offset: 0,
            },
            Insn::Lui { rd: 31, high },
            Insn::Imm {
                op: ImmOp::Addi,
                rd: 31,
                rs1: 31,
                imm,
            },
            rest @ ..,
        ] if is_table_check_end(rest, *r) => Some(Piece::TableCheck {
            register: *r,
            high: *high,
            low: *imm,
        }),
        _ => None,
    }
}

// Whether these are the last four of a stack check of a register.
fn is_stack_check_end(insns: &[Insn], register: u8) -> bool
    ensures { IsTrue result ↔ (insns.now ≡ stack_check_end register ++ drop 4 insns.now) }
{
    match insns {
        [
            Insn::Reg {
                op: RegOp::Add,
                rd: 31,
                rs1: 31,
                rs2: r1,
            },
            Insn::Branch {
                op: BranchOp::Bltu,
                rs1: 3,
                rs2: 31,
                offset: 0,
            },
            Insn::Imm {
                op: ImmOp::Andi,
                rd: 31,
                rs1: r2,
                imm: 7,
            },
            Insn::Branch {
                op: BranchOp::Bne,
                rs1: 31,
                rs2: 0,
                offset: 0,
            },
            ..
        ] => *r1 == register && *r2 == register,
        _ => false,
    }
}

fn stack_check(insns: &[Insn]) -> Option<Piece>
    ensures sound { IfSome result (λ piece. IsCompound piece × Begins piece insns.now) }
    ensures complete { (r high : ℕ) (low : ℤ) → Begins (Piece.StackCheck r high low) insns.now → result ≡ Some (Piece.StackCheck r high low) }
{
    match insns {
        [
            Insn::Branch {
                op: BranchOp::Bltu,
                rs1: r,
                rs2: 2,
                offset: 0,
            },
            Insn::Branch {
                op: BranchOp::Bltu,
                rs1: 3,
                rs2: r1,
                offset: 0,
            },
            Insn::Lui { rd: 31, high },
            Insn::Imm {
                op: ImmOp::Addi,
                rd: 31,
                rs1: 31,
                imm,
            },
            rest @ ..,
        ] if *r1 == *r && is_stack_check_end(rest, *r) => Some(Piece::StackCheck {
            register: *r,
            high: *high,
            low: *imm,
        }),
        _ => None,
    }
}

fn near_check(insns: &[Insn]) -> Option<Piece>
    ensures sound { IfSome result (λ piece. IsCompound piece × Begins piece insns.now) }
    ensures complete { (r : ℕ) (low : ℤ) → Begins (Piece.NearCheck r low) insns.now → result ≡ Some (Piece.NearCheck r low) }
{
    match insns {
        [
            Insn::Branch {
                op: BranchOp::Bltu,
                rs1: r,
                rs2: 2,
                offset: 0,
            },
            Insn::Imm {
                op: ImmOp::Addi,
                rd: 31,
                rs1: 3,
                imm,
            },
            rest @ ..,
        ] if is_table_check_end(rest, *r) => Some(Piece::NearCheck {
            register: *r,
            low: *imm,
        }),
        _ => None,
    }
}

// Whether these are the last four of an entry.
fn is_entry_end(insns: &[Insn]) -> bool
    ensures { IsTrue result ↔ (insns.now ≡ entry_end ++ drop 4 insns.now) }
{
    match insns {
        [
            Insn::Branch {
                op: BranchOp::Bgeu,
                rs1: 31,
                rs2: 30,
                offset: 0,
            },
            Insn::Lui { rd: 30, high: 16 },
            Insn::Reg {
                op: RegOp::Add,
                rd: 31,
                rs1: 31,
                rs2: 30,
            },
            Insn::Jalr {
                rd: 0,
                base: 31,
                imm: 0,
            },
            ..
        ] => true,
        _ => false,
    }
}

fn entry(insns: &[Insn]) -> Option<Piece>
    ensures sound { IfSome result (λ piece. IsCompound piece × Begins piece insns.now) }
    ensures complete { (r high : ℕ) (low : ℤ) → Begins (Piece.Entry r high low) insns.now → result ≡ Some (Piece.Entry r high low) }
{
    match insns {
        [
            Insn::Imm {
                op: ImmOp::Andi,
                rd: 31,
                rs1: r,
                imm: -8,
            },
            Insn::Lui { rd: 30, high },
            Insn::Imm {
                op: ImmOp::Addi,
                rd: 30,
                rs1: 30,
                imm,
            },
            rest @ ..,
        ] if is_entry_end(rest) => Some(Piece::Entry {
            register: *r,
            high: *high,
            low: *imm,
        }),
        _ => None,
    }
}

// Whether these are the last two of a fault.
fn is_fault_end(insns: &[Insn]) -> bool
    ensures { IsTrue result ↔ (insns.now ≡ fault_end ++ drop 2 insns.now) }
{
    match insns {
        [
            Insn::Imm {
                op: ImmOp::Addi,
                rd: 17,
                rs1: 0,
                imm: 3,
            },
            Insn::Ecall,
            ..
        ] => true,
        _ => false,
    }
}

fn fault(insns: &[Insn]) -> Option<Piece>
    ensures sound { IfSome result (λ piece. IsCompound piece × Begins piece insns.now) }
    ensures complete { (k high : ℕ) (low : ℤ) → Begins (Piece.FaultCall k high low) insns.now → result ≡ Some (Piece.FaultCall k high low) }
{
    match insns {
        [
            Insn::Imm {
                op: ImmOp::Addi,
                rd: 10,
                rs1: 0,
                imm: kind,
            },
            Insn::Lui { rd: 11, high },
            Insn::Imm {
                op: ImmOp::Addi,
                rd: 11,
                rs1: 11,
                imm,
            },
            rest @ ..,
        ] if *kind >= 0 && is_fault_end(rest) => Some(Piece::FaultCall {
            kind: *kind as u16,
            high: *high,
            low: *imm,
        }),
        _ => None,
    }
}

// The pattern whose words these begin with, whether or not its conditions hold.
pub fn shape(insns: &[Insn]) -> Option<Piece>
    ensures sound { IfSome result (λ piece. IsCompound piece × Begins piece insns.now) }
    ensures complete { (piece : Piece) → IsCompound piece → Begins piece insns.now → result ≡ Some piece }
{
    if let Some(piece) = far_jump(insns) {
        return Some(piece);
    }
    if let Some(piece) = stack_check(insns) {
        return Some(piece);
    }
    if let Some(piece) = near_check(insns) {
        return Some(piece);
    }
    if let Some(piece) = table_check(insns) {
        return Some(piece);
    }
    if let Some(piece) = entry(insns) {
        return Some(piece);
    }
    if let Some(piece) = service(insns) {
        return Some(piece);
    }
    fault(insns)
}
