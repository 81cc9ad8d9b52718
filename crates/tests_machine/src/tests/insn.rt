use rv_insn::{
    BranchOp, ImmOp, Insn, LoadOp, RegOp, ShiftOp, StoreOp, decode, encode, is_encodable,
    print_insn,
};
use std::test::Fail;

// Words that an assembler gives for these lines (RISC-V Unprivileged ISA, "RV32/64G Instruction Set
// Listings"): an instruction of each form, and what is read back of it.
const LINES: &[(&str, u32, Insn)] = &[
    (
        "addi x10, x0, 1",
        0x00100513,
        Insn::Imm {
            op: ImmOp::Addi,
            rd: 10,
            rs1: 0,
            imm: 1,
        },
    ),
    (
        "add x10, x11, x12",
        0x00c58533,
        Insn::Reg {
            op: RegOp::Add,
            rd: 10,
            rs1: 11,
            rs2: 12,
        },
    ),
    (
        "mulh x6, x7, x8",
        0x02839333,
        Insn::Reg {
            op: RegOp::Mulh,
            rd: 6,
            rs1: 7,
            rs2: 8,
        },
    ),
    (
        "ld x5, 8(x2)",
        0x00813283,
        Insn::Load {
            op: LoadOp::Ld,
            rd: 5,
            base: 2,
            imm: 8,
        },
    ),
    (
        "sd x5, 8(x2)",
        0x00513423,
        Insn::Store {
            op: StoreOp::Sd,
            rs2: 5,
            base: 2,
            imm: 8,
        },
    ),
    (
        "beq x5, x6, -4",
        0xfe628ee3,
        Insn::Branch {
            op: BranchOp::Beq,
            rs1: 5,
            rs2: 6,
            offset: -4,
        },
    ),
    ("jal x1, 8", 0x008000ef, Insn::Jal { rd: 1, offset: 8 }),
    (
        "jalr x1, 0(x5)",
        0x000280e7,
        Insn::Jalr {
            rd: 1,
            base: 5,
            imm: 0,
        },
    ),
    (
        "lui x5, 262144",
        0x400002b7,
        Insn::Lui {
            rd: 5,
            high: 262144,
        },
    ),
    (
        "auipc x31, 1048575",
        0xffffff97,
        Insn::Auipc {
            rd: 31,
            high: 1048575,
        },
    ),
    (
        "srai x5, x5, 63",
        0x43f2d293,
        Insn::Shift {
            op: ShiftOp::Srai,
            rd: 5,
            rs1: 5,
            amount: 63,
        },
    ),
    (
        "fence",
        0x0ff0000f,
        Insn::Fence {
            rd: 0,
            rs1: 0,
            imm: 255,
        },
    ),
    ("ecall", 0x00000073, Insn::Ecall),
];

#[test]
fn lines_and_words(rt: HostRuntime) -> Result<(), Fail> {
    for (line, word, insn) in LINES {
        assert!(rt; is_encodable(insn) && encode(insn) == *word, "{line}");
        let text = print_insn(rt.alloc(), insn)?;
        assert!(rt;
            decode(*word) == Some(*insn) && text.as_slice() == line.as_bytes(),
            "{line}"
        );
    }
    Ok(())
}

// Instructions at and past the limits of their fields, and whether they have a word.
const LIMITS: &[(Insn, bool)] = &[
    (
        Insn::Jal {
            rd: 0,
            offset: -1_048_576,
        },
        true,
    ),
    (
        Insn::Jal {
            rd: 0,
            offset: 1_048_574,
        },
        true,
    ),
    (
        Insn::Jal {
            rd: 0,
            offset: 1_048_576,
        },
        false,
    ),
    (
        Insn::Jal {
            rd: 0,
            offset: -1_048_578,
        },
        false,
    ),
    (Insn::Jal { rd: 0, offset: 3 }, false),
    (
        Insn::Shift {
            op: ShiftOp::Slli,
            rd: 0,
            rs1: 0,
            amount: 63,
        },
        true,
    ),
    (
        Insn::Shift {
            op: ShiftOp::Slli,
            rd: 0,
            rs1: 0,
            amount: 64,
        },
        false,
    ),
    (
        Insn::Shift {
            op: ShiftOp::Sraiw,
            rd: 0,
            rs1: 0,
            amount: 31,
        },
        true,
    ),
    (
        Insn::Shift {
            op: ShiftOp::Sraiw,
            rd: 0,
            rs1: 0,
            amount: 32,
        },
        false,
    ),
    (Insn::Lui { rd: 32, high: 0 }, false),
];

#[test]
fn limits_of_fields(rt: HostRuntime) {
    for (insn, has_word) in LIMITS {
        assert!(rt; is_encodable(insn) == *has_word);
    }
}
