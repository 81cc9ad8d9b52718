use crate::tests::made::{keep_limits, run};
use fy_base::{Ending, OutOfMemory};
use rv_asm::{AsmError, Item, LabelAt, assemble};
use rv_flow::lower_all;
use rv_insn::{BranchOp, ImmOp};
use rv_word::Micro;
use rv_word::Register::{First, Second};
use std::alloc::Global;
use std::test::Fail;

const MARK: Item = Item::Mark(7);

const JUMP: Item = Item::JumpTo { label: 7 };

const FAR: Item = Item::FarTo { label: 7 };

const CALL: Item = Item::CallTo { rd: 1, label: 7 };

const ADDRESS: Item = Item::AddressOf { rd: 5, label: 7 };

const SHORT: Item = Item::Constant { rd: 10, value: -1 };

const LONG: Item = Item::Constant {
    rd: 10,
    value: 0x1234_5678,
};

const OTHER: Item = Item::JumpTo { label: 8 };

// Items, and the words that an assembler gives for them (RISC-V Unprivileged ISA, "RV32/64G Instruction
// Set Listings"), or why they are refused.
const ROWS: &[(&[Item], Result<&[u32], AsmError>)] = &[
    (&[JUMP], Err(AsmError::UnknownLabel(7))),
    (&[MARK, MARK], Err(AsmError::DoubleLabel(7))),
    (&[OTHER, MARK, MARK], Err(AsmError::DoubleLabel(7))),
    (&[MARK, JUMP], Ok(&[0x0000_006f])),
    (&[MARK, FAR], Ok(&[0x0000_0f97, 0x000f_8067])),
    (&[MARK, CALL], Ok(&[0x0000_00ef])),
    (&[MARK, ADDRESS], Ok(&[0x0000_0297, 0x0002_8293])),
    (&[SHORT], Ok(&[0xfff0_0513])),
    (&[LONG], Ok(&[0x1234_5537, 0x6785_051b])),
];

#[test]
fn items_are_assembled_or_refused(rt: HostRuntime) -> Result<(), Fail> {
    for (items, want) in ROWS {
        keep_limits(items)?;
        match assemble(rt.alloc(), items) {
            Ok(assembled) => assert!(rt; *want == Ok(assembled.words.as_slice())),
            Err(error) => assert!(rt; *want == Err(error)),
        }
    }
    Ok(())
}

const MARKED: &[Item] = &[
    Item::Mark(9),
    FAR,
    Item::Mark(8),
    MARK,
    OTHER,
    Item::Mark(1),
];

const PLACES: &[LabelAt] = &[
    LabelAt { label: 9, word: 0 },
    LabelAt { label: 8, word: 2 },
    LabelAt { label: 7, word: 2 },
    LabelAt { label: 1, word: 3 },
];

#[test]
fn labels_come_in_order_of_their_marks(rt: HostRuntime) -> Result<(), Fail> {
    keep_limits(MARKED)?;
    let assembled = assemble(rt.alloc(), MARKED)?;
    assert_eq!(rt; assembled.labels.as_slice(), PLACES);
    Ok(())
}

// The code at the label puts `y` and ends, or what comes after if instructions between were executed.
fn add_target(items: &mut Vec<Item>) -> Result<(), OutOfMemory> {
    items.push(MARK)?;
    let micros = [
        Micro::Imm(ImmOp::Addi, Second, First, b'y' as i16),
        Micro::Put(Second),
        Micro::End,
    ];
    lower_all(items, 0, 0, &micros)
}

// A branch to the label, and code that puts `n` and ends.
fn add_branch(items: &mut Vec<Item>, op: BranchOp) -> Result<(), OutOfMemory> {
    items.push(Item::BranchTo {
        op,
        rs1: 0,
        rs2: 0,
        label: 7,
    })?;
    let micros = [
        Micro::Set(Second, b'n' as u64),
        Micro::Put(Second),
        Micro::End,
    ];
    lower_all(items, 0, 0, &micros)
}

// So many instructions that each add 1 to `First`.
fn add_between(items: &mut Vec<Item>, count: u32) -> Result<(), OutOfMemory> {
    for _ in 0..count {
        lower_all(items, 0, 0, &[Micro::Imm(ImmOp::Addi, First, First, 1)])?;
    }
    Ok(())
}

// Appends a branch over so many instructions: forward, or back, where code jumps to it first.
fn add_around(
    items: &mut Vec<Item>,
    is_back: bool,
    op: BranchOp,
    between: u32,
) -> Result<(), OutOfMemory> {
    if !is_back {
        add_branch(items, op)?;
        add_between(items, between)?;
        return add_target(items);
    }
    items.push(OTHER)?;
    add_target(items)?;
    add_between(items, between)?;
    items.push(Item::Mark(8))?;
    add_branch(items, op)
}

// How many words the items have, and whether they put the text.
fn put(alloc: Global, items: &[Item], text: &[u8]) -> Result<(usize, bool), Fail> {
    keep_limits(items)?;
    let count = assemble(alloc, items)?.words.len();
    Ok((
        count,
        run(alloc, 1024, items, text)? == (Ending::Ended, true),
    ))
}

// Branches between equal registers, and what is put where they are taken or not.
const BRANCHES: &[(BranchOp, &[u8])] = &[
    (BranchOp::Beq, b"y"),
    (BranchOp::Bne, b"n"),
    (BranchOp::Blt, b"n"),
    (BranchOp::Bge, b"y"),
    (BranchOp::Bltu, b"n"),
    (BranchOp::Bgeu, b"y"),
];

// Whether the branch goes back, the instructions between it and its label, and the words of the whole: a branch has one
// word if its label is in reach, and three if not. Its code and that at the label have 6 words each.
const DISTANCES: &[(bool, u32, usize)] = &[
    (false, 1000, 1013),
    (false, 1100, 1115),
    (true, 1000, 1014),
    (true, 1100, 1116),
];

#[test]
fn branches_go_however_far(rt: HostRuntime) -> Result<(), Fail> {
    for (op, text) in BRANCHES {
        for (is_back, between, words) in DISTANCES {
            let mut items = Vec::new(rt.alloc());
            add_around(&mut items, *is_back, *op, *between)?;
            assert!(rt; put(rt.alloc(), &items, text)? == (*words, true));
        }
    }
    Ok(())
}
