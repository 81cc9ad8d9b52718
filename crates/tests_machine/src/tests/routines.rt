ghost use Rattle.std.specs.Prelude.{◌+◌, ◌^◌, ◌<◌, ◌≤◌};

use crate::tests::made::{AT, run};
use fy_base::{Ending, FaultKind, OutOfMemory};
use pe_frame::{FramePlan, plan_frame};
use rv_asm::Item;
use rv_flow::{lower_block, lower_entries};
use rv_insn::{BranchOp, ImmOp, RegOp};
use rv_runtime::{
    EXHAUSTED, FIRST_FREE, GO, MAKE_FRAME, MEET, PUT_FALSE, PUT_INT, PUT_TRUE, add_fault, routines,
};
use rv_word::Micro;
use rv_word::Register::{Datum, First, Frame, Second, Third, Top};
use std::alloc::{AllocError, Global};
use std::test::Fail;

// The labels of a fault, and of the code in which tests start.
const FAULT: u32 = FIRST_FREE;

const START: u32 = FIRST_FREE + 1;

// Adds to no items the routines in code with these entries, which ends at a finished command, and the block of a fault.
fn add_code(alloc: Global, items: &mut Vec<Item>, entries: &[u32]) -> Result<(), Fail> {
    let count = u32::try_from(entries.len())?;
    lower_entries(items, entries)?;
    lower_block(items, count, 0, MEET, &[Micro::End])?;
    lower_block(items, count, 0, GO, &[Micro::Enter(Datum)])?;
    items.append(&mut routines(alloc)?)?;
    Ok(add_fault(items, FAULT, FaultKind::Range, 0)?)
}

// How a run of the routine with the datum ends, and whether it puts the text.
fn told(alloc: Global, label: u32, value: i64, text: &str) -> Result<(Ending, bool), Fail> {
    let mut items = Vec::new(alloc);
    add_code(alloc, &mut items, &[START])?;
    let micros = [Micro::Set(Datum, value.cast_unsigned()), Micro::Jump(label)];
    lower_block(&mut items, 1, 0, START, &micros)?;
    run(alloc, 1024, &items, text.as_bytes())
}

const PUTS: &[(u32, i64, &str)] = &[
    (PUT_INT, 0, "0"),
    (PUT_INT, 7, "7"),
    (PUT_INT, -1, "-1"),
    (PUT_INT, 10, "10"),
    (PUT_INT, -100, "-100"),
    (PUT_INT, i64::MAX, "9223372036854775807"),
    (PUT_INT, i64::MIN, "-9223372036854775808"),
    (PUT_TRUE, 0, "true"),
    (PUT_FALSE, 0, "false"),
];

#[test]
fn data_are_put_and_ends_are_told(rt: HostRuntime) -> Result<(), Fail> {
    let alloc = rt.alloc();
    for (label, value, text) in PUTS {
        assert!(rt;
            told(alloc, *label, *value, text)? == (Ending::Ended, true),
            "{text}"
        );
    }
    assert!(rt; told(alloc, EXHAUSTED, 0, "")? == (Ending::Exhausted, true));
    let fault = Ending::Fault {
        kind: FaultKind::Range,
        place: AT,
    };
    assert!(rt; told(alloc, FAULT, 0, "")? == (fault, true));
    Ok(())
}

// The depths of frames, and their words.
const PLANS: &[(u32, u32)] = &[(0, 3), (1, 4), (2, 8), (100, 104), (512, 516)];

#[test]
fn frames_are_planned(rt: HostRuntime) {
    for (depth, words) in PLANS {
        assert!(rt; *depth <= 512);
        let want = FramePlan {
            words: *words,
            thunk_at: 0,
            display_at: 3,
        };
        assert!(rt; plan_frame(*depth) == want);
    }
}

// The labels of the code in which frames are made and shown, and the word of the frame around.
const FILL: u32 = FIRST_FREE + 2;

const MAKE: u32 = FIRST_FREE + 3;

const SHOW: u32 = FIRST_FREE + 4;

const SHOW_WORD: u32 = FIRST_FREE + 5;

const AROUND: u32 = 5;

// The address of a word of the stack.
fn address(word: u32) -> u64 {
    0x4000_0000 + 8 * word as u64
}

// Appends code that asks for room for a frame, fills the words of the stack up to the one behind it with their numbers,
// and makes it.
fn add_making(items: &mut Vec<Item>, at: u32, size: u16) -> Result<(), OutOfMemory>
    requires { at ≤ 2 ^ 24 }
{
    let behind = at + size as u32 + 1;
    let start = [
        Micro::Set(Top, address(at)),
        Micro::Room(size, EXHAUSTED),
        Micro::Set(First, address(0)),
        Micro::Set(Second, 0),
        Micro::Set(Third, address(behind)),
        Micro::Jump(FILL),
    ];
    lower_block(items, 2, 0, START, &start)?;
    let fill = [
        Micro::Window(First, 1),
        Micro::Save(First, 0, Second),
        Micro::Imm(ImmOp::Addi, First, First, 8),
        Micro::Imm(ImmOp::Addi, Second, Second, 1),
        Micro::Test(BranchOp::Bne, First, Third, FILL),
        Micro::Jump(MAKE),
    ];
    lower_block(items, 2, 0, FILL, &fill)?;
    let make = [
        Micro::Set(Frame, address(AROUND)),
        Micro::Set(Third, 8 * size as u64),
        Micro::Set(Datum, 8),
        Micro::Jump(MAKE_FRAME),
    ];
    lower_block(items, 2, 0, MAKE, &make)
}

// Appends code that puts the low bytes of so many words of a frame and of the word behind it.
fn add_showing(items: &mut Vec<Item>, count: u32) -> Result<(), OutOfMemory> {
    let show = [
        Micro::Imm(ImmOp::Addi, First, Frame, 0),
        Micro::Set(Third, 8 * count as u64),
        Micro::Alu(RegOp::Add, Second, Frame, Third),
        Micro::Jump(SHOW_WORD),
    ];
    lower_block(items, 2, 0, SHOW, &show)?;
    let word = [
        Micro::Window(First, 1),
        Micro::Get(Third, First, 0),
        Micro::Put(Third),
        Micro::Imm(ImmOp::Addi, First, First, 8),
        Micro::Test(BranchOp::Bne, First, Second, SHOW_WORD),
        Micro::Window(Top, 1),
        Micro::Get(Third, Top, 0),
        Micro::Put(Third),
        Micro::Jump(MEET),
    ];
    lower_block(items, 2, 0, SHOW_WORD, &word)
}

// Appends the low bytes of the numbers of so many words from a word on.
fn add_numbers(bytes: &mut Vec<u8>, from: u32, count: u32) -> Result<(), AllocError>
    requires { from + count < 2 ^ 32 }
{
    for word in from..from + count {
        bytes.push((word % 256) as u8)?;
    }
    Ok(())
}

// How a run ends that makes a frame at a depth, behind the frame around it, and whether it puts these bytes.
fn making(alloc: Global, stack_words: u32, depth: u32, due: &[u8]) -> Result<(Ending, bool), Fail>
    requires some { 1 ≤ depth }
    requires most { depth ≤ 512 }
{
    let plan = plan_frame(depth);
    let at = AROUND + plan_frame(depth - 1).words;
    let mut items = Vec::new(alloc);
    add_code(alloc, &mut items, &[START, SHOW])?;
    add_making(&mut items, at, plan.words as u16)?;
    add_showing(&mut items, plan.display_at + depth)?;
    run(alloc, stack_words, &items, due)
}

// What it is to put: of the three words before the display, of the address of the frame around, of that frame's display, and of
// the word behind the frame.
fn made(alloc: Global, depth: u32) -> Result<Vec<u8>, AllocError>
    requires some { 1 ≤ depth }
    requires most { depth ≤ 512 }
{
    let at = AROUND + plan_frame(depth - 1).words;
    let mut bytes = Vec::new(alloc);
    add_numbers(&mut bytes, at, 3)?;
    bytes.push(8 * AROUND as u8)?;
    add_numbers(&mut bytes, AROUND + 3, depth - 1)?;
    add_numbers(&mut bytes, at + plan_frame(depth).words, 1)?;
    Ok(bytes)
}

const DEPTHS: &[u32] = &[1, 2, 100, 512];

#[test]
fn frames_are_made(rt: HostRuntime) -> Result<(), Fail> {
    let alloc = rt.alloc();
    for depth in DEPTHS {
        assert!(rt; 1 <= *depth && *depth <= 512);
        let due = made(alloc, *depth)?;
        assert!(rt;
            making(alloc, 2048, *depth, &due)? == (Ending::Ended, true),
            "{depth}"
        );
    }
    assert!(rt; making(alloc, 1024, 512, &[])? == (Ending::Exhausted, true));
    Ok(())
}
