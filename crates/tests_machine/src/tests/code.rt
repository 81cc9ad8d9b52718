use fy_base::{BinOp, Datum, OutOfMemory, Place, PutKind, UnOp};
use fy_types::Names;
use pe_code::{
    AddressList, Entry, EntryList, NodeList, PeCode, PeInsn, PeItem, PeItemList, Purpose,
    SequenceShapes, StraightList, StraightPart, is_valid, print_pe,
};
use std::alloc::Global;
use std::test::Fail;

fn addresses(alloc: Global, items: &[u32]) -> Result<AddressList, OutOfMemory> {
    let mut list = AddressList::new(alloc);
    for item in items {
        list.push(*item)?;
    }
    Ok(list)
}

fn straight(alloc: Global, parts: &[StraightPart]) -> Result<StraightList, OutOfMemory> {
    let mut list = StraightList::new(alloc);
    for part in parts {
        list.push(*part)?;
    }
    Ok(list)
}

// The prints of instructions. Name 0 is `len`, and there is no name 99.
const PRINTS: &[&str] = &[
    "use 0 3",
    "answer -12",
    "answer true",
    "answer 65",
    "op1 not 4",
    "op2 add 17 18",
    "cond 1 2 3",
    "case 16 3",
    "passvar 2 5",
    "passdata 21 5",
    "field len 9",
    "pick  9",
    "letvar 1 8",
    "letdata false 8",
    "done",
    "while 6 7",
    "cells 1 2",
    "put char 4",
    "eval lit -5 cell 0 add 3 not 4",
    "set 2 lit true",
    "choose 1 2 cell 0",
    "repeat 6 cell 0 not 4",
    "store 3 lit -7",
    "write char lit 65",
    "read 4294967295",
];

// The instruction that has the print with the number.
fn printed(alloc: Global, number: usize) -> Result<PeInsn, OutOfMemory> {
    Ok(match number {
        0 => PeInsn::UseVar(0, 3),
        1 => PeInsn::Answer(Datum::Int(-12)),
        2 => PeInsn::Answer(Datum::Bool(true)),
        3 => PeInsn::Answer(Datum::Char(65)),
        4 => PeInsn::Op1(UnOp::Not, 4),
        5 => PeInsn::Op2(BinOp::Add, 17, 18),
        6 => PeInsn::Cond(1, 2, 3),
        7 => PeInsn::Case(16, addresses(alloc, &[17, 18, 19])?),
        8 => PeInsn::PassVar(2, 5),
        9 => PeInsn::PassData(Datum::Int(21), 5),
        10 => PeInsn::Field(0, 9),
        11 => PeInsn::Pick(99, 9),
        12 => PeInsn::LetVar(1, 8),
        13 => PeInsn::LetData(Datum::Bool(false), 8),
        14 => PeInsn::Done,
        15 => PeInsn::While(6, 7),
        16 => PeInsn::Cells(1, 2),
        17 => PeInsn::Put(PutKind::Char, 4),
        18 => PeInsn::Eval(straight(
            alloc,
            &[
                StraightPart::Literal(Datum::Int(-5)),
                StraightPart::Cell(0),
                StraightPart::Binary(BinOp::Add, 3),
                StraightPart::Unary(UnOp::Not, 4),
            ],
        )?),
        19 => PeInsn::Set(
            2,
            straight(alloc, &[StraightPart::Literal(Datum::Bool(true))])?,
        ),
        20 => PeInsn::EvalFor(
            straight(alloc, &[StraightPart::Cell(0)])?,
            Purpose::Choose(1, 2),
        ),
        21 => PeInsn::EvalFor(
            straight(
                alloc,
                &[StraightPart::Cell(0), StraightPart::Unary(UnOp::Not, 4)],
            )?,
            Purpose::Repeat(6),
        ),
        22 => PeInsn::EvalFor(
            straight(alloc, &[StraightPart::Literal(Datum::Int(-7))])?,
            Purpose::Store(3),
        ),
        23 => PeInsn::EvalFor(
            straight(alloc, &[StraightPart::Literal(Datum::Char(65))])?,
            Purpose::Write(PutKind::Char),
        ),
        _ => PeInsn::Read(4294967295),
    })
}

#[test]
fn instructions_are_printed(rt: HostRuntime) -> Result<(), Fail> {
    let names = Names::new(rt.alloc())?;
    for (number, want) in PRINTS.iter().enumerate() {
        let text = print_pe(rt.alloc(), &names, &printed(rt.alloc(), number)?)?;
        assert!(rt; text.as_slice() == want.as_bytes(), "{want}");
    }
    Ok(())
}

// What stands first or second in code.
#[derive(Clone, Copy)]
enum Part {
    Let(u32),
    UseVar(u32, u32),
    Done,
    Seq(u32),
    Bind,
    New(u32),
    Cells(u32),
    // Over this and three more parts.
    Case(u32),
}

fn insn(alloc: Global, part: Part) -> Result<PeInsn, OutOfMemory> {
    match part {
        Part::Let(node) => Ok(PeInsn::Let(node, 1)),
        Part::UseVar(k, shape) => Ok(PeInsn::UseVar(k, shape)),
        Part::Done => Ok(PeInsn::Done),
        Part::Seq(second) => Ok(PeInsn::Seq(2, second)),
        Part::Bind => Ok(PeInsn::Bind(2)),
        Part::New(body) => Ok(PeInsn::New(2, body)),
        Part::Cells(body) => Ok(PeInsn::Cells(2, body)),
        Part::Case(index) => Ok(PeInsn::Case(index, addresses(alloc, &[2, 2, 2, 2])?)),
    }
}

fn item(insn: PeInsn, depth: u32) -> PeItem {
    PeItem {
        insn,
        depth,
        place: Place::first(),
    }
}

// No sequence of cells is used.
const NO_SEQUENCES: SequenceShapes = SequenceShapes {
    value: None,
    element: None,
    assigned_element: None,
    row_length: None,
};

// Code with these two items and a third, where node 7 is a thunk node and enters at the third.
fn code_of(
    alloc: Global,
    first: Part,
    second: Part,
    depths: [u32; 3],
) -> Result<PeCode, OutOfMemory> {
    let mut items = PeItemList::new(alloc);
    items.push(item(insn(alloc, first)?, depths[0]))?;
    items.push(item(insn(alloc, second)?, depths[1]))?;
    items.push(item(PeInsn::Done, depths[2]))?;
    let mut entries = EntryList::new(alloc);
    entries.push(Entry {
        node: 7,
        shape: 0,
        address: 2,
    })?;
    let mut thunks = NodeList::new(alloc);
    thunks.push(7)?;
    Ok(PeCode {
        items,
        entries,
        shapes: 1,
        assignment: Some(0),
        sequences: NO_SEQUENCES,
        thunks,
    })
}

// Each of these that is refused breaks one point alone.
const ITEMS: &[(Part, Part, [u32; 3], bool)] = &[
    (Part::Let(7), Part::UseVar(0, 0), [0, 1, 0], true),
    (Part::Let(7), Part::UseVar(0, 0), [1, 2, 1], false),
    (Part::Done, Part::UseVar(0, 0), [0, 513, 0], false),
    (Part::Seq(3), Part::Done, [0, 0, 0], false),
    (Part::Seq(1), Part::Done, [0, 1, 0], false),
    (Part::Bind, Part::Done, [0, 1, 0], false),
    (Part::Let(7), Part::UseVar(1, 0), [0, 1, 0], false),
    (Part::Let(7), Part::UseVar(0, 1), [0, 1, 0], false),
    (Part::Let(8), Part::UseVar(0, 0), [0, 1, 0], false),
    (Part::Let(7), Part::UseVar(0, 0), [0, 1, 1], false),
    (Part::Case(2), Part::Done, [0, 0, 0], false),
    (Part::New(1), Part::UseVar(0, 0), [0, 1, 0], true),
    (Part::Cells(1), Part::UseVar(0, 0), [0, 1, 0], true),
];

#[test]
fn items_are_judged(rt: HostRuntime) -> Result<(), Fail> {
    for (first, second, depths, want) in ITEMS {
        let code = code_of(rt.alloc(), *first, *second, *depths)?;
        assert!(rt; is_valid(&code) == *want);
    }
    Ok(())
}

fn valid_code(alloc: Global) -> Result<PeCode, OutOfMemory> {
    code_of(alloc, Part::Let(7), Part::UseVar(0, 0), [0, 1, 0])
}

// An entry that is added to valid code, its shapes and assignment, the items that are added, and whether it is valid then.
const TABLES: &[(Option<Entry>, u32, Option<u32>, u32, bool)] = &[
    (
        Some(Entry {
            node: 7,
            shape: 0,
            address: 2,
        }),
        1,
        Some(0),
        0,
        false,
    ),
    (
        Some(Entry {
            node: 9,
            shape: 0,
            address: 3,
        }),
        1,
        Some(0),
        0,
        false,
    ),
    (
        Some(Entry {
            node: 9,
            shape: 1,
            address: 2,
        }),
        1,
        Some(0),
        0,
        false,
    ),
    (
        Some(Entry {
            node: 9,
            shape: 0,
            address: 2,
        }),
        1,
        Some(0),
        0,
        true,
    ),
    (None, 1, Some(1), 0, false),
    (None, 209_715, None, 0, true),
    (None, 209_716, None, 0, false),
    (None, 1, Some(0), 65_534, false),
];

#[test]
fn tables_are_judged(rt: HostRuntime) -> Result<(), Fail> {
    for (added, shapes, assignment, more, want) in TABLES {
        let mut code = valid_code(rt.alloc())?;
        if let Some(entry) = added {
            code.entries.push(*entry)?;
        }
        code.shapes = *shapes;
        code.assignment = *assignment;
        for _ in 0..*more {
            code.items.push(item(PeInsn::Done, 0))?;
        }
        assert!(rt; is_valid(&code) == *want);
    }
    let mut code = valid_code(rt.alloc())?;
    code.items = PeItemList::new(rt.alloc());
    assert!(rt; !is_valid(&code));
    Ok(())
}

// The numbers of shapes that use a sequence, in code of one shape, and whether it is valid with them.
const SEQUENCES: &[(Option<u32>, Option<u32>, Option<u32>, Option<u32>, bool)] = &[
    (Some(0), Some(0), Some(0), Some(0), true),
    (Some(1), None, None, None, false),
    (None, Some(1), None, None, false),
    (None, None, Some(1), None, false),
    (None, None, None, Some(1), false),
];

#[test]
fn shapes_of_sequences_are_judged(rt: HostRuntime) -> Result<(), Fail> {
    for (value, element, assigned_element, row_length, want) in SEQUENCES {
        let mut code = valid_code(rt.alloc())?;
        code.sequences = SequenceShapes {
            value: *value,
            element: *element,
            assigned_element: *assigned_element,
            row_length: *row_length,
        };
        assert!(rt; is_valid(&code) == *want);
    }
    Ok(())
}

const ENTRIES: &[Entry] = &[
    Entry {
        node: 9,
        shape: 4,
        address: 1,
    },
    Entry {
        node: 3,
        shape: 6,
        address: 2,
    },
    Entry {
        node: 9,
        shape: 2,
        address: 0,
    },
    Entry {
        node: 3,
        shape: 6,
        address: 1,
    },
];

// A node, a shape, and the address of the first entry that has both.
const ADDRESSES: &[(u32, u32, Option<u32>)] = &[
    (3, 6, Some(2)),
    (9, 2, Some(0)),
    (9, 4, Some(1)),
    (9, 3, None),
    (10, 0, None),
];

#[test]
fn entries_are_found(rt: HostRuntime) -> Result<(), Fail> {
    let mut code = valid_code(rt.alloc())?;
    for entry in ENTRIES {
        code.entries.push(*entry)?;
    }
    for (node, shape, address) in ADDRESSES {
        assert!(rt; code.entry(*node, *shape) == *address);
    }
    Ok(())
}
