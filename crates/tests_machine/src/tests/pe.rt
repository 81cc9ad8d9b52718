use fy_base::{
    BinOp, Datum, Ending, FaultKind, OutOfMemory, Place, PutKind, SteadySink, SteadySource,
};
use pe_code::{EntryList, NodeList, PeCode, PeInsn, PeItem, PeItemList, SequenceShapes};
use pe_machine::run_pe;
use std::alloc::Global;
use std::test::Fail;

const PLACE: Place = Place { line: 1, col: 1 };

// The code of `putint 1`.
fn code(alloc: Global) -> Result<PeCode, OutOfMemory> {
    let mut items = PeItemList::new(alloc);
    items.push(PeItem {
        insn: PeInsn::Put(PutKind::Int, 1),
        depth: 0,
        place: PLACE,
    })?;
    items.push(PeItem {
        insn: PeInsn::Answer(Datum::Int(1)),
        depth: 0,
        place: PLACE,
    })?;
    Ok(PeCode {
        items,
        entries: EntryList::new(alloc),
        shapes: 1,
        assignment: None,
        sequences: SequenceShapes {
            value: None,
            element: None,
            assigned_element: None,
            row_length: None,
        },
        thunks: NodeList::new(alloc),
    })
}

#[test]
fn puts_a_number(rt: HostRuntime) -> Result<(), Fail> {
    let alloc = rt.alloc();
    let code = code(alloc)?;
    let mut input = SteadySource::new(Vec::new(alloc));
    let mut output = SteadySink::new(alloc, 16)?;
    let end = run_pe(alloc, &code, 64, &mut input, &mut output, 1000)?;
    assert_eq!(rt; end, Ending::Ended);
    assert_eq!(rt; output.bytes(), b"1".as_slice());
    Ok(())
}

// Where the sequence of cells is made.
const CELLS: Place = Place { line: 2, col: 1 };

fn add(items: &mut PeItemList, insn: PeInsn, depth: u32) -> Result<(), OutOfMemory> {
    items.push(PeItem {
        insn,
        depth,
        place: PLACE,
    })?;
    Ok(())
}

// The items of `a := sequence of count cells; a(index) := 5; putint (a(index) + len a)`. Shape 0 is a value's, and shapes 1 to 3 read, write and measure.
fn sequence_items(alloc: Global, count: i64, index: i64) -> Result<PeItemList, OutOfMemory> {
    let mut items = PeItemList::new(alloc);
    items.push(PeItem {
        insn: PeInsn::Cells(1, 2),
        depth: 0,
        place: CELLS,
    })?;
    add(&mut items, PeInsn::Answer(Datum::Int(count)), 0)?;
    add(&mut items, PeInsn::Seq(3, 7), 1)?;
    add(&mut items, PeInsn::Assign(4, 6), 1)?;
    add(&mut items, PeInsn::PassData(Datum::Int(index), 5), 1)?;
    add(&mut items, PeInsn::UseVar(0, 2), 1)?;
    add(&mut items, PeInsn::Answer(Datum::Int(5)), 1)?;
    add(&mut items, PeInsn::Put(PutKind::Int, 8), 1)?;
    add(&mut items, PeInsn::Op2(BinOp::Add, 9, 11), 1)?;
    add(&mut items, PeInsn::PassData(Datum::Int(index), 10), 1)?;
    add(&mut items, PeInsn::UseVar(0, 1), 1)?;
    add(&mut items, PeInsn::Pick(0, 12), 1)?;
    add(&mut items, PeInsn::UseVar(0, 3), 1)?;
    Ok(items)
}

fn sequence_code(alloc: Global, count: i64, index: i64) -> Result<PeCode, OutOfMemory> {
    Ok(PeCode {
        items: sequence_items(alloc, count, index)?,
        entries: EntryList::new(alloc),
        shapes: 4,
        assignment: None,
        sequences: SequenceShapes {
            value: Some(0),
            element: Some(1),
            assigned_element: Some(2),
            row_length: Some(3),
        },
        thunks: NodeList::new(alloc),
    })
}

// How a run of such code ends.
#[derive(Clone, Copy)]
enum End {
    Ended,
    // Where the sequence is made.
    Outside,
    Exhausted,
}

fn ending(end: End) -> Ending {
    match end {
        End::Ended => Ending::Ended,
        End::Outside => Ending::Fault {
            kind: FaultKind::Range,
            place: CELLS,
        },
        End::Exhausted => Ending::Exhausted,
    }
}

// A number of cells, an index, the words, how the run ends and what it puts.
const SEQUENCES: &[(i64, i64, u32, End, &str)] = &[
    (3, 1, 51, End::Ended, "8"),
    (3, 0, 51, End::Ended, "8"),
    (3, 2, 51, End::Ended, "8"),
    (1, 0, 51, End::Ended, "6"),
    (3, 1, 50, End::Exhausted, ""),
    (3, 3, 51, End::Outside, ""),
    (3, -1, 51, End::Outside, ""),
    (0, 0, 51, End::Outside, ""),
    (-1, 0, 51, End::Outside, ""),
    (1_000_000_000_000, 0, 51, End::Exhausted, ""),
];

#[test]
fn cells_of_sequences_are_used(rt: HostRuntime) -> Result<(), Fail> {
    let alloc = rt.alloc();
    for (count, index, words, want, text) in SEQUENCES {
        let code = sequence_code(alloc, *count, *index)?;
        let mut input = SteadySource::new(Vec::new(alloc));
        let mut output = SteadySink::new(alloc, 16)?;
        let end = run_pe(alloc, &code, *words, &mut input, &mut output, 1000)?;
        assert_eq!(rt; end, ending(*want));
        assert_eq!(rt; output.bytes(), text.as_bytes());
    }
    Ok(())
}
