use fy_base::{
    BinOp, Datum, Ending, FaultKind, OutOfMemory, Place, PutKind, SteadySink, SteadySource, UnOp,
};
use pe_code::{
    EntryList, NodeList, PeCode, PeInsn, PeItem, PeItemList, SequenceShapes, StraightList,
    StraightPart, is_valid,
};
use pe_machine::run_pe;
use std::alloc::Global;
use std::test::Fail;

const PLACE: Place = Place { line: 1, col: 1 };

// Where the operator stands in the source.
const OPERATOR: Place = Place { line: 3, col: 7 };

fn add(items: &mut PeItemList, insn: PeInsn, depth: u32) -> Result<(), OutOfMemory> {
    items.push(PeItem {
        insn,
        depth,
        place: PLACE,
    })?;
    Ok(())
}

fn straight(alloc: Global, parts: &[StraightPart]) -> Result<StraightList, OutOfMemory> {
    let mut list = StraightList::new(alloc);
    for part in parts {
        list.push(*part)?;
    }
    Ok(list)
}

// The code of `new x := 10 in (x := e; putint x)`, where the expression is straight code and item 4 has its operators' place.
fn code(alloc: Global, parts: &[StraightPart]) -> Result<PeCode, OutOfMemory> {
    let mut items = PeItemList::new(alloc);
    add(&mut items, PeInsn::New(1, 2), 0)?;
    add(&mut items, PeInsn::Answer(Datum::Int(10)), 0)?;
    add(&mut items, PeInsn::Seq(3, 5), 1)?;
    add(&mut items, PeInsn::Set(0, straight(alloc, parts)?), 1)?;
    items.push(PeItem {
        insn: PeInsn::Done,
        depth: 1,
        place: OPERATOR,
    })?;
    add(&mut items, PeInsn::Put(PutKind::Int, 6), 1)?;
    add(
        &mut items,
        PeInsn::Eval(straight(alloc, &[StraightPart::Cell(0)])?),
        1,
    )?;
    for _ in 0..6 {
        add(&mut items, PeInsn::Done, 1)?;
    }
    Ok(PeCode {
        items,
        entries: EntryList::new(alloc),
        shapes: 1,
        assignment: None,
        sequences: SequenceShapes {
            value: None,
            element: None,
            assigned_element: None,
            row_length: None,
        },
        thunks: NodeList::new(alloc),
    })
}

const X: StraightPart = StraightPart::Cell(0);

#[derive(Clone, Copy)]
enum End {
    Ended,
    Fault(FaultKind),
    Stuck,
    Gone,
    Exhausted,
}

fn ending(end: End) -> Ending {
    match end {
        End::Ended => Ending::Ended,
        End::Fault(kind) => Ending::Fault {
            kind,
            place: OPERATOR,
        },
        End::Stuck => Ending::Stuck,
        End::Gone => Ending::Gone,
        End::Exhausted => Ending::Exhausted,
    }
}

// Straight code, the words, how the run ends and what it puts, and whether the code is valid.
const RUNS: &[(&[StraightPart], u32, End, &str, bool)] = &[
    (
        &[
            X,
            StraightPart::Literal(Datum::Int(3)),
            StraightPart::Binary(BinOp::Sub, 4),
        ],
        32,
        End::Ended,
        "7",
        true,
    ),
    (
        &[
            X,
            StraightPart::Literal(Datum::Int(3)),
            StraightPart::Binary(BinOp::Sub, 4),
        ],
        31,
        End::Exhausted,
        "",
        true,
    ),
    (
        &[X, X, StraightPart::Binary(BinOp::Mul, 4)],
        32,
        End::Ended,
        "100",
        true,
    ),
    (
        &[
            X,
            StraightPart::Literal(Datum::Int(0)),
            StraightPart::Binary(BinOp::Div, 4),
        ],
        32,
        End::Fault(FaultKind::Zero),
        "",
        true,
    ),
    (
        &[
            StraightPart::Literal(Datum::Int(i64::MIN)),
            StraightPart::Literal(Datum::Int(-1)),
            StraightPart::Binary(BinOp::Div, 4),
        ],
        32,
        End::Fault(FaultKind::Overflow),
        "",
        true,
    ),
    (
        &[
            StraightPart::Literal(Datum::Int(i64::MIN)),
            StraightPart::Unary(UnOp::Neg, 4),
        ],
        32,
        End::Fault(FaultKind::Overflow),
        "",
        true,
    ),
    // The left operand faults first.
    (
        &[
            X,
            StraightPart::Literal(Datum::Int(0)),
            StraightPart::Binary(BinOp::Rem, 4),
            StraightPart::Literal(Datum::Int(i64::MAX)),
            X,
            StraightPart::Binary(BinOp::Add, 4),
            StraightPart::Binary(BinOp::Add, 4),
        ],
        32,
        End::Fault(FaultKind::Zero),
        "",
        true,
    ),
    // Four data, or none for an operator.
    (
        &[
            X,
            X,
            X,
            X,
            StraightPart::Binary(BinOp::Add, 4),
            StraightPart::Binary(BinOp::Add, 4),
            StraightPart::Binary(BinOp::Add, 4),
        ],
        32,
        End::Stuck,
        "",
        false,
    ),
    (
        &[X, StraightPart::Binary(BinOp::Add, 4)],
        32,
        End::Stuck,
        "",
        false,
    ),
    (&[X, X], 32, End::Stuck, "", false),
    (&[], 32, End::Stuck, "", false),
    (
        &[X, StraightPart::Unary(UnOp::Not, 4)],
        32,
        End::Stuck,
        "",
        true,
    ),
    // A variable that isn't there, and an address.
    (&[StraightPart::Cell(1)], 32, End::Gone, "", false),
    (
        &[X, StraightPart::Unary(UnOp::Neg, 99)],
        32,
        End::Ended,
        "-10",
        false,
    ),
];

#[test]
fn straight_code_is_run(rt: HostRuntime) -> Result<(), Fail> {
    let alloc = rt.alloc();
    for (parts, words, want, text, valid) in RUNS {
        let code = code(alloc, *parts)?;
        assert!(rt; is_valid(&code) == *valid);
        let mut input = SteadySource::new(Vec::new(alloc));
        let mut output = SteadySink::new(alloc, 16)?;
        let end = run_pe(alloc, &code, *words, &mut input, &mut output, 1000)?;
        assert_eq!(rt; end, ending(*want));
        assert_eq!(rt; output.bytes(), text.as_bytes());
    }
    Ok(())
}
