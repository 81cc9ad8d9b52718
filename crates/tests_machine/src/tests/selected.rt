use crate::tests::made::keep_limits;
use fy_base::{
    BinOp, Datum, Ending, FaultKind, OutOfMemory, Place, PutKind, SteadySink, SteadySource, UnOp,
};
use fy_image::Image;
use pe_code::{
    EntryList, NodeList, PeCode, PeInsn, PeItem, PeItemList, Purpose, SequenceShapes, StraightList,
    StraightPart, is_valid,
};
use pe_machine::run_pe;
use rv_asm::assemble;
use rv_machine::{Machine, run_machine};
use rv_select::select;
use std::alloc::Global;
use std::test::Fail;

const PLACE: Place = Place { line: 1, col: 1 };

// Where the operators stand in the source.
const OPERATOR: Place = Place { line: 3, col: 7 };

fn add(items: &mut PeItemList, insn: PeInsn, depth: u32, place: Place) -> Result<(), OutOfMemory> {
    items.push(PeItem { insn, depth, place })?;
    Ok(())
}

fn straight(alloc: Global, parts: &[StraightPart]) -> Result<StraightList, OutOfMemory> {
    let mut list = StraightList::new(alloc);
    for part in parts {
        list.push(*part)?;
    }
    Ok(list)
}

// The code of `new a := 10 in new b := 20 in (a := e; put e')`, where both expressions are straight code, and item 8 has
// the place of their operators.
fn code(
    alloc: Global,
    parts: &[StraightPart],
    kind: PutKind,
    shown: &[StraightPart],
) -> Result<PeCode, OutOfMemory> {
    let mut items = PeItemList::new(alloc);
    add(&mut items, PeInsn::New(1, 2), 0, PLACE)?;
    add(&mut items, PeInsn::Answer(Datum::Int(10)), 0, PLACE)?;
    add(&mut items, PeInsn::New(3, 4), 1, PLACE)?;
    add(&mut items, PeInsn::Answer(Datum::Int(20)), 1, PLACE)?;
    add(&mut items, PeInsn::Seq(5, 6), 2, PLACE)?;
    add(
        &mut items,
        PeInsn::Set(1, straight(alloc, parts)?),
        2,
        PLACE,
    )?;
    add(&mut items, PeInsn::Put(kind, 7), 2, PLACE)?;
    add(&mut items, PeInsn::Eval(straight(alloc, shown)?), 2, PLACE)?;
    for _ in 0..32 {
        add(&mut items, PeInsn::Done, 2, OPERATOR)?;
    }
    Ok(PeCode {
        items,
        entries: EntryList::new(alloc),
        shapes: 1,
        assignment: None,
        sequences: SequenceShapes {
            value: None,
            element: None,
            assigned_element: None,
            row_length: None,
        },
        thunks: NodeList::new(alloc),
    })
}

// How a run of the code ends, and what it puts.
fn ran(alloc: Global, code: &PeCode) -> Result<(Ending, SteadySink), Fail> {
    let mut input = SteadySource::new(Vec::new(alloc));
    let mut output = SteadySink::new(alloc, 64)?;
    let end = run_pe(alloc, code, 1024, &mut input, &mut output, 1000)?;
    Ok((end, output))
}

// The same of the image of what is selected for it.
fn ran_as_image(alloc: Global, code: &PeCode) -> Result<(Ending, SteadySink), Fail> {
    if !is_valid(code) {
        return Err("no valid code".into());
    }
    let selected = select(alloc, code)?;
    keep_limits(selected.items.as_slice())?;
    let assembled = assemble(alloc, selected.items.as_slice())?;
    let image = Image {
        stack_words: 1024,
        code: assembled.words,
        table: selected.table,
        places: selected.places,
    };
    let size = image.code.len();
    let table = image.table.len();
    let places = image.places.len();
    if !(1..=4_194_304).contains(&size) || table > 1_048_576 || places > 524_288 {
        return Err("no image".into());
    }
    let mut m = Machine::load(alloc, &image)?;
    let mut input = SteadySource::new(Vec::new(alloc));
    let mut output = SteadySink::new(alloc, 64)?;
    let run = run_machine(&mut m, &mut input, &mut output, 100_000);
    Ok((run.end, output))
}

// Whether the image does what the code does.
fn agree(alloc: Global, code: &PeCode) -> Result<bool, Fail> {
    let (want, due) = ran(alloc, code)?;
    let (end, output) = ran_as_image(alloc, code)?;
    Ok(end == want && output.bytes() == due.bytes())
}

const INTS: &[i64] = &[
    i64::MIN,
    i64::MIN + 1,
    -4_294_967_297,
    -7,
    -1,
    0,
    1,
    2,
    7,
    255,
    256,
    3_037_000_500,
    i64::MAX,
];

// The operators, and what each puts of integers.
const BINARY: &[(BinOp, PutKind)] = &[
    (BinOp::Add, PutKind::Int),
    (BinOp::Sub, PutKind::Int),
    (BinOp::Mul, PutKind::Int),
    (BinOp::Div, PutKind::Int),
    (BinOp::Rem, PutKind::Int),
    (BinOp::Eq, PutKind::Bool),
    (BinOp::Ne, PutKind::Bool),
    (BinOp::Lt, PutKind::Bool),
    (BinOp::Le, PutKind::Bool),
    (BinOp::Gt, PutKind::Bool),
    (BinOp::Ge, PutKind::Bool),
];

const A: StraightPart = StraightPart::Cell(1);

const B: StraightPart = StraightPart::Cell(0);

fn literal(number: i64) -> StraightPart {
    StraightPart::Literal(Datum::Int(number))
}

#[test]
fn binary_operators_agree(rt: HostRuntime) -> Result<(), Fail> {
    let alloc = rt.alloc();
    for (op, kind) in BINARY {
        for x in INTS {
            for y in INTS {
                let low = [A, literal(*y), StraightPart::Binary(*op, 8)];
                let code = code(alloc, &[literal(*x)], *kind, &low)?;
                assert!(rt; agree(alloc, &code)?, "{op:?} {x} {y}");
            }
        }
    }
    Ok(())
}

#[test]
fn operators_of_upper_places_agree(rt: HostRuntime) -> Result<(), Fail> {
    let alloc = rt.alloc();
    for (op, kind) in BINARY {
        for x in INTS {
            let first = match kind {
                PutKind::Bool => StraightPart::Literal(Datum::Bool(true)),
                _ => B,
            };
            let last = match kind {
                PutKind::Bool => BinOp::Eq,
                _ => BinOp::Sub,
            };
            let upper = [
                first,
                A,
                literal(-1),
                StraightPart::Binary(*op, 9),
                StraightPart::Binary(last, 8),
            ];
            let code = code(alloc, &[literal(*x)], *kind, &upper)?;
            assert!(rt; agree(alloc, &code)?, "{op:?} {x}");
        }
    }
    Ok(())
}

// Operators on one datum, the datum, and what is put.
const UNARY: &[(UnOp, Datum, PutKind)] = &[
    (UnOp::Neg, Datum::Int(i64::MIN), PutKind::Int),
    (UnOp::Neg, Datum::Int(i64::MAX), PutKind::Int),
    (UnOp::Neg, Datum::Int(0), PutKind::Int),
    (UnOp::Not, Datum::Bool(true), PutKind::Bool),
    (UnOp::Not, Datum::Bool(false), PutKind::Bool),
    (UnOp::Ord, Datum::Char(200), PutKind::Int),
    (UnOp::Chr, Datum::Int(255), PutKind::Char),
    (UnOp::Chr, Datum::Int(256), PutKind::Char),
    (UnOp::Chr, Datum::Int(-1), PutKind::Char),
];

#[test]
fn unary_operators_agree(rt: HostRuntime) -> Result<(), Fail> {
    let alloc = rt.alloc();
    for (op, value, kind) in UNARY {
        let shown = [StraightPart::Literal(*value), StraightPart::Unary(*op, 8)];
        let code = code(alloc, &[literal(1)], *kind, &shown)?;
        assert!(rt; agree(alloc, &code)?, "{op:?} {value:?}");
    }
    Ok(())
}

// Truth values.
const TRUTHS: &[(BinOp, bool, bool)] = &[
    (BinOp::And, true, true),
    (BinOp::And, true, false),
    (BinOp::And, false, true),
    (BinOp::Or, false, false),
    (BinOp::Or, true, false),
    (BinOp::Eq, false, false),
    (BinOp::Ne, true, false),
];

#[test]
fn truths_agree(rt: HostRuntime) -> Result<(), Fail> {
    let alloc = rt.alloc();
    for (op, x, y) in TRUTHS {
        let shown = [
            StraightPart::Literal(Datum::Bool(*x)),
            StraightPart::Literal(Datum::Bool(*y)),
            StraightPart::Binary(*op, 8),
        ];
        let code = code(alloc, &[literal(1)], PutKind::Bool, &shown)?;
        assert!(rt; agree(alloc, &code)?, "{op:?} {x} {y}");
    }
    Ok(())
}

#[test]
fn faults_of_assignments_agree(rt: HostRuntime) -> Result<(), Fail> {
    let alloc = rt.alloc();
    let parts = [
        A,
        literal(0),
        StraightPart::Binary(BinOp::Div, 8),
        B,
        literal(i64::MAX),
        StraightPart::Binary(BinOp::Mul, 9),
        StraightPart::Binary(BinOp::Add, 10),
    ];
    let code = code(alloc, &parts, PutKind::Int, &[A])?;
    let (end, _) = ran_as_image(alloc, &code)?;
    let due = Ending::Fault {
        kind: FaultKind::Zero,
        place: OPERATOR,
    };
    assert_eq!(rt; end, due);
    assert!(rt; agree(alloc, &code)?);
    Ok(())
}

// Appends an item with straight code for a purpose, under two variables.
fn add_for(
    alloc: Global,
    items: &mut PeItemList,
    parts: &[StraightPart],
    purpose: Purpose,
) -> Result<(), OutOfMemory> {
    let insn = PeInsn::EvalFor(straight(alloc, parts)?, purpose);
    add(items, insn, 2, PLACE)
}

// The code of `new a := 10 in new b := 20 in while t do ((if u then putint a else put v); a := e)`, all of it straight, where
// the acceptor is entered, and item 11 has the place of the operators.
fn loop_code(
    alloc: Global,
    test: &[StraightPart],
    choice: &[StraightPart],
    other: (PutKind, Datum),
    next: &[StraightPart],
) -> Result<PeCode, OutOfMemory> {
    let (kind, value) = other;
    let mut items = PeItemList::new(alloc);
    add(&mut items, PeInsn::New(1, 2), 0, PLACE)?;
    add(&mut items, PeInsn::Answer(Datum::Int(10)), 0, PLACE)?;
    add(&mut items, PeInsn::New(3, 4), 1, PLACE)?;
    add(&mut items, PeInsn::Answer(Datum::Int(20)), 1, PLACE)?;
    add_for(alloc, &mut items, test, Purpose::Repeat(5))?;
    add(&mut items, PeInsn::Seq(6, 9), 2, PLACE)?;
    add_for(alloc, &mut items, choice, Purpose::Choose(7, 8))?;
    add_for(alloc, &mut items, &[A], Purpose::Write(PutKind::Int))?;
    let shown = [StraightPart::Literal(value)];
    add_for(alloc, &mut items, &shown, Purpose::Write(kind))?;
    add_for(alloc, &mut items, next, Purpose::Store(10))?;
    add(&mut items, PeInsn::UseVar(1, 0), 2, PLACE)?;
    for _ in 0..32 {
        add(&mut items, PeInsn::Done, 2, OPERATOR)?;
    }
    Ok(PeCode {
        items,
        entries: EntryList::new(alloc),
        shapes: 1,
        assignment: Some(0),
        sequences: SequenceShapes {
            value: None,
            element: None,
            assigned_element: None,
            row_length: None,
        },
        thunks: NodeList::new(alloc),
    })
}

// What is put in the turns that don't put `a`, the operators of the test, the choice and the next `a`, how the run ends, and
// all that it puts.
const LOOPS: &[(PutKind, Datum, BinOp, BinOp, BinOp, Option<FaultKind>, &str)] = &[
    (
        PutKind::Char,
        Datum::Char(b'.'),
        BinOp::Gt,
        BinOp::Eq,
        BinOp::Sub,
        None,
        "...7....",
    ),
    (
        PutKind::Bool,
        Datum::Bool(false),
        BinOp::Gt,
        BinOp::Gt,
        BinOp::Sub,
        None,
        "1098falsefalsefalsefalsefalse",
    ),
    (
        PutKind::Bool,
        Datum::Bool(true),
        BinOp::Ge,
        BinOp::Eq,
        BinOp::Div,
        None,
        "truetrue",
    ),
    (
        PutKind::Int,
        Datum::Int(-5),
        BinOp::Le,
        BinOp::Eq,
        BinOp::Sub,
        None,
        "",
    ),
    (
        PutKind::Int,
        Datum::Int(i64::MIN),
        BinOp::Ne,
        BinOp::Ge,
        BinOp::Mul,
        Some(FaultKind::Overflow),
        "10",
    ),
];

#[test]
fn purposes_agree(rt: HostRuntime) -> Result<(), Fail> {
    let alloc = rt.alloc();
    for (kind, value, test, choice, next, fault, text) in LOOPS {
        let step = match fault {
            Some(_) => i64::MAX,
            None => 1 + (*next == BinOp::Div) as i64 * 4,
        };
        let code = loop_code(
            alloc,
            &[A, literal(2), StraightPart::Binary(*test, 11)],
            &[A, literal(7), StraightPart::Binary(*choice, 11)],
            (*kind, *value),
            &[A, literal(step), StraightPart::Binary(*next, 11)],
        )?;
        let (end, output) = ran_as_image(alloc, &code)?;
        let due = match fault {
            Some(kind) => Ending::Fault {
                kind: *kind,
                place: OPERATOR,
            },
            None => Ending::Ended,
        };
        assert_eq!(rt; end, due, "{text}");
        assert_eq!(rt; output.bytes(), text.as_bytes());
        assert!(rt; agree(alloc, &code)?, "{text}");
    }
    Ok(())
}
