use crate::tests::made::{AT, boxed};
use fy_base::{
    BinOp, Datum, Ending, FaultKind, OutOfMemory, Place, PutKind, SteadySink, SteadySource,
};
use fy_copy::{CopyRun, Progress, give, run_copy, start, step};
use fy_phrase::{Phrase, depth_of};
use std::alloc::Global;
use std::test::Fail;

// A byte is given to a waiting state, and then the free variable in focus is stuck.
#[test]
fn steps_one_by_one(rt: HostRuntime) -> Result<(), Fail> {
    let alloc = rt.alloc();
    let p = Phrase::Read(boxed(alloc, Phrase::Var(0, AT))?, AT);
    assert!(rt; depth_of(&p) <= 1023);
    let mut state = start(alloc, &p)?;
    let Progress::WantByte = step(alloc, &mut state)? else {
        return Err("want")?;
    };
    give(&mut state, Some(65));
    assert!(rt; matches!(step(alloc, &mut state)?, Progress::Stuck));
    Ok(())
}

const HERE: Place = Place { line: 2, col: 3 };

fn number(alloc: Global, n: i64) -> Result<Box<Phrase>, OutOfMemory> {
    boxed(alloc, Phrase::Lit(Datum::Int(n), AT))
}

// The cell with the index of the sequence in scope.
fn cell(alloc: Global, index: i64) -> Result<Box<Phrase>, OutOfMemory> {
    let sequence = boxed(alloc, Phrase::Var(0, AT))?;
    boxed(alloc, Phrase::App(sequence, number(alloc, index)?, AT))
}

// So many cells, of which the last of three is assigned 7; it and their number are put together.
fn cells(alloc: Global, count: i64) -> Result<Phrase, OutOfMemory> {
    let assign = Phrase::Assign(cell(alloc, 2)?, number(alloc, 7)?, AT);
    let length = Phrase::Sel(boxed(alloc, Phrase::Var(0, AT))?, 0, AT);
    let sum = Phrase::Binary(BinOp::Add, cell(alloc, 2)?, boxed(alloc, length)?, AT);
    let put = Phrase::Put(PutKind::Int, boxed(alloc, sum)?, AT);
    let body = Phrase::Seq(boxed(alloc, assign)?, boxed(alloc, put)?, AT);
    Ok(Phrase::Cells(0, number(alloc, count)?, boxed(alloc, body)?, HERE))
}

fn run(alloc: Global, p: &Phrase) -> Result<(CopyRun, SteadySink), Fail> {
    if depth_of(p) > 1023 {
        return Err("a phrase past the limits".into());
    }
    let mut input = SteadySource::new(Vec::new(alloc));
    let mut output = SteadySink::new(alloc, 16)?;
    let run = run_copy(alloc, p, &mut input, &mut output, 1000)?;
    Ok((run, output))
}

// Three cells serve; of two there is no last one, and there are no fewer than none.
#[test]
fn runs_sequences_of_cells(rt: HostRuntime) -> Result<(), Fail> {
    let alloc = rt.alloc();
    let range = Ending::Fault {
        kind: FaultKind::Range,
        place: HERE,
    };
    let rows: [(i64, Ending, u64, u64, &[u8]); 3] = [
        (3, Ending::Ended, 26, 51, b"10"),
        (2, range, 11, 50, b""),
        (-1, range, 2, 8, b""),
    ];
    for (count, end, steps, peak, text) in rows {
        let (run, output) = run(alloc, &cells(alloc, count)?)?;
        assert_eq!(rt; run, CopyRun { end, steps, peak });
        assert_eq!(rt; output.bytes(), text);
    }
    Ok(())
}
