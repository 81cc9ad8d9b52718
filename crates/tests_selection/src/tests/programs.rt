use crate::tests::made::{copy, phrase_of, run};
use fy_base::{Ending, FaultKind, OutOfMemory, Place};
use fy_copy::CopyRun;
use std::alloc::Global;
use std::process::Abort;
use std::test::Fail;

// The words of the default stack, and of the least.
const DEFAULT_WORDS: u32 = 1_048_576;

const LEAST_WORDS: u32 = 1024;

// A text, what it puts on an input, and how it ends.
#[derive(Clone, Copy)]
struct Row<'a> {
    text: &'a [u8],
    input: &'a [u8],
    output: &'a [u8],
    end: Ending,
}

const ROWS: [Row<'static>; 8] = [
    Row {
        text: b"putint(1+2)",
        input: b"",
        output: b"3",
        end: Ending::Ended,
    },
    Row {
        text: br"let sum == \i:intvar. \n:int. \e:int. \r:intacc.
new s:int := 0 in (i := 1; while i <= n do (s := s + e; i := i + 1); r := s) in
new i:int := 0 in new r:int := 0 in (sum i 10 (i*i) r; putint r)",
        input: b"",
        output: b"385",
        end: Ending::Ended,
    },
    Row {
        text: br"let id == \x: int | bool | intvar. x in
new v:int := 1 in (id v := 5; putint (id v); if id true then putint 1 else putint 0)",
        input: b"",
        output: b"51",
        end: Ending::Ended,
    },
    Row {
        text: b"(escape e in (putint 1; e; putint 2)); putint 3",
        input: b"",
        output: b"13",
        end: Ending::Ended,
    },
    Row {
        text: br"new k:int := 1 in
let p == \c:comm. new a:int := 5 in new b:int := 6 in while true do (k := k + a; c; k := 0) in
(escape e in p e; putint k)",
        input: b"",
        output: b"6",
        end: Ending::Ended,
    },
    Row {
        text: b"let s == seq(10,20,30) in (putint (s 1 + s.len); putint (s 3))",
        input: b"",
        output: b"23",
        end: Ending::Fault {
            kind: FaultKind::Range,
            place: Place { line: 1, col: 10 },
        },
    },
    Row {
        text: b"new c:int := 0 in (read c; while c >= 0 do (putchar (chr c); read c))",
        input: b"abc",
        output: b"abc",
        end: Ending::Ended,
    },
    Row {
        text: br"newintseq 3 (\a: intvarseq.
(a 0 := 5; a 2 := a 0 + 1; putint (a 0 + a 1 + a 2); putint a.len; putint (a 3)))",
        input: b"",
        output: b"113",
        end: Ending::Fault {
            kind: FaultKind::Range,
            place: Place { line: 1, col: 1 },
        },
    },
];

// So many definitions, each in the body of the one before, and the first one used in the innermost.
fn nested(alloc: Global, count: u32) -> Result<Vec<u8>, OutOfMemory> {
    let mut text = Vec::from_slice(alloc, b"let a == 7 in ")?;
    for _ in 1..count {
        text.extend_from_slice(b"let b == skip in ")?;
    }
    text.extend_from_slice(b"putint a")?;
    Ok(text)
}

// The copy rule does so, and so does the image: with the default stack, and with no more words than
// the greatest load of the copy rule.
fn runs_alike(rt: &impl Abort, alloc: Global, row: &Row<'_>) -> Result<(), Fail> {
    let p = phrase_of(alloc, row.text)?;
    let (copied, output) = copy(alloc, &p, 100_000, row.input)?;
    assert_eq!(rt; copied.end, row.end);
    assert_eq!(rt; output.bytes(), row.output);
    let (end, output) = run(alloc, &p, DEFAULT_WORDS, row.input)?;
    assert_eq!(rt; end, row.end);
    assert_eq!(rt; output.bytes(), row.output);
    let load = u32::try_from(copied.peak)?;
    let (end, output) = run(alloc, &p, load.max(LEAST_WORDS), row.input)?;
    assert_eq!(rt; end, row.end);
    assert_eq!(rt; output.bytes(), row.output);
    Ok(())
}

#[test]
fn images_run_as_the_copy_rule(rt: HostRuntime) -> Result<(), Fail> {
    let alloc = rt.alloc();
    for row in &ROWS {
        runs_alike(&rt, alloc, row)?;
    }
    let text = nested(alloc, 200)?;
    let row = Row {
        text: text.as_slice(),
        input: b"",
        output: b"7",
        end: Ending::Ended,
    };
    runs_alike(&rt, alloc, &row)
}

// Texts that recur without an end, and what they put before. The second makes six steps more.
const RECURSIONS: [(&[u8], u32, &[u8]); 2] = [
    (
        br"letrec f : int -> comm where f == \n:int. f(n+1) in f 0",
        1000,
        b"",
    ),
    (
        br"putint 1; letrec f : int -> comm where f == \n:int. f(n+1) in f 0",
        1006,
        b"1",
    ),
];

// By then the copy rule's load is past the least stack.
#[test]
fn recursions_use_up_the_stack(rt: HostRuntime) -> Result<(), Fail> {
    let alloc = rt.alloc();
    for (text, steps, put) in RECURSIONS {
        let p = phrase_of(alloc, text)?;
        let (copied, output) = copy(alloc, &p, steps, b"")?;
        let spent = CopyRun {
            end: Ending::Spent,
            steps: steps as u64,
            peak: 8606,
        };
        assert_eq!(rt; copied, spent);
        assert_eq!(rt; output.bytes(), put);
        let (end, output) = run(alloc, &p, LEAST_WORDS, b"")?;
        assert_eq!(rt; end, Ending::Exhausted);
        assert_eq!(rt; output.bytes(), put);
    }
    Ok(())
}
