//! A sink tears a piece and fails.

use crate::tests::made::{files_with, words_of};
use fy_base::{Sink, SteadySink, SteadySource, TornSink};
use fy_tool::forsythe;
use std::alloc::Global;
use std::test::Fail;

// The status of a call of the program with these sinks.
fn status_of<O: Sink, N: Sink>(
    alloc: Global,
    words: &[&str],
    output: &mut O,
    notes: &mut N,
) -> Result<u8, Fail> {
    let words = words_of(alloc, words)?;
    let mut files = files_with(alloc, Vec::new(alloc))?;
    let mut input = SteadySource::new(Vec::new(alloc));
    Ok(forsythe(
        alloc,
        words.as_slice(),
        &mut files,
        &mut input,
        output,
        notes,
    ))
}

// The words of a call of the program, the number of the call of output that tears its piece, after how
// many bytes, and what output then holds.
const OUTPUTS: &[(&[&str], u64, usize, &[u8])] = &[
    (&["check", "three.fy"], 0, 0, b""),
    (&["check", "three.fy"], 0, 3, b"acc"),
    (&["check", "three.fy"], 0, 9, b"accepted\n"),
    (&["check", "three.fy"], 0, 64, b"accepted\n"),
    (&["run", "sum.fy"], 0, 0, b""),
    (&["run", "sum.fy"], 1, 0, b"3"),
    (&["run", "sum.fy"], 1, 1, b"38"),
    (&["run", "sum.fy"], 2, 64, b"385"),
    (&["list", "three.fy"], 0, 8, b"00010000"),
];

#[test]
fn output_tears_a_piece(rt: HostRuntime) -> Result<(), Fail> {
    let alloc = rt.alloc();
    for (words, call, count, held) in OUTPUTS {
        let mut output = TornSink::new(alloc, 64, *call, *count)?;
        let mut notes = SteadySink::new(alloc, 64)?;
        let status = status_of(alloc, words, &mut output, &mut notes)?;
        assert_eq!(rt; status, 7, "{words:?} {call} {count}");
        assert_eq!(rt; output.bytes(), *held, "{words:?} {call} {count}");
        assert_eq!(rt; notes.bytes(), b"outside output\n".as_slice());
    }
    Ok(())
}

// The words of a call of the program, the room of output, the number of the call of notes that tears its
// piece, after how many bytes, and what output and notes then hold.
const NOTES: &[(&[&str], usize, u64, usize, &[u8], &[u8])] = &[
    (&["run", "three.fy"], 64, 0, 0, b"3", b""),
    (&["run", "three.fy"], 64, 0, 5, b"3", b"instr"),
    (&["exec", "trap"], 64, 0, 4, b"", b"trap"),
    (&["exec", "trap"], 64, 1, 0, b"", b"trap illegal\n"),
    (
        &["exec", "trap"],
        64,
        1,
        64,
        b"",
        b"trap illegal\ninstructions 1\n",
    ),
    (&["check", "cut.fy"], 64, 0, 6, b"", b"syntax"),
    (&["run", "none.fy"], 64, 0, 7, b"", b"outside"),
    (&["run"], 64, 0, 2, b"", b"us"),
    (&["check", "three.fy"], 0, 0, 7, b"", b"outside"),
    (&["run", "three.fy"], 0, 0, 64, b"", b"outside output\n"),
];

#[test]
fn notes_tear_a_piece(rt: HostRuntime) -> Result<(), Fail> {
    let alloc = rt.alloc();
    for (words, room, call, count, put, told) in NOTES {
        let mut output = SteadySink::new(alloc, *room)?;
        let mut notes = TornSink::new(alloc, 64, *call, *count)?;
        let status = status_of(alloc, words, &mut output, &mut notes)?;
        assert_eq!(rt; status, 7, "{words:?} {call} {count}");
        assert_eq!(rt; output.bytes(), *put, "{words:?} {call} {count}");
        assert_eq!(rt; notes.bytes(), *told, "{words:?} {call} {count}");
    }
    Ok(())
}
