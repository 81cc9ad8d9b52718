//! One call on the outside fails.

use crate::tests::made::{FILES, files_with, words_of};
use fy_base::{MemoryFiles, MemorySink, MemorySource};
use fy_tool::forsythe;
use std::alloc::Global;
use std::test::Fail;

// A call of the program: its words, the input, and the name of the image that it keeps, or that none does.
#[derive(Clone, Copy, Debug, Drop)]
struct Call {
    words: &'static [&'static str],
    input: &'static [u8],
    image: &'static str,
}

const SUM: Call = Call {
    words: &["run", "sum.fy"],
    input: b"",
    image: "sum.fy.img",
};

const END: Call = Call {
    words: &["run", "end.fy"],
    input: b"",
    image: "end.fy.img",
};

const ECHO: Call = Call {
    words: &["run", "echo.fy"],
    input: b"abc",
    image: "echo.fy.img",
};

const BUILD: Call = Call {
    words: &["build", "three.fy", "--image=o"],
    input: b"",
    image: "o",
};

const RUN_AS: Call = Call {
    words: &["run", "three.fy", "--image=o"],
    input: b"",
    image: "o",
};

const NAMED: Call = Call {
    words: &["run", "skip.fy", "--derivation=by_hand", "--image=o"],
    input: b"",
    image: "o",
};

const MISSING: Call = Call {
    words: &["run", "none.fy"],
    input: b"",
    image: "none.fy.img",
};

const EXEC: Call = Call {
    words: &["exec", "image"],
    input: b"",
    image: "image.img",
};

const TRAP: Call = Call {
    words: &["exec", "trap"],
    input: b"",
    image: "trap.img",
};

const LIST: Call = Call {
    words: &["list", "three.fy"],
    input: b"",
    image: "three.fy.img",
};

// The object of which a call fails.
#[derive(Clone, Copy, PartialEq, Eq, Debug, Drop)]
enum Object {
    Files,
    Input,
    Output,
    Notes,
}

use Object::{Files, Input, Notes, Output};

// A call of the program, the object and the number of its call that fails, what output and notes then
// hold, and whether the image was kept.
type Row = (Call, Object, u64, &'static [u8], &'static [u8], bool);

const ROWS: &[Row] = &[
    (SUM, Files, 0, b"", b"outside files\n", false),
    (SUM, Files, 1, b"", b"outside files\n", false),
    (SUM, Output, 0, b"", b"outside output\n", true),
    (SUM, Output, 1, b"3", b"outside output\n", true),
    (SUM, Notes, 0, b"385", b"", true),
    (END, Files, 0, b"", b"outside files\n", false),
    (END, Files, 1, b"", b"outside files\n", false),
    (END, Input, 0, b"", b"outside input\n", true),
    (END, Output, 0, b"", b"outside output\n", true),
    (END, Output, 1, b"-", b"outside output\n", true),
    (END, Notes, 0, b"-1", b"", true),
    (ECHO, Files, 0, b"", b"outside files\n", false),
    (ECHO, Files, 1, b"", b"outside files\n", false),
    (ECHO, Input, 0, b"", b"outside input\n", true),
    (ECHO, Input, 1, b"a", b"outside input\n", true),
    (ECHO, Input, 3, b"abc", b"outside input\n", true),
    (ECHO, Output, 0, b"", b"outside output\n", true),
    (ECHO, Output, 1, b"a", b"outside output\n", true),
    (ECHO, Notes, 0, b"abc", b"", true),
    (BUILD, Files, 0, b"", b"outside files\n", false),
    (BUILD, Files, 1, b"", b"outside files\n", false),
    (RUN_AS, Files, 0, b"", b"outside files\n", false),
    (RUN_AS, Files, 1, b"", b"outside files\n", false),
    (RUN_AS, Output, 0, b"", b"outside output\n", true),
    (RUN_AS, Notes, 0, b"3", b"", true),
    (NAMED, Files, 0, b"", b"outside files\n", false),
    (NAMED, Files, 1, b"", b"outside files\n", false),
    (NAMED, Files, 2, b"", b"outside files\n", false),
    (NAMED, Notes, 0, b"", b"", true),
    // It makes one call of notes, so that the missing file is all that fails in the first of these.
    (MISSING, Notes, 1, b"", b"outside files\n", false),
    (MISSING, Notes, 0, b"", b"", false),
    (EXEC, Files, 0, b"", b"outside files\n", false),
    (EXEC, Output, 0, b"", b"outside output\n", false),
    (EXEC, Notes, 0, b"A", b"", false),
    (TRAP, Notes, 0, b"", b"", false),
    (TRAP, Notes, 1, b"", b"trap illegal\n", false),
    (LIST, Files, 0, b"", b"outside files\n", false),
    (LIST, Output, 0, b"", b"outside output\n", false),
];

// The status of a call, and what it left.
#[derive(Debug, Drop)]
struct Left {
    status: u8,
    files: MemoryFiles,
    output: MemorySink,
    notes: MemorySink,
}

// The number of the call, where it fails.
fn failing(alloc: Global, fails: bool, number: u64) -> Result<Vec<u64>, Fail> {
    let mut numbers = Vec::new(alloc);
    if fails {
        numbers.push(number)?;
    }
    Ok(numbers)
}

// What a call of the program leaves where one call on the outside fails.
fn left_by(alloc: Global, call: &Call, object: Object, number: u64) -> Result<Left, Fail> {
    let words = words_of(alloc, call.words)?;
    let given = Vec::from_slice(alloc, call.input)?;
    let mut files = files_with(alloc, failing(alloc, object == Files, number)?)?;
    let mut input = MemorySource::new(given, failing(alloc, object == Input, number)?);
    let mut output = MemorySink::new(alloc, 64, failing(alloc, object == Output, number)?)?;
    let mut notes = MemorySink::new(alloc, 64, failing(alloc, object == Notes, number)?)?;
    let status = forsythe(
        alloc,
        words.as_slice(),
        &mut files,
        &mut input,
        &mut output,
        &mut notes,
    );
    Ok(Left {
        status,
        files,
        output,
        notes,
    })
}

// The status is 7, a part of what is due was done, and no file changes but the image.
#[test]
fn one_call_fails(rt: HostRuntime) -> Result<(), Fail> {
    let alloc = rt.alloc();
    for (call, object, number, output, notes, is_kept) in ROWS {
        let left = left_by(alloc, call, *object, *number)?;
        assert_eq!(rt; left.status, 7, "{call:?} {object:?} {number}");
        assert_eq!(rt;
            left.output.bytes(),
            *output,
            "{call:?} {object:?} {number}"
        );
        assert_eq!(rt; left.notes.bytes(), *notes, "{call:?} {object:?} {number}");
        assert_eq!(rt; left.files.content(call.image).is_some(), *is_kept);
        for (name, bytes) in FILES {
            assert_eq!(rt; left.files.content(name), Some(*bytes));
        }
    }
    Ok(())
}
