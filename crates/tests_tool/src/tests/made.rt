//! What several tests make.

use fy_base::MemoryFiles;
use std::alloc::Global;
use std::test::Fail;

/// The files that each call is made on, with their bytes.
pub const FILES: &[(&str, &[u8])] = &[
    (
        "sum.fy",
        br"let sum == \i:intvar. \n:int. \e:int. \r:intacc. new s:int := 0 in (i := 1; while i <= n do (s := s + e; i := i + 1); r := s) in new i:int := 0 in new r:int := 0 in (sum i 10 (i*i) r; putint r)",
    ),
    ("end.fy", b"new c:int := 0 in (read c; putint c)"),
    (
        "echo.fy",
        b"new c:int := 0 in (read c; while c >= 0 do (putchar (chr c); read c))",
    ),
    ("three.fy", b"putint(1+2)"),
    ("skip.fy", b"skip"),
    ("cut.fy", b"putint(1+2"),
    (
        "by_hand",
        b"rule 2 ns rule 2 ns rule 2 ns rule 2 ns rule 2 ns rule 0",
    ),
    // It writes `A` and ends.
    (
        "image",
        b"FORSYF64\x01\0\0\0\0\x04\0\0\x05\0\0\0\0\0\0\0\0\0\0\0\0\0\0\0\x13\x05\x10\x04\x93\x08\x10\0\x73\0\0\0\x93\x08\0\0\x73\0\0\0",
    ),
    // Its one word is no instruction.
    (
        "trap",
        b"FORSYF64\x01\0\0\0\0\x04\0\0\x01\0\0\0\0\0\0\0\0\0\0\0\0\0\0\0\x73\0\x10\0",
    ),
];

/// These files, of which calls of some numbers, from 0, fail.
pub fn files_with(alloc: Global, failing: Vec<u64>) -> Result<MemoryFiles, Fail> {
    let mut files = MemoryFiles::new(alloc, failing);
    for (name, bytes) in FILES {
        files.hold(alloc, name, bytes)?;
    }
    Ok(files)
}

/// The words of a call.
pub fn words_of(alloc: Global, words: &[&str]) -> Result<Vec<String>, Fail> {
    let mut all = Vec::new(alloc);
    for word in words {
        all.push(String::from_str(alloc, word)?)?;
    }
    Ok(all)
}
