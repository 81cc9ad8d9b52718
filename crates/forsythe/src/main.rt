//! The program: the top call over the files, the input, the output and the notes of the system.
#![tactic(auto)]

use fy_base::{RealFiles, RealSink, RealSource, Sink};
use fy_tool::forsythe;
use std::io::BufReader;
use std::process::ExitCode;
use std::rt::Env;
use std::{env, io};

// The statuses that this file itself ends with.
const USAGE: u8 = 5;

const MEMORY: u8 = 9;

// The words after the program's name.
fn words_of(rt: &(impl Env + AllocGlobal)) -> io::Result<Vec<String>> {
    let mut words = Vec::new(rt.alloc());
    for word in env::args(rt)?.skip(1) {
        words.push(word)?;
    }
    Ok(words)
}

fn main(rt: HostRuntime) -> ExitCode {
    let mut notes = RealSink::new(rt.stderr());
    let words = match words_of(&rt) {
        Ok(words) => words,
        Err(error) => {
            if error.kind() == io::ErrorKind::OutOfMemory {
                return ExitCode::from(MEMORY);
            }
            // A word that isn't UTF-8: the status is the same whether or not the note could be put.
            let _ = notes.put(b"usage\n");
            return ExitCode::from(USAGE);
        }
    };
    let Ok(reader) = BufReader::new(rt.alloc(), rt.stdin()) else {
        return ExitCode::from(MEMORY);
    };
    let mut files = RealFiles::new(&rt);
    let mut input = RealSource::new(reader);
    let mut output = RealSink::new(rt.stdout());
    let status = forsythe(
        rt.alloc(),
        words.as_slice(),
        &mut files,
        &mut input,
        &mut output,
        &mut notes,
    );
    ExitCode::from(status)
}
