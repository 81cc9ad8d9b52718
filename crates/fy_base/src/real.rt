//! The real outside. It tells no content, and counts its errors.

ghost use Rattle.std.specs.Prelude.{None};

use crate::outside::{Failed, FetchError, Files, KeepError, Sink, Source};
use std::alloc::Global;
use std::fs;
use std::fs::File;
use std::io::{ErrorKind, Read, Write};
use std::rt::Files as System;

/// A reader as a source. Once ended it stays ended, also where the reader is a terminal. It doesn't
/// buffer: hand it a reader that does.
#[derive(Drop)]
pub struct RealSource<R> {
    inner: R,
    ended: bool,
    faults: u64,
}

impl<R> RealSource<R> {
    pub fn new(inner: R) -> RealSource<R> {
        RealSource {
            inner,
            ended: false,
            faults: 0,
        }
    }
}

impl<R: Read> Source for RealSource<R> {
    ghost left = { λ _. None };

    ghost faults = { λ s. s.faults };

    fn take(&mut self, room: &mut [u8]) -> Result<usize, Failed> {
        if self.ended {
            return Ok(0);
        }
        match self.inner.read(room) {
            Ok(count) => {
                self.ended = count == 0 && !room.is_empty();
                Ok(count)
            }
            Err(_) => {
                self.faults = self.faults.saturating_add(1);
                Err(Failed)
            }
        }
    }
}

/// A writer as a sink. It writes through and flushes at each piece.
#[derive(Drop)]
pub struct RealSink<W> {
    inner: W,
    faults: u64,
}

impl<W> RealSink<W> {
    pub fn new(inner: W) -> RealSink<W> {
        RealSink { inner, faults: 0 }
    }
}

impl<W: Write> Sink for RealSink<W> {
    ghost held = { λ _. None };

    ghost faults = { λ s. s.faults };

    fn put(&mut self, piece: &[u8]) -> Result<(), Failed> {
        if self.inner.write_all(piece).is_ok() && self.inner.flush().is_ok() {
            return Ok(());
        }
        self.faults = self.faults.saturating_add(1);
        Err(Failed)
    }
}

/// The files of the system. They have one count for all faults of all names.
#[derive(Drop)]
pub struct RealFiles<'a, R> {
    system: &'a R,
    faults: u64,
    fetches: u64,
    keeps: u64,
}

impl<'a, R> RealFiles<'a, R> {
    pub fn new(system: &'a R) -> RealFiles<'a, R> {
        RealFiles {
            system,
            faults: 0,
            fetches: 0,
            keeps: 0,
        }
    }
}

// The first bytes of a file, one more than the limit where it has so many.
fn read_start<R: System>(
    system: &R,
    alloc: Global,
    name: &str,
    limit: usize,
) -> Result<Vec<u8>, ErrorKind> {
    let most = u64::try_from(limit).unwrap_or(u64::MAX).saturating_add(1);
    let file = match File::open(system, name) {
        Ok(file) => file,
        Err(error) => return Err(error.kind()),
    };
    let mut bytes = Vec::new(alloc);
    match file.take(most).read_to_end(&mut bytes) {
        Ok(_) => Ok(bytes),
        Err(error) => Err(error.kind()),
    }
}

impl<R: System> Files for RealFiles<'_, R> {
    ghost held = { λ _. None };

    ghost fetch_faults = { λ s _. s.faults };

    ghost keep_faults = { λ s _. s.faults };

    ghost calls = { λ s. record { fetches = s.fetches; keeps = s.keeps } };

    fn fetch(&mut self, alloc: Global, name: &str, limit: usize) -> Result<Vec<u8>, FetchError> {
        self.fetches = self.fetches.saturating_add(1);
        match read_start(self.system, alloc, name, limit) {
            Ok(bytes) if bytes.len() > limit => Err(FetchError::TooLong),
            Ok(bytes) => Ok(bytes),
            Err(ErrorKind::OutOfMemory) => Err(FetchError::OutOfMemory),
            Err(kind) => {
                self.faults = self.faults.saturating_add(1);
                if kind == ErrorKind::NotFound {
                    return Err(FetchError::Missing);
                }
                Err(FetchError::Failed)
            }
        }
    }

    fn keep(&mut self, _alloc: Global, name: &str, bytes: &[u8]) -> Result<(), KeepError> {
        self.keeps = self.keeps.saturating_add(1);
        match fs::write(self.system, name, bytes) {
            Ok(()) => Ok(()),
            Err(_) => {
                self.faults = self.faults.saturating_add(1);
                Err(KeepError::Failed)
            }
        }
    }
}
