//! The last instructions of a run.

ghost use Rattle.std.specs.Prelude.{◌≡◌, [], IfOk, drop, slice_get};
ghost use Rattle.circular_buffer.specs.Buffer.{buffer};

use circular_buffer::HeapCircularBuffer;
use fy_base::OutOfMemory;
use rv_machine::{Fetched, Watch};
use std::alloc::Global;

/// The last words that a run fetched, the oldest first.
#[derive(Drop)]
pub struct Trace {
    pub(crate) words: HeapCircularBuffer<Fetched>,
}

impl Trace {
    /// An empty trace, which keeps so many words.
    pub fn new(alloc: Global, count: u32) -> Result<Trace, OutOfMemory>
        ensures { IfOk result (λ trace. trace.words ≡ buffer [] count) }
    {
        Ok(Trace {
            words: HeapCircularBuffer::with_capacity(alloc, count as usize)?,
        })
    }

    /// Takes the oldest word.
    pub fn pop(&mut self) -> Option<Fetched>
        ensures word { result ≡ slice_get self.old.words.items 0 }
        ensures rest { self.new.words.items ≡ drop 1 self.old.words.items }
    {
        self.words.pop_front()
    }
}

impl Watch for Trace {
    ghost room = { λ trace. trace.words.capacity };

    ghost held = { λ trace. trace.words.items };

    fn fetched(&mut self, pc: u64, word: u32) {
        self.words.push_back(Fetched { pc, word });
    }
}
