//! Items whose blocks are made.

ghost use Rattle.std.specs.Prelude.{◌≡◌, ◌+◌, ◌^◌, ◌≤◌, ℕ};
ghost use Rattle.rv_select.specs.Numbers.{entry_number, label_of};

use crate::numbers::{Numbers, Start};

/// The item at an address of code.
#[derive(Drop)]
pub struct Site<'a, 'c> {
    pub numbers: &'a Numbers<'c>,
    pub address: u32,
    /// How many frames are around that in which it runs.
    pub depth: u32,
    ghost shallow: { depth ≤ 512 },
}

impl Site<'_, '_> {
    /// The label of one of its first blocks.
    pub fn label(&self, number: u32) -> u32
        requires { number ≤ 40 }
        ensures is { result ≡ label_of self.now.numbers.now self.now.address + number }
        ensures few { result ≤ 2 ^ 20 + 40 }
    {
        self.numbers.start(self.address).label + number
    }

    /// The number of one of its first entries.
    pub fn entry(&self, number: u32) -> u32
        requires { number ≤ 8 }
        ensures { result ≡ entry_number self.now.numbers.now self.now.address + number }
    {
        self.numbers.start(self.address).entry + number
    }

    /// Where another item begins.
    pub fn start(&self, address: u32) -> Start
        ensures label { result.label ≡ label_of self.now.numbers.now address }
        ensures entry { result.entry ≡ entry_number self.now.numbers.now address }
    {
        self.numbers.start(address)
    }
}
