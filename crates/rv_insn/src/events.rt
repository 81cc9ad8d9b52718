//! What one instruction leads to, and how a machine stands.

use fy_base::{FaultKind, Place, TrapKind};

/// What the execution of one instruction leads to.
#[derive(Clone, Copy, PartialEq, Eq, Debug)]
pub enum Event {
    /// Nothing but the next instruction.
    Going,
    /// This byte is put out.
    Put(u8),
    /// The machine waits for the next byte of the input.
    WantByte,
    /// The program has ended.
    Ended,
    /// The program has faulted at a place of its source.
    Fault { kind: FaultKind, place: Place },
    /// The stack would not have sufficed.
    Exhausted,
    /// The instruction, or its fetch, is none that the machine executes.
    Trap(TrapKind),
}

/// How a machine stands between two instructions.
#[derive(Clone, Copy, PartialEq, Eq, Debug)]
pub enum Status {
    /// It executes the next instruction.
    Running,
    /// It waits for a byte of the input.
    Waiting,
    /// It executes no further instruction.
    Stopped,
}
