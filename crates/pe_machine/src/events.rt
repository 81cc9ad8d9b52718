//! What steps come to.

use fy_base::{Datum, FaultKind, Place, PutKind};

/// What a step came to.
#[derive(Clone, Copy, PartialEq, Eq, Debug)]
pub enum PeEvent {
    /// The state goes on.
    Going,
    /// The state goes on, and the text of this datum, which is of the kind, is to be put.
    Put(PutKind, Datum),
    /// The state waits for the next byte of input.
    WantByte,
    /// The state was at its end already, and no step was made.
    Ended,
    /// The program faults.
    Fault { kind: FaultKind, place: Place },
    /// The next load would pass the limit, and no step was made.
    Exhausted,
    /// A frame that was named isn't there.
    Gone,
    /// The machine has no step here.
    Stuck,
}

/// Whether a state goes on, waits for a byte or is over.
#[derive(Clone, Copy, PartialEq, Eq, Debug)]
pub enum Phase {
    Going,
    Waiting,
    Over,
}
