//! What steps come to.

use fy_base::{FaultKind, Place, Text};
use fy_phrase::Phrase;

/// What a step came to.
#[derive(Debug, Drop)]
pub enum Progress {
    /// The state goes on.
    Going,
    /// The state goes on, and these bytes are to be put.
    Put(Text),
    /// The state waits for the next byte of input.
    WantByte,
    /// The state was at its end already, and no step was made.
    Ended,
    /// The program faults.
    Fault { kind: FaultKind, place: Place },
    /// The copy rule has no step here.
    Stuck,
    /// The next focus would have more than 1,048,576 nodes or nest more than 2,048, and no step was
    /// made.
    TooBig,
}

/// What a step without input came to, where the next focus isn't measured yet.
#[derive(Debug, Drop)]
pub enum Turn {
    Going,
    Put(Text),
    Fault { kind: FaultKind, place: Place },
    Stuck,
    /// The next focus was found to pass the limit on held phrases.
    TooBig,
}

/// What a binding's body came to.
#[derive(Debug, Drop)]
pub enum Body {
    /// Nothing demands it.
    Undemanded,
    /// It would pass the limit on held phrases.
    TooBig,
    Made(Phrase),
}

/// Which part of a list an index picked.
#[derive(Debug, Drop)]
pub enum Picked {
    Part(Phrase),
    /// The index is outside the list.
    NoPart,
    /// The datum isn't an integer.
    NoIndex,
}
