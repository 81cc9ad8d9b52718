//! What an image holds.

use fy_base::{DoubleList, PlaceList, WordList};

/// A compiled program. Every call that takes an image needs its fields in the ranges given here,
/// and every call that gives one keeps them.
#[derive(Debug, Drop)]
pub struct Image {
    /// The words of 8 bytes of the machine's stack, 1,024 to 67,108,864.
    pub stack_words: u32,
    /// The instructions, 1 to 4,194,304.
    pub code: WordList,
    /// The words of the table region, at most 1,048,576.
    pub table: DoubleList,
    /// The places that faults name by their number, at most 524,288. No line or column is 0.
    pub places: PlaceList,
}
