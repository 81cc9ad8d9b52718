//! The numbers of a file.

/// A number of 2, 4 or 8 bytes.
#[derive(Clone, Copy)]
pub enum Number {
    /// Of 2 bytes.
    Half(u16),
    /// Of 4 bytes.
    Word(u32),
    /// Of 8 bytes.
    Double(u64),
}
