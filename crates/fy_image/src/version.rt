//! The versions of the form.

/// A version of the form. Images are written in the second, and both are read.
#[derive(Clone, Copy)]
pub enum Version {
    /// A stack of at most 16,777,216 words, and places of eight bytes.
    One,
    /// A stack of at most 67,108,864 words, and places of two short numbers.
    Two,
}
