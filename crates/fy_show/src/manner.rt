//! How the parts of a phrase are shown.

/// How the parts of a phrase are shown.
#[derive(Clone, Copy, PartialEq, Eq, Debug)]
pub enum Manner {
    /// Whole.
    Whole,
    /// Each as `..`.
    Bare,
    /// Each whole where it has at most so many bytes, else bare where that has, else as `..`.
    Short(usize),
    /// Each cut to so many bytes.
    Cut(usize),
}
