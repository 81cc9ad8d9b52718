//! How a tree is shown.

/// A text for a terminal, or one for LaTeX.
#[derive(Clone, Copy, PartialEq, Eq, Debug)]
pub enum Form {
    /// A line a node, its premises below it.
    Plain,
    /// Rules of inference, by the macros of `mathpartir`.
    Latex,
}

/// The form, and how many bytes a line of a text has.
#[derive(Clone, Copy, Debug)]
pub struct Style {
    pub form: Form,
    pub width: usize,
}
