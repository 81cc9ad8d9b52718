//! Derivations shown as trees.
#![tactic(auto)]

mod escape;
mod laws;
mod lets;
mod line;
mod node;
mod rule_words;
mod style;
mod walk;
mod whole;

pub use laws::conclusions_are_shown;
pub use style::{Form, Style};
pub use whole::print_tree;
