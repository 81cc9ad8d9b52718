//! The tree of the grammar: what it is, which tokens spell it, how deep it is, and its text.
#![tactic(auto)]

mod depth;
mod laws;
mod printer;
mod surface;
mod types;

pub use depth::nesting;
pub use laws::{grammar_is_unambiguous, names_are_of_tokens, phrases_are_spelled_again};
pub use printer::{operator_word, prefix_word, print_surface};
pub use surface::{Def, DefList, Link, LinkList, PrefixList, Prefixed, Surface, SurfaceList};
pub use types::{Decl, DeclList, NameList, SurfaceTy, SurfaceTyList};
