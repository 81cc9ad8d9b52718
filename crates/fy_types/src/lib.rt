//! Names, types, their path forms, and subtyping.
#![tactic(auto)]

mod back;
mod below;
mod copy;
mod names;
mod paths;
mod print;
mod subtype;
mod types;

pub use back::ty_of;
pub use below::is_below;
pub use copy::{copy_path, copy_paths, copy_ty, same_ty};
pub use names::{Name, Names};
pub use paths::{ElemList, Path, PathElem, Paths};
pub use print::print_ty;
pub use subtype::{is_end_below, is_subtype};
pub use types::{Atom, Ty, TyList};
