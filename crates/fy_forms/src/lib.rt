//! Path forms: making, meeting and joining them.
#![tactic(auto)]

mod error;
mod form;
mod fresh;
mod fronted;
mod index;
mod join_forms;
mod kept;
mod meet_forms;
mod number;
mod rows;
mod same;
mod size;
mod sized;

pub use error::TypeError;
pub use form::paths_of;
pub use fronted::{call_form, field_form};
pub use index::{Groups, candidates, groups_of, key_of, mark};
pub use join_forms::join;
pub use meet_forms::{meet, meet_with};
pub use number::{mixed, number_of, number_of_form, place};
pub use same::{are_same_paths, is_same_path};
pub use size::{Size, size_of_paths};
