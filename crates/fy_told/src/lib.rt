//! Why a derivation is refused, told with the names of the source.
#![tactic(auto)]

mod form_words;
mod premise;
mod reason;
mod refusal;
mod table_types;
mod types_told;
mod wheres;

pub use refusal::print_refusal;
pub use table_types::put_cut_type;
pub use wheres::put_variable;
