//! Sample programs: the text that a number and a size tell, and the summary of a run.
#![tactic(auto)]

mod laws;
mod sample;

pub use laws::samples_are_short;
pub use sample::{SummaryText, sample_text, summary};

#[cfg(test)]
mod tests;
