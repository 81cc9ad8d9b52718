//! Tests of the crates that read texts, through their public calls.
#![tactic(auto)]

#[cfg(test)]
mod tests;
