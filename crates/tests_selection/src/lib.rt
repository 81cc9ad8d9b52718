//! Tests of programs that are selected, assembled and run, beside the copy rule.
#![tactic(auto)]

#[cfg(test)]
mod tests;
