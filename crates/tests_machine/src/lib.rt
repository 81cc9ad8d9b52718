//! Tests of instructions, code and the machines, through the public calls of their crates.
#![tactic(auto)]

#[cfg(test)]
mod tests;
