//! Tests of types, phrases, derivations and the copy rule, through the public calls of their crates.
#![tactic(auto)]

#[cfg(test)]
mod tests;
