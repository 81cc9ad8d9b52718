//! Tests of the top call where calls on the outside fail, and where pieces tear.
#![tactic(auto)]

#[cfg(test)]
mod tests;
