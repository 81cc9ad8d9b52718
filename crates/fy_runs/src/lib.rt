//! What runs of all machines have in common.
#![tactic(auto)]
