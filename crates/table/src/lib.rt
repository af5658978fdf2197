// The instruction table, and what holds of it.
#![tactic(auto)]

pub mod laws;
