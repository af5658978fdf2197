// How instructions are shown.
#![tactic(auto)]

pub mod line;
