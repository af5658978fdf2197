// Why calls refuse.
#![tactic(auto)]

pub mod fault;
pub mod numbers;
pub mod place;
pub mod refusal;
