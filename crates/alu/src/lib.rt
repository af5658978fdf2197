// What operations compute, of values alone.
#![tactic(auto)]

pub mod extend;
pub mod results;
pub mod shifts;
pub mod worked;
