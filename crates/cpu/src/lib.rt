// A core that steps an image over any memory.
#![tactic(auto)]

mod fetch;
pub mod laws;
pub mod patch;
pub mod patching;
pub mod processor;
pub mod ran;
pub mod run;
pub mod run_to;
pub mod seat;
pub mod step;
