// Example maps, and the tests of memories at their edges.
#![tactic(auto)]

pub mod board;
pub mod loan;
#[cfg(test)]
mod tests;
