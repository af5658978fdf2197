// Memories over other memories.
#![tactic(auto)]

pub mod laws;
pub mod lent;
pub mod lock;
pub mod split;
