// Memories, known by what each of their addresses means.
#![tactic(auto)]

pub mod calls;
pub mod cell;
pub mod memory;
pub mod span;
