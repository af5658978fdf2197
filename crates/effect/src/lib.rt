// What an operation does to registers, carry and memory.
#![tactic(auto)]

mod access;
pub mod act;
pub mod branch;
pub mod file;
pub mod obey;
pub mod registers;
pub mod trap;
pub mod width;
pub mod worked;
