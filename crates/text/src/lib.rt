// Names and text of operations.
#![tactic(auto)]

pub mod mnemonic;
pub mod named;
pub mod names;
pub mod operation;
pub mod written;
