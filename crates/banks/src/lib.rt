// Memories with bytes of their own.
#![tactic(auto)]

pub mod bank;
pub mod mailbox;
mod ram;
pub mod store;
