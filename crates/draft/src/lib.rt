// Drafts of routines: a table of items, and labels that are placed between them.
#![tactic(auto)]

pub mod call;
pub mod debt;
pub mod draft;
pub mod label;
pub mod parts;
