// Operations, branches, and the forms that spell them.
#![tactic(auto)]

pub mod bytes;
pub mod form;
pub mod normal;
pub mod operation;
pub mod rule;
