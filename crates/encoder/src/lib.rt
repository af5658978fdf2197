// The forms of operations and of branches, by the table's rows.
#![tactic(auto)]

pub mod branch;
mod held;
mod layout;
pub mod long;
mod operands;
mod row;
pub mod short;
