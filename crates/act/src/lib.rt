// Acts and items.
#![tactic(auto)]

pub mod act;
pub mod display;
pub mod form;
pub mod item;
pub mod new;
