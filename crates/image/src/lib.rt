// Images as hexadecimal text.
#![tactic(auto)]

mod base;
mod digit;
pub mod image;
mod place;
mod read;
pub mod reading;
pub mod trouble;
