// What halfwords, words and codes spell.
#![tactic(auto)]

pub mod bytes;
pub mod decoded;
mod fields;
pub mod form;
pub mod halfword;
mod layouts;
pub mod word;
