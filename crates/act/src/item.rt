// What a routine is made of: an act, or a branch to a label.
use crate::act::Act;
use isa::operation::Branch;

#[derive(Clone, Copy, Debug, PartialEq, Eq)]
pub enum Item {
    Act(Act),
    Branch { branch: Branch, label: u8 },
}
