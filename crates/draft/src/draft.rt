// A draft: its caller's tag, the size of its item table, the items and the labels.
ghost use Rattle.std.specs.Prelude.{◌≤◌, vec_len, vec_capacity};
ghost use Rattle.draft.specs.Labels.{AllWithin};

use crate::label::Labels;
use act::item::Item;

#[derive(Drop)]
pub struct Draft {
    pub(crate) tag: u32,
    pub(crate) size: usize,
    pub(crate) items: Vec<Item>,
    pub(crate) labels: Labels,
    ghost few: { vec_len items ≤ size },
    ghost small: { size ≤ 32768 },
    ghost room: { size ≤ vec_capacity items },
    ghost placed: { AllWithin labels.states (vec_len items) },
}
