// The labels of a draft.

// A free label can be placed or reserved, a reserved one has a debt, and a placed one stands before the item at its
// place, or at the end.
#[derive(Clone, Copy, Debug, PartialEq, Eq)]
pub enum LabelState {
    Free,
    Reserved,
    At(usize),
}

// All labels, by number.
#[derive(Clone, Copy)]
pub struct Labels {
    pub(crate) states: [LabelState; 256],
}
