// A debt: a label of the draft with this tag that is reserved and has yet to be placed. It cannot be let go, since it is
// not `Drop`: it ends where the draft settles it or writes it off.
pub struct Debt {
    pub(crate) tag: u32,
    pub(crate) label: u8,
}
