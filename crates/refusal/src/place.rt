// Where a call refused; what a cause lacks is 0.
#[derive(Clone, Copy, Debug, Default, PartialEq, Eq)]
pub struct Place {
    pub line: usize,
    pub column: usize,
    pub item: usize,
    pub pc: u32,
    pub address: u32,
    pub part: u8,
}
