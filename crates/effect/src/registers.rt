// The registers and the carry of a core.
#[derive(Clone, Copy, Debug, PartialEq, Eq)]
pub struct Registers {
    pub words: [u32; 32],
    pub carry: bool,
}
