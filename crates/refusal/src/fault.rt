// Why a memory refused a byte, and which part of it did.
#[derive(Clone, Copy, Debug, PartialEq, Eq)]
pub enum Fault {
    Absent { part: u8 },
    ReadOnly { part: u8 },
}
