// Why a call refused, with the place that the cause has. Columns and items count from 1.
#[derive(Clone, Copy, Debug, PartialEq, Eq)]
pub enum Refusal {
    // the line has more than 80 bytes
    LineTooLong,
    // a byte outside 32 to 126
    BadByte { column: usize },
    UnknownMnemonic { column: usize },
    // an operand is missing, extra, misspelt or of the wrong kind, or a label line is misspelt
    BadOperand { column: usize },
    LabelTooHigh { column: usize },
    // no form spells the act
    NoForm { column: usize },
    // the item table is full
    TableFull,
    // the label to place or to reserve is not free
    LabelTaken,
    // the debt's tag is not the draft's, or its label is not reserved
    NotOwed,
    // no item is there to take back, or a label stands at the end place
    NothingToTakeBack,
    // an odd base or start, a short length table, code of a length that does not suit
    InvalidArgument,
    // a branch to a label that is not placed
    LabelNotPlaced { item: usize },
    // no choice of forms lands every branch
    TooFar,
    // the image exceeds the code buffer or the address space
    NoRoom,
    // no whole instruction inside the image
    NoInstruction { pc: u32 },
    UnknownInstruction { pc: u32 },
    Breakpoint { pc: u32 },
    Misaligned { pc: u32, address: u32 },
    // a byte that no memory has
    Absent { pc: u32, address: u32, part: u8 },
    // a byte that may not be written
    ReadOnly { pc: u32, address: u32, part: u8 },
}
