// A cell: what one address of a memory means, and what it answers.
ghost use Rattle.std.specs.Prelude.{◌≡◌};
ghost use Rattle.memory.specs.Cell.{on_read, on_write};

use refusal::fault::Fault;

// A byte or none, and the number of the part that refuses what is not allowed.
#[derive(Clone, Copy, Debug, PartialEq, Eq)]
pub enum Cell {
    // no byte; `part` refuses reads and writes
    Absent { part: u8 },
    // a byte that can be read; `part` refuses writes
    ReadOnly { byte: u8, part: u8 },
    // a byte that can be read and written
    Writable { byte: u8 },
}

impl Cell {
    // What a read answers.
    pub fn on_read(self) -> Result<u8, Fault>
        ensures { result ≡ on_read self }
    {
        match self {
            Cell::Absent { part } => Err(Fault::Absent { part }),
            Cell::ReadOnly { byte, .. } | Cell::Writable { byte } => Ok(byte),
        }
    }

    // What a write answers.
    pub fn on_write(self) -> Result<(), Fault>
        ensures { result ≡ on_write self }
    {
        match self {
            Cell::Absent { part } => Err(Fault::Absent { part }),
            Cell::ReadOnly { part, .. } => Err(Fault::ReadOnly { part }),
            Cell::Writable { .. } => Ok(()),
        }
    }
}
