// What an address is expected to mean, and whether a memory behaves so.
// The answers are written apart from `Cell::on_read` and `on_write`, so that no test takes them from what it tests.
use memory::cell::Cell;
use memory::memory::Memory;
use refusal::fault::Fault;
use std::test::Fail;

// An address and its cell.
pub type Expected = (u32, Cell);

// What a read of the cell has to answer.
fn read(cell: Cell) -> Result<u8, Fault> {
    match cell {
        Cell::Absent { part } => Err(Fault::Absent { part }),
        Cell::ReadOnly { byte, .. } | Cell::Writable { byte } => Ok(byte),
    }
}

// What a write has to answer.
fn write(cell: Cell) -> Result<(), Fault> {
    match cell {
        Cell::Absent { part } => Err(Fault::Absent { part }),
        Cell::ReadOnly { part, .. } => Err(Fault::ReadOnly { part }),
        Cell::Writable { .. } => Ok(()),
    }
}

// What a write of the byte has to leave.
fn left(cell: Cell, byte: u8) -> Cell {
    match cell {
        Cell::Writable { .. } => Cell::Writable { byte },
        _ => cell,
    }
}

// Asks, reads, writes 0xA5 and asks again.
fn behaves<M: Memory>(memory: &mut M, expected: Expected) -> bool {
    let (address, cell) = expected;
    memory.ask(address) == cell
        && memory.read(address) == read(cell)
        && memory.write(address, 0xA5) == write(cell)
        && memory.ask(address) == left(cell, 0xA5)
}

pub(crate) fn all_behave<M: Memory>(memory: &mut M, expected: &[Expected]) -> Result<(), Fail> {
    match expected.iter().position(|one| !behaves(memory, *one)) {
        Some(i) => Err(Fail::new(i)),
        None => Ok(()),
    }
}
