// Loads and stores, byte by byte, the low byte lowest. A store asks about all its bytes before it writes any.
ghost use Rattle.std.specs.Prelude.{◌≡◌, ◌+◌, ◌^◌, ◌≤◌};
ghost use Rattle.effect.specs.Access.{width_of, is_store, widened, at_address, bytes_at, load, bytes_writable, writable, bytes_written_if, stored_if};

use crate::trap::Trap;
use crate::width::Width;
use alu::extend::SignExtend;
use isa::operation::AccessOp;
use memory::memory::Memory;
use refusal::fault::Fault;

pub(crate) fn width_of(op: AccessOp) -> Width
    ensures { result ≡ width_of op }
{
    match op {
        AccessOp::LdB | AccessOp::LdBs | AccessOp::StB => Width::Byte,
        AccessOp::LdH | AccessOp::LdHs | AccessOp::StH => Width::Halfword,
        AccessOp::LdW | AccessOp::StW => Width::Word,
    }
}

pub(crate) fn is_store(op: AccessOp) -> bool
    ensures { result ≡ is_store op }
{
    matches!(op, AccessOp::StB | AccessOp::StH | AccessOp::StW)
}

// What a memory answered of the byte at an address, its fault as a trap.
fn at_address<T>(address: u32, answer: Result<T, Fault>) -> Result<T, Trap>
    ensures { result ≡ at_address address answer }
{
    answer.map_err(|fault| Trap::Faulted { address, fault })
}

// The N bytes from an address on.
fn read<const N: usize, M: Memory>(memory: &M, at: u32) -> Result<[u8; N], Trap>
    requires { at + N ≤ 2 ^ 32 }
    ensures { result ≡ bytes_at N (M.means memory.now) at }
{
    let mut bytes = [0; N];
    for i in 0..N {
        let address = at + i as u32;
        // by index: the checker does not follow what is written through `iter_mut`
        bytes[i] = at_address(address, memory.read(address))?;
    }
    Ok(bytes)
}

// Whether `count` bytes from an address on may be written.
fn ask<M: Memory>(memory: &M, at: u32, count: usize) -> Result<(), Trap>
    requires { at + count ≤ 2 ^ 32 }
    ensures { result ≡ bytes_writable count (M.means memory.now) at }
{
    for i in 0..count {
        let address = at + i as u32;
        at_address(address, memory.ask(address).on_write())?;
    }
    Ok(())
}

// Writes the N bytes from an address on where all of them may be written.
fn write<const N: usize, M: Memory>(memory: &mut M, at: u32, bytes: [u8; N]) -> Result<(), Trap>
    requires { at + N ≤ 2 ^ 32 }
    ensures answer { result ≡ bytes_writable N (M.means memory.old) at }
    ensures after { M.means memory.new ≡ bytes_written_if (bytes_writable N (M.means memory.old) at) (M.means memory.old) at bytes.entry }
{
    ask(memory, at, N)?;
    for (i, &byte) in bytes.iter().enumerate() {
        let _ = memory.write(at + i as u32, byte);
    }
    Ok(())
}

// The value at `at`, zero extended.
pub(crate) fn load<M: Memory>(memory: &M, width: Width, at: u32) -> Result<u32, Trap>
    ensures { result ≡ load width (M.means memory.now) at }
{
    width.check(at)?;
    match width {
        Width::Byte => Ok(u32::from(u8::from_le_bytes(read(memory, at)?))),
        Width::Halfword => Ok(u32::from(u16::from_le_bytes(read(memory, at)?))),
        Width::Word => Ok(u32::from_le_bytes(read(memory, at)?)),
    }
}

// Writes the low bytes of `value` where all of them may be written.
pub(crate) fn store<M: Memory>(
    memory: &mut M,
    width: Width,
    at: u32,
    value: u32,
) -> Result<(), Trap>
    ensures answer { result ≡ writable width (M.means memory.old) at }
    ensures after { M.means memory.new ≡ stored_if (writable width (M.means memory.old) at) width (M.means memory.old) at value }
{
    width.check(at)?;
    let [a, b, c, d] = value.to_le_bytes();
    match width {
        Width::Byte => write(memory, at, [a]),
        Width::Halfword => write(memory, at, [a, b]),
        Width::Word => write(memory, at, [a, b, c, d]),
    }
}

// What a load makes of the value it found.
pub(crate) fn widen(op: AccessOp, value: u32) -> u32
    ensures { result ≡ widened op value }
{
    let [low, high, ..] = value.to_le_bytes();
    match op {
        AccessOp::LdBs => low.sign_extend(),
        AccessOp::LdHs => u16::from_le_bytes([low, high]).sign_extend(),
        _ => value,
    }
}
