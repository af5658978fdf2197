// Bytes that lie at a base, all of them writable; any other address is absent, refused by a part.
ghost use Rattle.std.specs.Prelude.{◌≡◌};
ghost use Rattle.memory.specs.Cell.{on_write};
ghost use Rattle.memory.specs.Memory.{written};
ghost use Rattle.memory.specs.Span.{bytes_at};
ghost use Rattle.memory.specs.declared.cell.Cell.TheVariants.{Writable};

use memory::cell::Cell;
use memory::span::offset;
use refusal::fault::Fault;

pub(crate) fn ask(base: u32, bytes: &[u8], part: u8, address: u32) -> Cell
    ensures { result ≡ bytes_at Writable part base bytes.now address }
{
    match offset(base, bytes.len(), address) {
        Some(i) => Cell::Writable { byte: bytes[i] },
        None => Cell::Absent { part },
    }
}

pub(crate) fn write(
    base: u32,
    bytes: &mut [u8],
    part: u8,
    address: u32,
    byte: u8,
) -> Result<(), Fault>
    ensures answer { result ≡ on_write (bytes_at Writable part base bytes.old address) }
    ensures after { bytes_at Writable part base bytes.new ≡ written (bytes_at Writable part base bytes.old) address byte }
{
    let i = offset(base, bytes.len(), address).ok_or(Fault::Absent { part })?;
    bytes[i] = byte;
    Ok(())
}
