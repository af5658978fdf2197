// Setting a patch.
ghost use Rattle.std.specs.Prelude.{◌≡◌, ◌+◌, ◌%◌, ◌^◌, ◌<◌, ◌≤◌, length};
ghost use Rattle.cpu.specs.Patch.{on_ok, whole, patch_index, patched_if, put_back};

use crate::patch::{Breakpoint, Patch};
use crate::processor::Core;
use memory::span::offset;
use refusal::refusal::Refusal;

// A whole instruction lies at the index: two bytes, and four where the top two bits of their halfword are 11.
fn is_whole(code: &[u8], at: usize) -> bool
    ensures { result ≡ whole code.now at }
{
    matches!(code.get(at..), Some([_, 0..=0xbf, ..] | [_, _, _, _, ..]))
}

impl Core {
    // The index in the code of the instruction at an address.
    pub(crate) fn patch_index(&self, code: &[u8], address: u32) -> Result<usize, Refusal>
        ensures { result ≡ patch_index self.now.base self.now.length code.now address }
    {
        if code.len() != self.length {
            return Err(Refusal::InvalidArgument);
        }
        match offset(self.base, self.length, address) {
            Some(at) if address % 2 == 0 && is_whole(code, at) => Ok(at),
            _ => Err(Refusal::NoInstruction { pc: address }),
        }
    }

    // Sets bkpt at an address of the image; where that is refused, sets nothing.
    // Not a `Result<Patch, _>`: the checker does not follow a slice that is lent into one.
    pub fn patch<'a>(&self, code: &'a mut [u8], address: u32) -> Patch<'a>
        ensures same { result.code.ghost_name ≡ code.entry.ghost_name }
        ensures answer { on_ok (λ b. b.at) result.breakpoint ≡ patch_index self.now.base self.now.length code.old address }
        ensures bytes { result.code.now ≡ patched_if (patch_index self.now.base self.now.length code.old address) code.old }
        ensures back { put_back result.breakpoint result.code.now ≡ code.old }
    {
        // a match, since `map` does not say that a closure which is not called leaves the code
        let breakpoint = match self.patch_index(code, address) {
            Ok(at) => Ok(Breakpoint::set(code, at)),
            Err(refusal) => Err(refusal),
        };
        Patch { code, breakpoint }
    }
}
