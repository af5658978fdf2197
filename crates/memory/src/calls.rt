// Calls to a memory, one after another.
ghost use Rattle.std.specs.Prelude.{◌≡◌, ℕ};
ghost use Rattle.memory.specs.Calls.{after_call, after_calls, permission};

use crate::memory::Memory;

// A call, as data.
#[derive(Clone, Copy, Debug, PartialEq, Eq)]
pub enum Call {
    Ask { address: u32 },
    Read { address: u32 },
    Write { address: u32, byte: u8 },
}

impl Call {
    fn make<M: Memory>(self, memory: &mut M)
        ensures { M.means memory.new ≡ after_call (M.means memory.old) self }
    {
        match self {
            Call::Ask { address } => {
                let _ = memory.ask(address);
            }
            Call::Read { address } => {
                let _ = memory.read(address);
            }
            Call::Write { address, byte } => {
                let _ = memory.write(address, byte);
            }
        }
    }
}

// Makes the calls for what they leave. Whichever they are, no address changes between absent,
// read-only and writable, and the same part refuses there.
#[tactic(auto, using(crate::proofs::Permissions::calls_permission))]
pub fn make_calls<M: Memory>(memory: &mut M, calls: &[Call])
    ensures after { M.means memory.new ≡ after_calls (M.means memory.old) calls.now }
    ensures permissions { (address : ℕ) → permission (M.means memory.new address) ≡ permission (M.means memory.old address) }
{
    for call in calls {
        call.make(memory);
    }
}
