// A core: registers and carry, an even PC, and the base and length of the image that it steps.
ghost use Rattle.std.specs.Prelude.{◌≡◌, ◌+◌, ◌%◌, ◌^◌, ◌<◌, ◌≤◌};

use effect::registers::Registers;

#[derive(Drop)]
pub struct Core {
    pub(crate) registers: Registers,
    pub(crate) pc: u32,
    pub(crate) base: u32,
    pub(crate) length: usize,
    ghost even: { pc % 2 ≡ 0 },
    ghost aligned: { base % 2 ≡ 0 },
    ghost short: { length ≤ 131072 },
    ghost inside: { base + length < 2 ^ 32 },
}
