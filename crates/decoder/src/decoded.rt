// The instruction at the front of a code, how many bytes it takes, and the bytes after it.
use isa::operation::Instruction;
use std::marker::Model;

#[derive(Drop)]
pub struct Decoded<'a> {
    pub instruction: Instruction,
    pub length: usize,
    pub rest: &'a [u8],
}

impl<'a> Model for Decoded<'a> {
    ghost use Rattle.decoder.specs.Decoded.{Front};

    ghost Value = { Front };

    ghost view = { λ d. record { instruction = d.instruction; length = d.length; rest = d.rest.now } };
}
