// A line of a listing: address, form and text of an instruction.
use alu::shifts::target;
use decoder::bytes::decode;
use isa::form::Form;
use isa::operation::Instruction;
use std::fmt;
use text::mnemonic::Mnemonic;
use text::operation::Text;

// A form in hexadecimal.
#[derive(Clone, Copy, Debug, PartialEq, Eq)]
pub struct Hex(pub Form);

impl fmt::Display for Hex {
    fn fmt<W: fmt::Write>(&self, f: &mut fmt::Formatter<W>) -> fmt::Result {
        match self.0 {
            Form::Short(halfword) => write!(f, "{halfword:04X}"),
            Form::Long(word) => write!(f, "{word:08X}"),
        }
    }
}

// What the front of a code spells at an address; a branch shows where it goes.
#[derive(Clone, Copy, Debug, PartialEq, Eq)]
pub struct Spelling<'a> {
    pub address: u32,
    pub code: &'a [u8],
}

impl fmt::Display for Spelling<'_> {
    fn fmt<W: fmt::Write>(&self, f: &mut fmt::Formatter<W>) -> fmt::Result {
        match decode(self.code).map(|decoded| decoded.instruction) {
            Ok(Instruction::Plain(operation)) => {
                let text = Text(operation);
                write!(f, "{text}")
            }
            Ok(Instruction::Relative { branch, halfwords }) => {
                let name = Mnemonic::Relative(branch).name();
                let target = target(self.address, halfwords);
                write!(f, "{name} {target:08X}")
            }
            Err(_) => write!(f, "unknown"),
        }
    }
}

// The instruction at the front of a code that lies at an address; a code that ends within it shows how many bytes
// there are.
#[derive(Clone, Copy, Debug, PartialEq, Eq)]
pub struct Line<'a> {
    pub address: u32,
    pub code: &'a [u8],
}

impl fmt::Display for Line<'_> {
    fn fmt<W: fmt::Write>(&self, f: &mut fmt::Formatter<W>) -> fmt::Result {
        let Line { address, code } = *self;
        let Some(form) = Form::at_front(code) else {
            let left = code.len();
            return write!(f, "{address:08X} incomplete, {left} bytes");
        };
        let hex = Hex(form);
        let spelling = Spelling { address, code };
        write!(f, "{address:08X} {hex} {spelling}")
    }
}
