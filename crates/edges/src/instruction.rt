// Instructions by name and numbers.
use crate::words::Words;
use isa::operation::{Branch, Instruction};
use text::mnemonic::Mnemonic;

// A branch with the displacement that the next three words say.
fn relative(branch: Branch, words: &mut Words<'_>) -> Option<Instruction> {
    let halfwords = i32::from_str_radix(words.word()?, 16).ok()?;
    words.number()?;
    words.number()?;
    Some(Instruction::Relative { branch, halfwords })
}

// The instruction that the next four words say: a name, and three numbers or a displacement with two zeros.
pub(crate) fn instruction(words: &mut Words<'_>) -> Option<Instruction> {
    match Mnemonic::named(words.word()?)? {
        Mnemonic::Relative(branch) => relative(branch, words),
        other => {
            let numbers = [words.number()?, words.number()?, words.number()?];
            other.operation(numbers).map(Instruction::Plain)
        }
    }
}
