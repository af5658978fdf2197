// Operations by name and numbers.
use isa::operation::*;
use text::mnemonic::Mnemonic;

// The operation that a name and up to three numbers say; what it lacks is 0.
pub(crate) fn operation(name: &str, numbers: [u32; 3]) -> Option<Operation> {
    match name {
        "bgeni" => {
            let [z, n, _] = numbers;
            Operation::bgeni(u8::try_from(z).ok()?, n)
        }
        "rts" => Some(Operation::Jump {
            op: JumpOp::Jmp,
            x: 15,
        }),
        _ => Mnemonic::named(name)?.operation(numbers),
    }
}
