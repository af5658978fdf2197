// One case.
use crate::instruction::instruction;
use crate::map::Map;
use crate::state::State;
use crate::words::Words;
use effect::registers::Registers;

// What a case finds: registers each with a value of its own, but for the two that the words give.
fn start(words: &mut Words<'_>, memory: Map) -> Option<State> {
    let carry = words.flag()?;
    let registers = Registers {
        words: std::array::from_fn(|i| 0xa500_0000 + i as u32),
        carry,
    };
    let mut state = State { registers, memory };
    state.write_register(words)?;
    state.write_register(words)?;
    Some(state)
}

// The case of a line comes out as it states, over two memories that are alike; none where it does not, or is no case.
pub(crate) fn agrees(line: &str, memory: Map, other: Map) -> Option<()> {
    let mut words = Words::of(line);
    let instruction = instruction(&mut words)?;
    let mut found = start(&mut words, memory)?;
    let pc = words.number()?;
    let next = words.number()?;
    let mut expected = State {
        registers: found.registers,
        memory: other,
    };
    let stated = expected.expect(&mut words)?;
    let answer = found
        .registers
        .obey(instruction, pc, next, &mut found.memory);
    (answer == stated && found.is_like(&expected)).then_some(())
}
