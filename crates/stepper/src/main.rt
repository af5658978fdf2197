// Steps an image over a small memory map, and prints what each step changed.
//
// The image is hexadecimal text on standard input; an argument is the most steps to make, else 1,000. The map has a
// bank of 256 bytes at 20000000 and a mailbox at 20001000; all registers are 0 but r14, which is at the bank's end.
#![tactic(auto)]

mod changes;
mod end;
mod machine;

use crate::end::End;
use crate::machine::{Board, Machine};
use anyhow::anyhow;
use banks::bank::Bank;
use banks::mailbox::Mailbox;
use cpu::processor::Core;
use cpu::ran::Ran;
use image::image::Image;
use image::trouble::ImageError;
use layers::split::Split;
use std::alloc::{AllocError, Global};
use std::{env, fmt};

const BANK: u32 = 0x2000_0000;

const BANK_SIZE: usize = 256;

const MAILBOX: u32 = 0x2000_1000;

const BUDGET: u32 = 1000;

fn board(heap: Global) -> Result<Board, AllocError> {
    let bank = Bank::new(BANK, Vec::from_slice(heap, &[0; BANK_SIZE])?);
    Ok(Split::new(bank, Mailbox::new(MAILBOX), MAILBOX))
}

// The most steps to make, by the first argument.
fn budget(rt: &HostRuntime) -> anyhow::Result<u32> {
    match env::args(rt)?.nth(1) {
        Some(word) => Ok(word.as_str().parse()?),
        None => Ok(BUDGET),
    }
}

// Tells why nothing was stepped.
fn refuse<T: fmt::Display>(rt: &HostRuntime, why: &T) -> anyhow::Result<()> {
    println!(rt; "{why}")?;
    Err(anyhow!("refused"))
}

fn step_image(rt: &HostRuntime, image: &Image, budget: u32) -> anyhow::Result<()> {
    let mut words = [0; 32];
    words[14] = BANK + BANK_SIZE as u32;
    let code = image.bytes.as_slice();
    match Core::seat(words, false, image.base, code, image.base) {
        Ok(core) => {
            let memory = board(rt.alloc())?;
            let mut machine = Machine { core, code, memory };
            let end = End(machine.run(rt, budget)?);
            println!(rt; "{end}")?;
            Ok(())
        }
        Err(refusal) => refuse(rt, &End(Ran::stopped(0, refusal))),
    }
}

fn main(rt: HostRuntime) -> anyhow::Result<()> {
    let budget = budget(&rt)?;
    match Image::read(rt.alloc(), &mut rt.stdin()) {
        Ok(image) => step_image(&rt, &image, budget),
        Err(ImageError::NoImage(trouble)) => refuse(&rt, &trouble),
        Err(error) => Err(error.into()),
    }
}
