// Budgets and patches on a short routine: what each call answers, and that the code is as it was.
//
// The routine, at 00001000, is movi r0, 1; addi r1, r0, 300 (four bytes); jmp r15, which leaves the image.
#![tactic(auto)]

mod told;

use crate::told::Told;
use banks::mailbox::Mailbox;
use cpu::processor::Core;
use cpu::ran::Ran;
use refusal::refusal::Refusal;

const BASE: u32 = 0x1000;

const ROUTINE: [u8; 8] = [0x01, 0x30, 0x20, 0xE4, 0x2B, 0x01, 0x3C, 0x78];

fn seated() -> Result<Core, Refusal> {
    Core::seat([0; 32], false, BASE, &ROUTINE, BASE)
}

fn run_with(budget: u32, code: &[u8]) -> Ran {
    seated().map_or_else(
        |refusal| Ran::stopped(0, refusal),
        |mut core| core.run(code, &mut Mailbox::new(0), budget),
    )
}

// What run to answers, and whether the code is then as it was.
fn run_to(address: u32, budget: u32) -> Result<(Ran, bool), Refusal> {
    let mut core = seated()?;
    let mut code = ROUTINE;
    let ran = core.run_to(&mut code, &mut Mailbox::new(0), address, budget);
    Ok((ran, code == ROUTINE))
}

// The byte at an index while a patch stands at an address, and after it.
fn under_patch(address: u32, index: usize) -> Option<(u8, u8)> {
    let core = seated().ok()?;
    let mut code = ROUTINE;
    let patch = core.patch(&mut code, address);
    let under = patch.bytes().get(index).copied();
    drop(patch);
    Some((under?, code.get(index).copied()?))
}

// What seat answers, for a base, a start and a length of code: as a run of no steps.
fn seat_of(base: u32, start: u32, code: &[u8]) -> Ran {
    Core::seat([0; 32], true, base, code, start).map_or_else(
        |refusal| Ran::stopped(0, refusal),
        |_| Ran::completed(0),
    )
}

fn budgets(rt: &HostRuntime) -> anyhow::Result<()> {
    for budget in [0, 1, 2, 3, 4, u32::MAX] {
        let told = Told(run_with(budget, &ROUTINE));
        println!(rt; "run {budget}: {told}")?;
    }
    let told = Told(run_with(0, &ROUTINE[0..6]));
    println!(rt; "run 0 over six bytes: {told}")?;
    Ok(())
}

fn tell_run_to(rt: &HostRuntime, address: u32, budget: u32) -> anyhow::Result<()> {
    if let Ok((ran, same)) = run_to(address, budget) {
        let told = Told(ran);
        println!(rt;
            "run to {address:08X}, budget {budget}: {told}; the code is as it was: {same}"
        )?;
    }
    Ok(())
}

fn patches(rt: &HostRuntime) -> anyhow::Result<()> {
    for address in [0x1000, 0x1002, 0x1004, 0x1006, 0x1008, 0x1001, 0x0FFE] {
        tell_run_to(rt, address, u32::MAX)?;
    }
    tell_run_to(rt, 0x1006, 0)?;
    tell_run_to(rt, 0x1008, 0)?;
    if let Some((under, after)) = under_patch(0x1006, 6) {
        println!(rt; "the byte at 00001006 under a patch {under:02X}, after it {after:02X}")?;
    }
    Ok(())
}

fn seats(rt: &HostRuntime) -> anyhow::Result<()> {
    let long = vec![in rt.alloc(); 0u8; 131_073]?;
    for (base, start) in [
        (0x1001, 0x1000),
        (0x1000, 0x1001),
        (0xFFFF_FFF8, 0x1000),
        (0xFFFF_FFF6, 0),
    ] {
        let told = Told(seat_of(base, start, &ROUTINE));
        println!(rt; "seat at {base:08X}, start {start:08X}: {told}")?;
    }
    let told = Told(seat_of(0x1000, 0x1000, long.as_slice()));
    println!(rt; "seat over 131,073 bytes: {told}")?;
    Ok(())
}

fn main(rt: HostRuntime) -> anyhow::Result<()> {
    budgets(&rt)?;
    patches(&rt)?;
    seats(&rt)
}
