// Memories at the edges of the address space, of their ranges and of one another.
mod expected;

use crate::board::board;
use crate::loan::write_through;
use banks::bank::Bank;
use banks::mailbox::Mailbox;
use banks::store::Store;
use expected::{Expected, all_behave};
use layers::lent::Lent;
use layers::lock::Lock;
use layers::split::Split;
use memory::cell::Cell::{Absent, ReadOnly, Writable};
use memory::memory::Memory;
use std::test::Fail;

const TOP: u32 = u32::MAX;

// Each kind has its own number, and a loan that of the memory that is lent.
#[test]
fn part_numbers(rt: HostRuntime) {
    let bytes = [
        <Bank as Memory>::PART,
        <Store as Memory>::PART,
        <Mailbox as Memory>::PART,
    ];
    let layers = [
        <Lock<Bank> as Memory>::PART,
        <Split<Bank, Store> as Memory>::PART,
        <Lent<Mailbox> as Memory>::PART,
    ];
    assert_eq!(rt; bytes, [1, 2, 3]);
    assert_eq!(rt; layers, [4, 5, 3]);
}

// Base plus length is 2^32: the last byte is at the last address.
const UP_TO_TOP: &[Expected] = &[
    (TOP - 2, Absent { part: 1 }),
    (TOP - 1, Writable { byte: 1 }),
    (TOP, Writable { byte: 2 }),
    (0, Absent { part: 1 }),
];

#[test]
fn a_bank_reaches_the_top(rt: HostRuntime) -> Result<(), Fail> {
    let mut bank = Bank::new(TOP - 1, Vec::from_slice(rt.alloc(), &[1, 2])?);
    all_behave(&mut bank, UP_TO_TOP)?;
    assert_eq!(rt; bank.into_bytes().as_slice(), [0xA5, 0xA5].as_slice());
    Ok(())
}

// Bytes past 2^32 do not come round to 0, and an empty bank has none at all.
const BANK_PAST_TOP: &[Expected] = &[
    (TOP, Writable { byte: 1 }),
    (0, Absent { part: 1 }),
    (1, Absent { part: 1 }),
];

const MAILBOX_PAST_TOP: &[Expected] = &[(TOP, Writable { byte: 0 }), (0, Absent { part: 3 })];

const EMPTY: &[Expected] = &[(7, Absent { part: 1 }), (8, Absent { part: 1 })];

#[test]
fn nothing_wraps(rt: HostRuntime) -> Result<(), Fail> {
    let mut bank = Bank::new(TOP, Vec::from_slice(rt.alloc(), &[1, 2, 3])?);
    all_behave(&mut bank, BANK_PAST_TOP)?;
    all_behave(&mut Mailbox::new(TOP - 62), MAILBOX_PAST_TOP)?;
    all_behave(&mut Bank::new(8, Vec::new(rt.alloc())), EMPTY)
}

// A lock refuses what is there, read-only or not; what is absent is refused below.
const LOCKED_STORE: &[Expected] = &[
    (3, Absent { part: 2 }),
    (4, ReadOnly { byte: 1, part: 4 }),
    (5, ReadOnly { byte: 2, part: 2 }),
    (6, Absent { part: 2 }),
    (TOP, Absent { part: 2 }),
];

const UNLOCKED: &[Expected] = &[(7, Writable { byte: 0 }), (8, Writable { byte: 0 })];

#[test]
fn locks(rt: HostRuntime) -> Result<(), Fail> {
    let store = Store::new(4, Vec::from_slice(rt.alloc(), &[1, 2])?);
    all_behave(&mut Lock::new(store, 0, 5), LOCKED_STORE)?;
    all_behave(&mut Lock::new(Mailbox::new(0), 8, 0), UNLOCKED)
}

// At 0 a split has nothing of its first memory, at the top all but the last address.
const AT_ZERO: &[Expected] = &[
    (0, Absent { part: 3 }),
    (63, Absent { part: 3 }),
    (64, Writable { byte: 0 }),
];

const AT_TOP: &[Expected] = &[
    (TOP - 1, Writable { byte: 0 }),
    (TOP, ReadOnly { byte: 0, part: 4 }),
];

#[test]
fn splits() -> Result<(), Fail> {
    all_behave(
        &mut Split::new(Mailbox::new(0), Mailbox::new(64), 0),
        AT_ZERO,
    )?;
    let last = Lock::new(Mailbox::new(TOP - 1), 0, 1 << 32);
    all_behave(&mut Split::new(Mailbox::new(TOP - 1), last, TOP), AT_TOP)
}

// A lock over a split of a bank and a locked store.
const NESTED: &[Expected] = &[
    (2, Writable { byte: 3 }),
    (3, ReadOnly { byte: 4, part: 4 }),
    (4, ReadOnly { byte: 5, part: 4 }),
    (5, ReadOnly { byte: 6, part: 2 }),
    (6, ReadOnly { byte: 7, part: 4 }),
    (7, ReadOnly { byte: 8, part: 2 }),
    (8, Absent { part: 2 }),
];

#[test]
fn layers_nest(rt: HostRuntime) -> Result<(), Fail> {
    let bank = Bank::new(0, Vec::from_slice(rt.alloc(), &[1, 2, 3, 4])?);
    let store = Store::new(4, Vec::from_slice(rt.alloc(), &[5, 6, 7, 8])?);
    let split = Split::new(bank, Lock::new(store, 6, 1), 4);
    all_behave(&mut Lock::new(split, 3, 2), NESTED)
}

// The owner has what was written through a loan, also through a lock over it.
const LENT: &[Expected] = &[
    (0x1_0010, ReadOnly { byte: 3, part: 4 }),
    (0x2_003F, Writable { byte: 0 }),
];

const OWNED: &[Expected] = &[
    (0, ReadOnly { byte: 9, part: 2 }),
    (1, Absent { part: 2 }),
    (0x1_000F, ReadOnly { byte: 0, part: 4 }),
    (0x1_0010, Writable { byte: 3 }),
    (0x2_003F, Writable { byte: 0xA5 }),
];

#[test]
fn an_owner_lends_a_board(rt: HostRuntime) -> Result<(), Fail> {
    let mut map = board(
        Vec::from_slice(rt.alloc(), &[9])?,
        Vec::from_slice(rt.alloc(), &[0; 20])?,
    );
    let _ = write_through(&mut map, 0x1_0010, 3);
    all_behave(&mut Lock::new(Lent(&mut map), 0x1_0010, 1), LENT)?;
    all_behave(&mut map, OWNED)
}
