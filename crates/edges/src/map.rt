// The memory that every case finds: six bytes that can be written from 0x100 on, five read-only ones after them, none
// from 0x10B on, and from 0x10E on two that are locked and six that can be written.
use banks::bank::Bank;
use banks::store::Store;
use layers::lock::Lock;
use layers::split::Split;
use std::alloc::{AllocError, Global};

pub(crate) type Map = Split<Bank, Split<Store, Lock<Bank>>>;

pub(crate) fn map(heap: Global) -> Result<Map, AllocError> {
    let low = Vec::from_slice(heap, &[0x80, 0x7f, 0xff, 0x00, 0x01, 0xfe])?;
    let fixed = Vec::from_slice(heap, &[0x7f, 0x80, 0x00, 0x80, 0xff])?;
    let high = Vec::from_slice(heap, &[0xc3, 0xd2, 0x12, 0x34, 0x56, 0x78, 0x9a, 0xbc])?;
    let locked = Lock::new(Bank::new(0x10e, high), 0x10e, 2);
    let upper = Split::new(Store::new(0x106, fixed), locked, 0x10e);
    Ok(Split::new(Bank::new(0x100, low), upper, 0x106))
}
