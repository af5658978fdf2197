// The calls that build a draft, as data; a debt is its tag and label.
use act::item::Item;

#[derive(Clone, Copy, Debug, PartialEq, Eq)]
pub enum Call {
    Append(Item),
    Place(u8),
    Reserve(u8),
    Settle { tag: u32, label: u8 },
    WriteOff { tag: u32, label: u8 },
    TakeBack,
}
