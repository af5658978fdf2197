// A board: constants in a store from 0 on, data in a bank from 0x1_0000 on whose first 16 bytes
// are locked, a mailbox at 0x2_0000.
ghost use Rattle.std.specs.Prelude.{◌≡◌, replicate};
ghost use Rattle.banks.specs.Bank.{bank_meaning, banked};
ghost use Rattle.banks.specs.Mailbox.{mailbox_meaning, boxed};
ghost use Rattle.banks.specs.Store.{store_meaning, stored};
ghost use Rattle.layers.specs.Lock.{lock_meaning, locked_range};
ghost use Rattle.layers.specs.Split.{split_meaning, split_at};

use banks::bank::Bank;
use banks::mailbox::Mailbox;
use banks::store::Store;
use layers::lock::Lock;
use layers::split::Split;

pub type Board = Split<Store, Split<Lock<Bank>, Mailbox>>;

// The bank of the board, its first 16 bytes locked.
fn locked_bank(data: Vec<u8>) -> Lock<Bank>
    ensures { lock_meaning bank_meaning result ≡ locked_range 0x1_0000 16 (banked 0x1_0000 «data».items) }
{
    Lock::new(Bank::new(0x1_0000, data), 0x1_0000, 16)
}

pub fn board(constants: Vec<u8>, data: Vec<u8>) -> Board
    ensures { split_meaning store_meaning (split_meaning (lock_meaning bank_meaning) mailbox_meaning) result ≡ split_at 0x1_0000 (stored 0 constants.items) (split_at 0x2_0000 (locked_range 0x1_0000 16 (banked 0x1_0000 «data».items)) (boxed 0x2_0000 (replicate 64 0))) }
{
    let low = Store::new(0, constants);
    let high = Split::new(locked_bank(data), Mailbox::new(0x2_0000), 0x2_0000);
    Split::new(low, high, 0x1_0000)
}
