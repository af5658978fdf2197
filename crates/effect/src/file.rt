// The registers by number. There are 32: a number above reads as 0, and writing it changes nothing.
ghost use Rattle.std.specs.Prelude.{◌≡◌, slice_index, slice_set};

use crate::registers::Registers;

impl Registers {
    pub fn get(&self, x: u8) -> u32
        ensures { result ≡ slice_index self.now.words x }
    {
        self.words.get(usize::from(x)).copied().unwrap_or(0)
    }

    pub fn set(&mut self, z: u8, value: u32)
        ensures words { self.new.words ≡ slice_set self.old.words z value }
        ensures carry { self.new.carry ≡ self.old.carry }
    {
        // by index: the checker does not follow what is written through `get_mut`
        if z < 32 {
            self.words[usize::from(z)] = value;
        }
    }
}
