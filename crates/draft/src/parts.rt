// What a draft holds.
ghost use Rattle.std.specs.Prelude.{◌≡◌, ◌≤◌, length};
ghost use Rattle.draft.specs.Labels.{AllWithin};
ghost use Rattle.draft.specs.Calls.{plain};

use crate::draft::Draft;
use crate::label::LabelState;
use act::item::Item;

impl Draft {
    pub fn tag(&self) -> u32
        ensures { result ≡ (plain self.now).tag }
    {
        self.tag
    }

    // How many items its table holds.
    pub fn size(&self) -> usize
        ensures { result ≡ (plain self.now).size }
    {
        self.size
    }

    pub fn items(&self) -> &[Item]
        ensures value { result.now ≡ (plain self.now).items }
        ensures few { length result.now ≤ 32768 }
    {
        self.items.as_slice()
    }

    // The state of each label, by its number.
    pub fn labels(&self) -> &[LabelState]
        ensures value { result.now ≡ (plain self.now).labels }
        ensures all { length result.now ≡ 256 }
        ensures within { AllWithin result.now (length (plain self.now).items) }
    {
        &self.labels.states
    }
}
