// What a lock and a split mean, from what lies below them.
ghost use Rattle.layers.specs.Laws.{LockLaw, SplitLaw};

// A lock takes from the memory below only the writes inside its range to bytes that are there.
pub fn lock_refuses_only_writes()
    ensures { LockLaw }
{}

// A split is its first memory below the border and its second from there on.
pub fn split_is_its_two_memories()
    ensures { SplitLaw }
{}
