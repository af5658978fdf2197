// The addresses that a run of bytes takes.
ghost use Rattle.std.specs.Prelude.{◌≡◌, ◌-◌, if◌then◌else◌, Some, None};
ghost use Rattle.memory.specs.Span.{in_range};

// How far an address lies into the `count` from `start` on, if it is one of them.
pub fn offset(start: u32, count: usize, address: u32) -> Option<usize>
    ensures { result ≡ (if in_range start count address then Some (address - start) else None) }
{
    let offset = address.checked_sub(start)? as usize;
    (offset < count).then_some(offset)
}
