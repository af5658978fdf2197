// The forms of branches.
ghost use Rattle.std.specs.Prelude.{◌≡◌, ◌+◌, ◌^◌, ◌<◌, ◌≤◌, IfSome};
ghost use Rattle.table.specs.Diagram.{short, long};
ghost use Rattle.table.specs.Encode.{field_of, plus, branch_form};

use isa::operation::Branch;

// A word with a displacement in its low `width` bits, two's complement, if it fits them.
fn displaced(word: u32, halfwords: i32, width: u32) -> Option<u32>
    requires room { word < 0xf0000000 }
    requires width { (1 ≤ width) × (width ≤ 26) }
    ensures form { result ≡ plus word (field_of width halfwords) }
    ensures bound { IfSome result (λ form. form < word + 2 ^ width) }
{
    let bits = halfwords.cast_unsigned();
    let half = 1 << (width - 1);
    // the numbers from -half to below half are those that half brings below its double
    (bits.wrapping_add(half) < 2 * half).then_some(word + (bits & ((1 << width) - 1)))
}

// The short form of a branch by a displacement in halfwords, if it has one and the displacement fits it.
pub fn short_branch(branch: Branch, halfwords: i32) -> Option<u16>
    ensures { result ≡ branch_form short branch halfwords }
{
    let form = match branch {
        Branch::Br => displaced(0x0400, halfwords, 10)?,
        Branch::Bt => displaced(0x0800, halfwords, 10)?,
        Branch::Bf => displaced(0x0c00, halfwords, 10)?,
        Branch::Bsr => return None,
    };
    Some(form as u16)
}

// The long form of a branch by a displacement in halfwords, if the displacement fits it.
pub fn long_branch(branch: Branch, halfwords: i32) -> Option<u32>
    ensures { result ≡ branch_form long branch halfwords }
{
    match branch {
        Branch::Br => displaced(0xe800_0000, halfwords, 16),
        Branch::Bt => displaced(0xe860_0000, halfwords, 16),
        Branch::Bf => displaced(0xe840_0000, halfwords, 16),
        Branch::Bsr => displaced(0xe000_0000, halfwords, 26),
    }
}
