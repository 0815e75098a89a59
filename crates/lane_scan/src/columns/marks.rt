// The numbers of set bits.
ghost use Rattle.std.specs.Prelude.{◌<◌, ◌^◌, OnOk, OnErr};
ghost use Rattle.lane_scan.specs.parts.Found.{HasMarked, IsLonger};

use std::alloc::AllocError;

/// Appends the numbers of the set bits of `marks`, in rising order, where the lowest bit has the number `first`. Fails
/// only for want of memory; what was appended by then stays.
pub fn push_marked(marks: u64, first: u32, out: &mut Vec<u32>) -> Result<(), AllocError>
    requires { first < 2 ^ 31 }
    ensures pushed { OnOk result (HasMarked marks first out.old.items out.new.items) }
    ensures longer { OnErr result (IsLonger out.old.items out.new.items) }
{
    let mut left = marks;
    while left != 0 {
        out.push(first + left.trailing_zeros())?;
        left &= left - 1;
    }
    Ok(())
}
