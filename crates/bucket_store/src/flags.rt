// Flags by their places.
ghost use Rattle.std.specs.Prelude.{◌≡◌, true, false, replicate, slice_set, IfOk};
ghost use Rattle.bucket_store.specs.parts.Ending as ending;

use std::alloc::{AllocError, Global};

/// So many flags, none of which is set.
pub fn none_set(alloc: Global, count: usize) -> Result<Vec<bool>, AllocError>
    ensures { IfOk result (λ flags. flags.items ≡ replicate count false) }
{
    Ok(vec![in alloc; false; count]?)
}

/// Whether the flag at the place is set.
pub fn is_set(flags: &[bool], at: usize) -> bool
    ensures { result ≡ ending.flag flags.now at }
{
    flags.get(at).copied().unwrap_or(false)
}

/// Sets the flag at the place, if there is one.
pub fn set(flags: &mut [bool], at: usize)
    ensures { flags.new ≡ slice_set flags.old at true }
{
    if at < flags.len() {
        flags[at] = true;
    }
}
