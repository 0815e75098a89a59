// The least bucket on a cycle.
ghost use Rattle.std.specs.Prelude.{◌≡◌, ◌<◌, length, IfOk, OnOk, IsTrue, IsFalse, Some, [], false, replicate};
ghost use Rattle.std.specs.List.{flat_map};
ghost use Rattle.std.specs.List.Sorted.{IsStrictlySortedBy};
ghost use Rattle.bucket_store.specs.Database.{placed_of};
ghost use Rattle.bucket_store.specs.Order.{bucket_cmp};
ghost use Rattle.bucket_store.specs.Walk.{IsOnCycle};
ghost use Rattle.bucket_store.specs.parts.Ending.{AreEnding, IsLeast, name_at};
ghost use Rattle.bucket_store.specs.parts.Reaching.{IsFlagged, with_links, with_place};

use crate::Bucket;
use crate::endings::mark_ending;
use crate::flags::{is_set, none_set, set};
use crate::links::{link_place, no_places};
use cynara_keys::Policy;
use std::alloc::{AllocError, Global};

/// The least bucket that is on a cycle, by its place from 0. Where there is none it goes over the buckets and their
/// policies once.
pub fn least_on_cycle(alloc: Global, buckets: &[Bucket]) -> Result<Option<usize>, AllocError>
    requires { IsStrictlySortedBy bucket_cmp buckets.now }
    ensures { IfOk result (IsLeast buckets.now) }
{
    let mut ended = none_set(alloc, buckets.len())?;
    let mut remembered = no_places(alloc)?;
    least_left(alloc, buckets, &mut ended, &mut remembered)
}

// The same: of the buckets from which a walk may come to a cycle, the first that is on one.
fn least_left(
    alloc: Global,
    buckets: &[Bucket],
    ended: &mut [bool],
    remembered: &mut [usize],
) -> Result<Option<usize>, AllocError>
    requires rise { IsStrictlySortedBy bucket_cmp buckets.now }
    requires told { AreEnding buckets.now ended.old }
    ensures { IfOk result (IsLeast buckets.now) }
{
    mark_ending(buckets, ended, remembered);
    for at in 0..buckets.len() {
        if !is_set(ended, at) && is_on_cycle(alloc, buckets, remembered, at)? {
            return Ok(Some(at));
        }
    }
    Ok(None)
}

// Whether a walk of at least one policy leads from the bucket to itself.
fn is_on_cycle(
    alloc: Global,
    buckets: &[Bucket],
    remembered: &mut [usize],
    at: usize,
) -> Result<bool, AllocError>
    requires rise { IsStrictlySortedBy bucket_cmp buckets.now }
    requires there { at < length buckets.now }
    ensures on { IfOk result
        (λ on. IsTrue on → IsOnCycle (flat_map placed_of buckets.now) (name_at buckets.now at)) }
    ensures off { IfOk result
        (λ on. IsFalse on → IsOnCycle (flat_map placed_of buckets.now) (name_at buckets.now at) → ⊥) }
{
    let mut flags = none_set(alloc, buckets.len())?;
    let mut places = Vec::with_capacity(alloc, buckets.len())?;
    leads_back(buckets, remembered, at, &mut flags, &mut places)
}

// The same, with the places that walks from the bucket lead to.
fn leads_back(
    buckets: &[Bucket],
    remembered: &mut [usize],
    at: usize,
    flags: &mut [bool],
    places: &mut Vec<usize>,
) -> Result<bool, AllocError>
    requires rise { IsStrictlySortedBy bucket_cmp buckets.now }
    requires there { at < length buckets.now }
    requires flags { flags.old ≡ replicate (length buckets.now) false }
    requires places { places.old.items ≡ [] }
    ensures on { IfOk result
        (λ on. IsTrue on → IsOnCycle (flat_map placed_of buckets.now) (name_at buckets.now at)) }
    ensures off { IfOk result
        (λ on. IsFalse on → IsOnCycle (flat_map placed_of buckets.now) (name_at buckets.now at) → ⊥) }
{
    add_links(buckets, remembered, buckets[at].policies(), flags, places)?;
    let mut next = 0;
    while next < places.len() {
        add_links(
            buckets,
            remembered,
            buckets[places[next]].policies(),
            flags,
            places,
        )?;
        next += 1;
    }
    Ok(is_set(flags, at))
}

// Adds the places of the buckets that the policies point to.
fn add_links(
    buckets: &[Bucket],
    remembered: &mut [usize],
    policies: &[Policy],
    flags: &mut [bool],
    places: &mut Vec<usize>,
) -> Result<(), AllocError>
    requires rise { IsStrictlySortedBy bucket_cmp buckets.now }
    requires long { length flags.old ≡ length buckets.now }
    requires flagged { IsFlagged flags.old places.old.items }
    ensures places { OnOk result (places.new.items ≡ with_links buckets.now places.old.items policies.now) }
    ensures long { length flags.new ≡ length buckets.now }
    ensures flagged { OnOk result (IsFlagged flags.new places.new.items) }
{
    for policy in policies {
        if let Some(at) = link_place(buckets, remembered, &policy.result) {
            add_place(flags, places, at)?;
        }
    }
    Ok(())
}

// Adds the place, where it is not there.
fn add_place(flags: &mut [bool], places: &mut Vec<usize>, at: usize) -> Result<(), AllocError>
    requires there { at < length flags.old }
    requires flagged { IsFlagged flags.old places.old.items }
    ensures places { OnOk result (places.new.items ≡ with_place places.old.items (Some at)) }
    ensures long { length flags.new ≡ length flags.old }
    ensures flagged { OnOk result (IsFlagged flags.new places.new.items) }
{
    if is_set(flags, at) {
        return Ok(());
    }
    places.push(at)?;
    set(flags, at);
    Ok(())
}
