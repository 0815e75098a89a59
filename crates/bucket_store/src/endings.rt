// Whether walks come to a cycle, by a walk along all policies that point to a bucket, each once. A walk that is longer
// than there are buckets comes to a bucket twice.
ghost use Rattle.std.specs.Prelude.{◌≡◌, ◌<◌, length, IsTrue, IfOk};
ghost use Rattle.std.specs.List.{AllByRecursion, flat_map};
ghost use Rattle.std.specs.List.Sorted.{IsStrictlySortedBy};
ghost use Rattle.cynara_keys.specs.declared.keys.Policy.{Policy as PolicyContent};
ghost use Rattle.bucket_store.specs.Database.{placed_of};
ghost use Rattle.bucket_store.specs.Order.{bucket_cmp};
ghost use Rattle.bucket_store.specs.parts.Ending as ending;
ghost use Rattle.bucket_store.specs.parts.Ending.{AreEnding, ChangeEnds, Ends, LinkEnds, name_at};

use crate::flags::{is_set, none_set, set};
use crate::links::{link_place, no_places};
use crate::{Bucket, Change};
use cynara_keys::{Policy, PolicyResult};
use std::alloc::{AllocError, Global};

/// Whether no walk from a bucket that one of the changes points to comes to a cycle. Where the changes closed one, it
/// answers no.
pub fn changes_end(
    alloc: Global,
    buckets: &[Bucket],
    changes: &[Change],
) -> Result<bool, AllocError>
    requires { IsStrictlySortedBy bucket_cmp buckets.now }
    ensures { IfOk result (λ ends. IsTrue ends → AllByRecursion (ChangeEnds buckets.now) changes.now) }
{
    let mut ended = none_set(alloc, buckets.len())?;
    let mut remembered = no_places(alloc)?;
    Ok(all_end(buckets, &mut ended, &mut remembered, changes))
}

// The same, with the flags of the buckets of which it is known.
fn all_end(
    buckets: &[Bucket],
    ended: &mut [bool],
    remembered: &mut [usize],
    changes: &[Change],
) -> bool
    requires rise { IsStrictlySortedBy bucket_cmp buckets.now }
    requires told { AreEnding buckets.now ended.old }
    ensures { IsTrue result → AllByRecursion (ChangeEnds buckets.now) changes.now }
{
    for change in changes {
        if !change_ends(buckets, ended, remembered, change) {
            return false;
        }
    }
    true
}

// The same for one change.
fn change_ends(
    buckets: &[Bucket],
    ended: &mut [bool],
    remembered: &mut [usize],
    change: &Change,
) -> bool
    requires rise { IsStrictlySortedBy bucket_cmp buckets.now }
    requires told { AreEnding buckets.now ended.old }
    ensures told { AreEnding buckets.now ended.new }
    ensures ends { IsTrue result → ChangeEnds buckets.now change.now }
{
    match change {
        Change::Set {
            result: outcome,
            ..
        } => link_ends(buckets, ended, remembered, outcome, buckets.len()),
        Change::Delete { .. } => true,
    }
}

/// Sets the flags of buckets from which no walk comes to a cycle: of all of them, where there is none.
pub fn mark_ending(buckets: &[Bucket], ended: &mut [bool], remembered: &mut [usize])
    requires rise { IsStrictlySortedBy bucket_cmp buckets.now }
    requires told { AreEnding buckets.now ended.old }
    ensures { AreEnding buckets.now ended.new }
{
    for at in 0..buckets.len() {
        if !bucket_ends(buckets, ended, remembered, at, buckets.len()) {
            return;
        }
    }
}

// Whether no walk from the bucket comes to a cycle. Answers no after so many policies in turn, and sets the flag of
// each bucket of which it is known.
#[cycle(ending)]
fn bucket_ends(
    buckets: &[Bucket],
    ended: &mut [bool],
    remembered: &mut [usize],
    at: usize,
    most: usize,
) -> bool
    requires rise { IsStrictlySortedBy bucket_cmp buckets.now }
    requires there { at < length buckets.now }
    requires told { AreEnding buckets.now ended.old }
    ensures told { AreEnding buckets.now ended.new }
    ensures ends { IsTrue result → Ends (flat_map placed_of buckets.now) (name_at buckets.now at) }
{
    if is_set(ended, at) {
        return true;
    }
    if most == 0 {
        return false;
    }
    if !policies_end(buckets, ended, remembered, buckets[at].policies(), most - 1) {
        return false;
    }
    set(ended, at);
    true
}

// The same for each bucket that one of the policies points to.
#[cycle(ending)]
fn policies_end(
    buckets: &[Bucket],
    ended: &mut [bool],
    remembered: &mut [usize],
    policies: &[Policy],
    most: usize,
) -> bool
    requires rise { IsStrictlySortedBy bucket_cmp buckets.now }
    requires told { AreEnding buckets.now ended.old }
    ensures told { AreEnding buckets.now ended.new }
    ensures ends { IsTrue result
        → AllByRecursion (λ (policy : PolicyContent). LinkEnds buckets.now policy.result) policies.now }
{
    for policy in policies {
        if !link_ends(buckets, ended, remembered, &policy.result, most) {
            return false;
        }
    }
    true
}

// The same for the bucket that the result sends on to, if it does.
#[cycle(ending)]
fn link_ends(
    buckets: &[Bucket],
    ended: &mut [bool],
    remembered: &mut [usize],
    outcome: &PolicyResult,
    most: usize,
) -> bool
    requires rise { IsStrictlySortedBy bucket_cmp buckets.now }
    requires told { AreEnding buckets.now ended.old }
    ensures told { AreEnding buckets.now ended.new }
    ensures ends { IsTrue result → LinkEnds buckets.now outcome.now }
{
    match link_place(buckets, remembered, outcome) {
        Some(at) => bucket_ends(buckets, ended, remembered, at, most),
        None => true,
    }
}
