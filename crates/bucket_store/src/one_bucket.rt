// Changes that are all of one bucket, and of which it is known before they are made that they keep the rules.
ghost use Rattle.std.specs.Prelude.{◌≡◌, ◌≤◌, ◌+◌, length, IsTrue, IfSome};
ghost use Rattle.std.specs.List as list;
ghost use Rattle.std.specs.List.Sorted.{IsStrictlySortedBy};
ghost use Rattle.bucket_store.specs.Database.{placed_of};
ghost use Rattle.bucket_store.specs.Order.{bucket_cmp};
ghost use Rattle.bucket_store.specs.Refusal.{most_policies};
ghost use Rattle.bucket_store.specs.parts.Batch as batch;
ghost use Rattle.bucket_store.specs.parts.OneBucket.{IsOwnPlace, ChangesOne};

use crate::batches::{adds_link, is_more_than};
use crate::limits::MOST_POLICIES;
use crate::merges::is_own;
use crate::named::all_named;
use crate::searches::place_of_bucket;
use crate::{Bucket, Change};
use cynara_keys::BucketName;
use std::alloc::Global;

/// The most changes that are made in place. Each moves the policies behind its own, so more cost less by one merge into
/// a new list.
pub const MOST_IN_PLACE: usize = 32;

/// The place of the one bucket that the changes are about, where they are few and about one, put no policy that points
/// to a bucket, and leave room for as many policies as they are.
pub fn place_of_changes(alloc: Global, buckets: &[Bucket], changes: &[Change]) -> Option<usize>
    requires { IsStrictlySortedBy bucket_cmp buckets.now }
    ensures { IfSome result (ChangesOne buckets.now changes.now) }
{
    if changes.len() > MOST_IN_PLACE || adds_link(changes) {
        return None;
    }
    if !has_room_for(buckets, changes.len()) {
        return None;
    }
    match all_named(alloc, buckets, changes) {
        Ok(()) => place_of_own(buckets, changes),
        Err(_) => None,
    }
}

// The place of the bucket whose own all changes are.
fn place_of_own(buckets: &[Bucket], changes: &[Change]) -> Option<usize>
    requires { IsStrictlySortedBy bucket_cmp buckets.now }
    ensures { IfSome result (IsOwnPlace buckets.now changes.now) }
{
    let name = name_of(changes.first()?);
    if !are_own(name, changes) {
        return None;
    }
    match place_of_bucket(buckets, name) {
        Ok(at) => Some(at),
        Err(_) => None,
    }
}

// The bucket that the change is about.
fn name_of(change: &Change) -> &BucketName
    ensures { result.now ≡ batch.name_of change.now }
{
    match change {
        Change::Set { bucket, .. } => bucket,
        Change::Delete { bucket, .. } => bucket,
    }
}

// Whether all changes are the bucket's own.
fn are_own(name: &BucketName, changes: &[Change]) -> bool
    ensures { result ≡ list.list_all (batch.is_own name.now) changes.now }
{
    changes.iter().all(|change| is_own(name, change))
}

// Whether a database with these buckets may have so many policies more.
fn has_room_for(buckets: &[Bucket], more: usize) -> bool
    ensures { IsTrue result → length (list.flat_map placed_of buckets.now) + more ≤ most_policies }
{
    if more > MOST_POLICIES {
        return false;
    }
    !is_more_than(buckets, MOST_POLICIES - more)
}
