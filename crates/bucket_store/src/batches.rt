// The buckets after a list of changes.
ghost use Rattle.std.specs.Prelude.{◌≡◌, map, length, nat_lt, IfOk};
ghost use Rattle.std.specs.List as list;
ghost use Rattle.std.specs.List.Sorted.{IsStrictlySortedBy};
ghost use Rattle.bucket_store.specs.Bucket.{Bucket as Content};
ghost use Rattle.bucket_store.specs.Database.{placed_of};
ghost use Rattle.bucket_store.specs.Order.{policy_cmp};
ghost use Rattle.bucket_store.specs.Refusal.{most_policies};
ghost use Rattle.bucket_store.specs.parts.Batch as batch;

use crate::limits::MOST_POLICIES;
use crate::merges::{is_own, merged, sorted};
use crate::{Bucket, Change};
use cynara_keys::{BucketName, Kind, Policy};
use std::alloc::{AllocError, Global};

/// Whether a change puts a policy that points to a bucket.
pub fn adds_link(changes: &[Change]) -> bool
    ensures { result ≡ list.list_any batch.is_link changes.now }
{
    changes.iter().any(is_link)
}

fn is_link(change: &Change) -> bool
    ensures { result ≡ batch.is_link change.now }
{
    match change {
        Change::Set {
            result: outcome,
            ..
        } => outcome.kind() == Kind::BUCKET,
        Change::Delete { .. } => false,
    }
}

/// Whether the buckets have more policies than a database may have.
pub fn is_over(buckets: &[Bucket]) -> bool
    ensures { result ≡ nat_lt most_policies (length (list.flat_map placed_of buckets.now)) }
{
    is_more_than(buckets, MOST_POLICIES)
}

/// Whether the buckets have more policies than this.
pub fn is_more_than(buckets: &[Bucket], most: usize) -> bool
    ensures { result ≡ nat_lt most (length (list.flat_map placed_of buckets.now)) }
{
    let mut room = most;
    for bucket in buckets {
        let count = bucket.policies().len();
        if count > room {
            return true;
        }
        room -= count;
    }
    false
}

/// The buckets after the changes.
pub fn changed_buckets(
    alloc: Global,
    buckets: &[Bucket],
    changes: &[Change],
) -> Result<Vec<Bucket>, AllocError>
    requires { list.AllByRecursion (λ (bucket : Content). IsStrictlySortedBy policy_cmp bucket.policies) buckets.now }
    ensures { IfOk result (λ copy. copy.items ≡ map (batch.changed changes.now) buckets.now) }
{
    let mut copy = Vec::with_capacity(alloc, buckets.len())?;
    for bucket in buckets {
        copy.push(changed_bucket(alloc, bucket, changes)?)?;
    }
    Ok(copy)
}

// The bucket after the changes: the same bucket where none is its own.
fn changed_bucket(alloc: Global, bucket: &Bucket, changes: &[Change]) -> Result<Bucket, AllocError>
    requires { IsStrictlySortedBy policy_cmp bucket.now.policies }
    ensures { IfOk result (λ copy. copy ≡ batch.changed changes.now bucket.now) }
{
    if !is_touched(bucket.name(), changes) {
        return bucket.share();
    }
    let policies = changed_policies(alloc, bucket.name(), bucket.policies(), changes)?;
    Bucket::new(
        alloc,
        bucket.name().copy()?,
        bucket.fallback().copy()?,
        policies,
    )
}

// Whether a change is the bucket's own.
fn is_touched(name: &BucketName, changes: &[Change]) -> bool
    ensures { result ≡ list.list_any (λ change. batch.is_own name.now change) changes.now }
{
    changes.iter().any(|change| is_own(name, change))
}

// The bucket's policies after its own changes.
fn changed_policies(
    alloc: Global,
    name: &BucketName,
    policies: &[Policy],
    changes: &[Change],
) -> Result<Vec<Policy>, AllocError>
    requires { IsStrictlySortedBy policy_cmp policies.now }
    ensures { IfOk result (λ copy. copy.items ≡ list.fold batch.edited policies.now (batch.own name.now changes.now)) }
{
    let own = sorted(alloc, name, changes)?;
    merged(alloc, policies, &own)
}
