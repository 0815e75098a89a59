// The buckets after a change, which share with those before all that the change does not touch.
ghost use Rattle.std.specs.Prelude.{◌≡◌, ◌<◌, ◌≤◌, ◌||◌, length, map, not, nat_lt, is_ok, IfOk, MatchResult};
ghost use Rattle.std.specs.List as list;
ghost use Rattle.cynara_keys.specs.Text.{same_text};
ghost use Rattle.bucket_store.specs.Refusal as rule;
ghost use Rattle.bucket_store.specs.Walk as walk;
ghost use Rattle.bucket_store.specs.parts.Edit.{headed, without_links, filled};

use crate::Bucket;
use crate::copies::{all_buckets, all_policies, not_pointing, points_to};
use crate::limits::MOST_BUCKETS;
use cynara_keys::{BucketName, Kind, Policy, PolicyResult};
use std::alloc::{AllocError, Global};

/// Whether a bucket of this name may not have this fallback.
pub fn is_bad(name: &BucketName, fallback: &PolicyResult) -> bool
    ensures { result ≡ rule.is_bad (record { name = name.now; fallback = fallback.now }) }
{
    let kind = fallback.kind();
    kind == Kind::BUCKET || (name.as_slice().is_empty() && kind == Kind::NONE)
}

/// Whether a bucket may be put at the place that a search gave: it is there, or there are fewer buckets than there may
/// be.
pub fn has_room(buckets: &[Bucket], place: &Result<usize, usize>) -> bool
    ensures { result ≡ (is_ok place.now || nat_lt (length buckets.now) rule.most_buckets) }
{
    place.is_ok() || buckets.len() < MOST_BUCKETS
}

/// The buckets with this one's fallback changed, or with a new bucket of this name where it belongs.
pub fn with_heading(
    alloc: Global,
    buckets: &[Bucket],
    place: Result<usize, usize>,
    name: &BucketName,
    fallback: &PolicyResult,
) -> Result<Vec<Bucket>, AllocError>
    requires { MatchResult place (λ at. at < length buckets.now) (λ at. at ≤ length buckets.now) }
    ensures { IfOk result (λ copy. copy.items ≡ headed place name.now fallback.now buckets.now) }
{
    let mut copy = all_buckets(alloc, buckets)?;
    match place {
        Ok(at) => {
            let policies = all_policies(alloc, buckets[at].policies())?;
            copy[at] = Bucket::new(alloc, name.copy()?, fallback.copy()?, policies)?;
        }
        Err(at) => {
            let bucket = Bucket::new(alloc, name.copy()?, fallback.copy()?, Vec::new(alloc))?;
            copy.insert(at, bucket)?;
        }
    }
    Ok(copy)
}

/// The buckets without this one, and without the policies that point to it.
pub fn without_bucket(
    alloc: Global,
    buckets: &[Bucket],
    name: &BucketName,
) -> Result<Vec<Bucket>, AllocError>
    ensures { IfOk result
        (λ copy. copy.items ≡ map (without_links name.now)
        (list.filter (λ bucket. not (same_text bucket.name name.now)) buckets.now)) }
{
    let mut copy = Vec::new(alloc);
    for bucket in buckets {
        if bucket.name() != name {
            copy.push(unlinked(alloc, bucket, name)?)?;
        }
    }
    Ok(copy)
}

/// The bucket without the policies that point to this name: the same bucket where there are none.
fn unlinked(alloc: Global, bucket: &Bucket, name: &BucketName) -> Result<Bucket, AllocError>
    ensures { IfOk result (λ copy. copy ≡ without_links name.now bucket.now) }
{
    if !links(bucket.policies(), name) {
        return bucket.share();
    }
    let left = not_pointing(alloc, bucket.policies(), name)?;
    Bucket::new(
        alloc,
        bucket.name().copy()?,
        bucket.fallback().copy()?,
        left,
    )
}

// Whether one of the policies points to the bucket of this name.
fn links(policies: &[Policy], name: &BucketName) -> bool
    ensures { result ≡ list.list_any (walk.points_to name.now) policies.now }
{
    policies.iter().any(|policy| points_to(policy, name))
}

/// The buckets with other policies in the one at the place.
pub fn with_policies(
    alloc: Global,
    buckets: &[Bucket],
    place: usize,
    policies: Vec<Policy>,
) -> Result<Vec<Bucket>, AllocError>
    requires { place < length buckets.now }
    ensures { IfOk result (λ copy. copy.items ≡ filled place policies.items buckets.now) }
{
    let mut copy = all_buckets(alloc, buckets)?;
    let bucket = &buckets[place];
    copy[place] = Bucket::new(
        alloc,
        bucket.name().copy()?,
        bucket.fallback().copy()?,
        policies,
    )?;
    Ok(copy)
}
