// Lists copied whole or in part.
ghost use Rattle.std.specs.Prelude.{◌≡◌, not, IfOk};
ghost use Rattle.std.specs.List as list;
ghost use Rattle.cynara_keys.specs.Key.{filter_admits};
ghost use Rattle.bucket_store.specs.Walk as walk;

use crate::{Bucket, Change};
use cynara_keys::{BucketName, Filter, Kind, Policy};
use std::alloc::{AllocError, Global};

/// The policies whose keys the filter admits.
pub fn admitted(
    alloc: Global,
    policies: &[Policy],
    filter: &Filter,
) -> Result<Vec<Policy>, AllocError>
    ensures { IfOk result
        (λ copy. copy.items ≡ list.filter (λ policy. filter_admits filter.now policy.key) policies.now) }
{
    let mut copy = Vec::new(alloc);
    for policy in policies {
        if filter.admits(&policy.key) {
            copy.push(policy.copy()?)?;
        }
    }
    Ok(copy)
}

/// The policies whose keys the filter does not admit.
pub fn not_admitted(
    alloc: Global,
    policies: &[Policy],
    filter: &Filter,
) -> Result<Vec<Policy>, AllocError>
    ensures { IfOk result
        (λ copy. copy.items ≡ list.filter (λ policy. not (filter_admits filter.now policy.key)) policies.now) }
{
    let mut copy = Vec::new(alloc);
    for policy in policies {
        if !filter.admits(&policy.key) {
            copy.push(policy.copy()?)?;
        }
    }
    Ok(copy)
}

/// Whether the policy points to the bucket of this name.
pub fn points_to(policy: &Policy, name: &BucketName) -> bool
    ensures { result ≡ walk.points_to name.now policy.now }
{
    policy.result.kind() == Kind::BUCKET && policy.result.metadata().as_slice() == name.as_slice()
}

/// The policies that do not point to the bucket of this name.
pub fn not_pointing(
    alloc: Global,
    policies: &[Policy],
    name: &BucketName,
) -> Result<Vec<Policy>, AllocError>
    ensures { IfOk result
        (λ copy. copy.items ≡ list.filter (λ policy. not (walk.points_to name.now policy)) policies.now) }
{
    let mut copy = Vec::new(alloc);
    for policy in policies {
        if !points_to(policy, name) {
            copy.push(policy.copy()?)?;
        }
    }
    Ok(copy)
}

/// All policies.
pub fn all_policies(alloc: Global, policies: &[Policy]) -> Result<Vec<Policy>, AllocError>
    ensures { IfOk result (λ copy. copy.items ≡ policies.now) }
{
    let mut copy = Vec::with_capacity(alloc, policies.len())?;
    for policy in policies {
        copy.push(policy.copy()?)?;
    }
    Ok(copy)
}

/// All changes.
pub fn all_changes(alloc: Global, changes: &[Change]) -> Result<Vec<Change>, AllocError>
    ensures { IfOk result (λ copy. copy.items ≡ changes.now) }
{
    let mut copy = Vec::with_capacity(alloc, changes.len())?;
    for change in changes {
        copy.push(change.copy()?)?;
    }
    Ok(copy)
}

/// All buckets, for one more owner.
pub fn all_buckets(alloc: Global, buckets: &[Bucket]) -> Result<Vec<Bucket>, AllocError>
    ensures { IfOk result (λ copy. copy.items ≡ buckets.now) }
{
    let mut copy = Vec::with_capacity(alloc, buckets.len())?;
    for bucket in buckets {
        copy.push(bucket.share()?)?;
    }
    Ok(copy)
}
