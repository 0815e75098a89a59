// Which buckets of a database are those of another one.
ghost use Rattle.std.specs.Prelude.{◌≡◌};
ghost use Rattle.std.specs.Bool.{OnTrue};
ghost use Rattle.bucket_eval.specs.parts.Stays.{AreNamedAlike, Stayed};

use crate::slots::{bucket_at, policy_at};
use bucket_store::Bucket;
use cynara_keys::{Key, Policy};

/// Whether there are as many buckets, and those at each place have one name.
pub fn are_named_alike(before: &[Bucket], buckets: &[Bucket]) -> bool
    ensures { OnTrue result (AreNamedAlike before.now buckets.now) }
{
    if before.len() != buckets.len() {
        return false;
    }
    for at in 0..before.len() {
        if bucket_at(before, at).name() != bucket_at(buckets, at).name() {
            return false;
        }
    }
    true
}

/// Whether the bucket has the fallback and the policies that it had before. Policies are compared one by one.
pub fn stayed(before: &Bucket, bucket: &Bucket) -> bool
    ensures { OnTrue result (Stayed before.now bucket.now) }
{
    if before.fallback() != bucket.fallback() {
        return false;
    }
    if before.policies().len() != bucket.policies().len() {
        return false;
    }
    for place in 0..before.policies().len() {
        if !is_same(policy_at(before, place), policy_at(bucket, place)) {
            return false;
        }
    }
    true
}

// Whether the policies are equal.
fn is_same(one: &Policy, other: &Policy) -> bool
    ensures { OnTrue result (one.now ≡ other.now) }
{
    if one.result != other.result {
        return false;
    }
    is_same_key(&one.key, &other.key)
}

// Whether the keys are equal.
fn is_same_key(one: &Key, other: &Key) -> bool
    ensures { OnTrue result (one.now ≡ other.now) }
{
    if one.client() != other.client() {
        return false;
    }
    if one.user() != other.user() {
        return false;
    }
    if one.privilege() != other.privilege() {
        return false;
    }
    true
}
