// Whether the buckets that changes name are there.
ghost use Rattle.std.specs.Prelude.{◌≡◌, ◌∷◌, [], true, None, MatchResult};
ghost use Rattle.std.specs.List as list;
ghost use Rattle.std.specs.List.Sorted.{IsStrictlySortedBy};
ghost use Rattle.cynara_keys.specs.BucketName.{is_bucket_name};
ghost use Rattle.bucket_store.specs.Database.{has_bucket, database_of};
ghost use Rattle.bucket_store.specs.Order.{bucket_cmp};
ghost use Rattle.bucket_store.specs.Refusal.{no_bucket, named_by};
ghost use Rattle.bucket_store.specs.parts.Naming.{NamesFirst};

use crate::searches::place_of_text;
use crate::{Bucket, Change, StoreRefusal};
use cynara_keys::{BucketName, BucketNameRefusal, Kind};
use std::alloc::Global;

/// Whether all buckets that the changes name are there: each change's own, and the one that its result points to.
pub fn all_named(alloc: Global, buckets: &[Bucket], changes: &[Change]) -> Result<(), StoreRefusal>
    requires { IsStrictlySortedBy bucket_cmp buckets.now }
    ensures { MatchResult result
        (λ _. no_bucket (list.flat_map named_by changes.now) (database_of buckets.now) ≡ None)
        (NamesFirst (list.flat_map named_by changes.now) (database_of buckets.now)) }
{
    for change in changes {
        if let Err(refusal) = both_named(alloc, buckets, change) {
            return Err(refusal);
        }
    }
    Ok(())
}

// The same for one change.
fn both_named(alloc: Global, buckets: &[Bucket], change: &Change) -> Result<(), StoreRefusal>
    requires { IsStrictlySortedBy bucket_cmp buckets.now }
    ensures { MatchResult result
        (λ _. no_bucket (named_by change.now) (database_of buckets.now) ≡ None)
        (NamesFirst (named_by change.now) (database_of buckets.now)) }
{
    match change {
        Change::Delete { bucket, .. } => is_there(buckets, bucket),
        Change::Set {
            bucket,
            result: outcome,
            ..
        } => {
            if let Err(refusal) = is_there(buckets, bucket) {
                return Err(refusal);
            }
            if outcome.kind() != Kind::BUCKET {
                return Ok(());
            }
            is_target_there(alloc, buckets, outcome.metadata().as_slice())
        }
    }
}

fn is_there(buckets: &[Bucket], name: &BucketName) -> Result<(), StoreRefusal>
    requires { IsStrictlySortedBy bucket_cmp buckets.now }
    ensures { MatchResult result
        (λ _. no_bucket (name.now ∷ []) (database_of buckets.now) ≡ None)
        (NamesFirst (name.now ∷ []) (database_of buckets.now)) }
{
    if has(buckets, name.as_slice()) {
        return Ok(());
    }
    match name.copy() {
        Ok(name) => Err(StoreRefusal::NoBucket(name)),
        Err(error) => Err(StoreRefusal::Memory(error)),
    }
}

fn is_target_there(alloc: Global, buckets: &[Bucket], name: &[u8]) -> Result<(), StoreRefusal>
    requires rise { IsStrictlySortedBy bucket_cmp buckets.now }
    requires name { is_bucket_name name.now ≡ true }
    ensures { MatchResult result
        (λ _. no_bucket (name.now ∷ []) (database_of buckets.now) ≡ None)
        (NamesFirst (name.now ∷ []) (database_of buckets.now)) }
{
    if has(buckets, name) {
        return Ok(());
    }
    match BucketName::read(alloc, name) {
        Ok(name) => Err(StoreRefusal::NoBucket(name)),
        Err(BucketNameRefusal::Memory(error)) => Err(StoreRefusal::Memory(error)),
        Err(_) => unreachable!(),
    }
}

// Whether a bucket of this name is there.
fn has(buckets: &[Bucket], name: &[u8]) -> bool
    requires { IsStrictlySortedBy bucket_cmp buckets.now }
    ensures { result ≡ has_bucket name.now (database_of buckets.now) }
{
    match place_of_text(buckets, name) {
        Ok(_) => true,
        Err(_) => false,
    }
}
