// Where a bucket or a policy stands in a list that rises, found by halving.
ghost use Rattle.std.specs.Prelude.{◌≡◌, ◌<◌, ◌≤◌, length, IfOk, IfErr, MatchResult};
ghost use Rattle.std.specs.List.Sorted.{IsStrictlySortedBy};
ghost use Rattle.cynara_keys.specs.Text.{text_cmp};
ghost use Rattle.cynara_keys.specs.Key.{key_cmp};
ghost use Rattle.bucket_store.specs.Order.{bucket_cmp, policy_cmp};
ghost use Rattle.bucket_store.specs.parts.Search.{StandsAt, BelongsAt};

use crate::Bucket;
use cynara_keys::{BucketName, Key, Policy};

/// Where the bucket of this name stands, from 0, or where one belongs.
pub fn place_of_bucket(buckets: &[Bucket], name: &BucketName) -> Result<usize, usize>
    requires { IsStrictlySortedBy bucket_cmp buckets.now }
    ensures found { IfOk result (StandsAt (λ bucket. text_cmp bucket.name name.now) buckets.now) }
    ensures absent { IfErr result (BelongsAt (λ bucket. text_cmp bucket.name name.now) buckets.now) }
    ensures in_range { MatchResult result (λ place. place < length buckets.now) (λ place. place ≤ length buckets.now) }
{
    place_of_text(buckets, name.as_slice())
}

/// The same for the bytes of a name.
pub fn place_of_text(buckets: &[Bucket], name: &[u8]) -> Result<usize, usize>
    requires { IsStrictlySortedBy bucket_cmp buckets.now }
    ensures found { IfOk result (StandsAt (λ bucket. text_cmp bucket.name name.now) buckets.now) }
    ensures absent { IfErr result (BelongsAt (λ bucket. text_cmp bucket.name name.now) buckets.now) }
    ensures in_range { MatchResult result (λ place. place < length buckets.now) (λ place. place ≤ length buckets.now) }
{
    buckets.binary_search_by(|bucket| bucket.name().as_slice().cmp(name))
}

/// Where the policy of this key stands, from 0, or where one belongs.
pub fn place_of_key(policies: &[Policy], key: &Key) -> Result<usize, usize>
    requires { IsStrictlySortedBy policy_cmp policies.now }
    ensures found { IfOk result (StandsAt (λ policy. key_cmp policy.key key.now) policies.now) }
    ensures absent { IfErr result (BelongsAt (λ policy. key_cmp policy.key key.now) policies.now) }
    ensures in_range { MatchResult result
        (λ place. place < length policies.now) (λ place. place ≤ length policies.now) }
{
    policies.binary_search_by(|policy| policy.key.cmp(key))
}
