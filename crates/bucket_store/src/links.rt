// Where the bucket stands that a policy points to.
ghost use Rattle.std.specs.Prelude.{◌≡◌, ◌<◌, length, IsTrue, MatchOption};
ghost use Rattle.std.specs.List.{position};
ghost use Rattle.std.specs.List.Sorted.{IsStrictlySortedBy};
ghost use Rattle.cynara_keys.specs.Text.{same_text};
ghost use Rattle.bucket_store.specs.Bucket.{Bucket as Content};
ghost use Rattle.bucket_store.specs.Order.{bucket_cmp};
ghost use Rattle.bucket_store.specs.parts.Ending as ending;

use crate::Bucket;
use crate::searches::place_of_text;
use cynara_keys::{Kind, PolicyResult};
use std::alloc::{AllocError, Global};

// How many places are remembered, by a number made of the name.
const MOST_REMEMBERED: usize = 2_048;

/// Where buckets stood that were looked for before. Each place is looked at before it is believed, so that any number
/// may stand here.
pub fn no_places(alloc: Global) -> Result<Vec<usize>, AllocError> {
    Ok(vec![in alloc; 0; MOST_REMEMBERED]?)
}

/// The place of the bucket that the result sends on to, if it sends on to one that is there.
pub fn link_place(
    buckets: &[Bucket],
    remembered: &mut [usize],
    outcome: &PolicyResult,
) -> Option<usize>
    requires { IsStrictlySortedBy bucket_cmp buckets.now }
    ensures place { result ≡ ending.link_place buckets.now outcome.now }
    ensures in_range { MatchOption result (Unit {0}) (λ at. at < length buckets.now) }
{
    if outcome.kind() != Kind::BUCKET {
        return None;
    }
    place_of(buckets, remembered, outcome.metadata().as_slice())
}

// The place of the bucket of this name: the one that is remembered, or else a search's.
fn place_of(buckets: &[Bucket], remembered: &mut [usize], name: &[u8]) -> Option<usize>
    requires { IsStrictlySortedBy bucket_cmp buckets.now }
    ensures place { result ≡ position (λ (bucket : Content). same_text bucket.name name.now) buckets.now }
    ensures in_range { MatchOption result (Unit {0}) (λ at. at < length buckets.now) }
{
    let number = number_of(name);
    let guess = remembered.get(number).copied().unwrap_or(0);
    if is_at(buckets, guess, name) {
        return Some(guess);
    }
    match place_of_text(buckets, name) {
        Ok(at) => {
            remember(remembered, number, at);
            Some(at)
        }
        Err(_) => None,
    }
}

// Whether the bucket at the place is there and has this name.
fn is_at(buckets: &[Bucket], at: usize, name: &[u8]) -> bool
    ensures in_range { IsTrue result → at < length buckets.now }
    ensures name { IsTrue result → ending.name_at buckets.now at ≡ name.now }
{
    if at >= buckets.len() {
        return false;
    }
    buckets[at].name().as_slice() == name
}

// A number below `MOST_REMEMBERED` that most names have for themselves.
fn number_of(name: &[u8]) -> usize {
    let mut number: usize = 0;
    for byte in name {
        number = number.wrapping_mul(31).wrapping_add(usize::from(*byte));
    }
    number % MOST_REMEMBERED
}

fn remember(remembered: &mut [usize], number: usize, at: usize) {
    if number < remembered.len() {
        remembered[number] = at;
    }
}
