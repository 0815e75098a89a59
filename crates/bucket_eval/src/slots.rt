// What is known already of a question: for each bucket the places of its answer, in eight bytes.
ghost use Rattle.std.specs.Prelude.{◌≡◌, ◌<◌, ◌≤◌, length, slice_get, IfSome, IfNone, Some, None};
ghost use Rattle.std.specs.Option.{option_map};
ghost use Rattle.bucket_store.specs.WellFormed.{IsKept};
ghost use Rattle.bucket_eval.specs.parts.Buckets.{IsHeld};
ghost use Rattle.bucket_eval.specs.parts.Slots.{AreSound, answer_to, none_or, spot_at, spot_of};

use crate::answers::Found;
use crate::nested::{Asked, Held};
use bucket_store::Bucket;
use cynara_keys::Policy;

/// The number of no place.
pub const NO_PLACE: u32 = 4_294_967_295;

/// Where an answer was found: the place of its bucket, or the number of no place where nothing is known; and there the
/// place of the policy, or the number of no place for the fallback.
#[derive(Clone, Copy)]
pub struct Slot {
    pub bucket: u32,
    pub policy: u32,
}

impl Slot {
    /// Nothing is known.
    pub fn empty() -> Slot
        ensures { spot_of result ≡ None }
    {
        Slot {
            bucket: NO_PLACE,
            policy: NO_PLACE,
        }
    }

    /// These places are known.
    pub fn of(bucket: usize, policy: Option<usize>) -> Slot
        requires bucket { bucket < 65536 }
        requires policy { IfSome policy (λ place. place < 65536) }
        ensures { spot_of result ≡ Some (record { bucket = bucket; policy = policy }) }
    {
        match policy {
            Some(place) => Slot {
                bucket: bucket as u32,
                policy: place as u32,
            },
            None => Slot {
                bucket: bucket as u32,
                policy: NO_PLACE,
            },
        }
    }

    /// The place of the bucket, where one is known.
    pub fn bucket(&self) -> Option<usize>
        ensures { result ≡ option_map (λ spot. spot.bucket) (spot_of self.now) }
    {
        if self.bucket == NO_PLACE {
            return None;
        }
        Some(self.bucket as usize)
    }

    /// The place of the policy, where there is one.
    pub fn policy(&self) -> Option<usize>
        ensures { result ≡ none_or self.now.policy }
    {
        if self.policy == NO_PLACE {
            return None;
        }
        Some(self.policy as usize)
    }
}

/// What the bucket at the place answers, where that is known.
pub fn known<'a>(asked: &Asked<'a>, slots: &[Slot], at: usize) -> Option<Held<'a>>
    requires there { at < length asked.now.buckets.now }
    requires room { length asked.now.buckets.now ≤ length slots.now }
    requires sound { AreSound asked.now slots.now }
    ensures held { IfSome result (λ held. IfSome (slice_get asked.now.buckets.now at) (λ bucket.
        IsHeld asked.now.buckets.now (answer_to asked.now bucket.name) held)) }
    ensures unknown { IfNone result (spot_at slots.now at ≡ None) }
{
    let slot = slot_at(slots, at);
    let Some(of) = slot.bucket() else {
        return None;
    };
    let bucket = bucket_at(asked.buckets, of);
    match slot.policy() {
        Some(place) => Some(own(of, place, policy_at(bucket, place))),
        None => Some(fallback(of, bucket)),
    }
}

fn slot_at(slots: &[Slot], at: usize) -> Slot
    requires { at < length slots.now }
    ensures { slice_get slots.now at ≡ Some result }
{
    slots[at]
}

/// The bucket at the place.
pub fn bucket_at(buckets: &[Bucket], at: usize) -> &Bucket
    requires { at < length buckets.now }
    ensures { slice_get buckets.now at ≡ Some result.now }
{
    &buckets[at]
}

/// The bucket's policy at the place.
pub fn policy_at(bucket: &Bucket, place: usize) -> &Policy
    requires { place < length bucket.now.policies }
    ensures { slice_get bucket.now.policies place ≡ Some result.now }
{
    &bucket.policies()[place]
}

/// The policy's own result.
pub fn own<'a>(at: usize, place: usize, policy: &'a Policy) -> Held<'a>
    ensures kind { result.found.kind.0 ≡ policy.now.result.kind }
    ensures bucket { result.found.bucket ≡ at }
    ensures policy { result.found.policy ≡ Some place }
    ensures result { result.result.now ≡ policy.now.result }
{
    Held {
        found: Found {
            kind: policy.result.kind(),
            bucket: at,
            policy: Some(place),
        },
        result: &policy.result,
    }
}

/// The bucket's fallback.
pub fn fallback<'a>(at: usize, bucket: &'a Bucket) -> Held<'a>
    ensures kind { result.found.kind.0 ≡ bucket.now.fallback.kind }
    ensures bucket { result.found.bucket ≡ at }
    ensures policy { result.found.policy ≡ None }
    ensures result { result.result.now ≡ bucket.now.fallback }
{
    let result = bucket.fallback();
    Held {
        found: Found {
            kind: result.kind(),
            bucket: at,
            policy: None,
        },
        result,
    }
}
