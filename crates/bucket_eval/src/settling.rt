// What a bucket answers to a question, found once for each bucket that is met.
ghost use Rattle.std.specs.Prelude.{◌≡◌, ◌<◌, ◌≤◌, ℕ, true, false, length, slice_get, IfSome, IfOk, IfErr, Some};
ghost use Rattle.std.proofs.Math.ListN.{set};
ghost use Rattle.bucket_store.specs.Database.{database_of};
ghost use Rattle.bucket_store.specs.WellFormed.{IsKept};
ghost use Rattle.bucket_eval.specs.parts.Buckets.{IsHeld};
ghost use Rattle.bucket_eval.specs.parts.Ends.{EndsWithin};
ghost use Rattle.bucket_eval.specs.parts.Slots.{AreSound, Grows, IsWaiting, answer_to, is_known};

use crate::nested::{Asked, Held, Looked, least_offer};
use crate::slots::{Slot, fallback};
use bucket_store::Bucket;

/// What the bucket at the place answers, by slots of which one is there for each bucket. What they held before is
/// forgotten.
pub fn settled<'a>(asked: &Asked<'a>, slots: &mut [Slot], at: usize) -> Held<'a>
    requires kept { IsKept asked.now.buckets.now }
    requires there { at < length asked.now.buckets.now }
    requires room { length asked.now.buckets.now ≤ length slots.old }
    ensures held { IfSome (slice_get asked.now.buckets.now at) (λ bucket.
        IsHeld asked.now.buckets.now (answer_to asked.now bucket.name) result) }
    ensures room { length slots.new ≡ length slots.old }
{
    let count = asked.buckets.len();
    forget(slots, count);
    settle(asked, slots, at, count)
}

// Forgets what is known of so many buckets.
fn forget(slots: &mut [Slot], count: usize)
    requires { count ≤ length slots.old }
    ensures unknown { (at : ℕ) → at < count → is_known slots.new at ≡ false }
    ensures room { length slots.new ≡ length slots.old }
{
    for at in 0..count {
        slots[at] = Slot::empty();
    }
}

// What the bucket at the place answers, which is known from then on: each bucket that it waits for has its turn before.
// No walk from it has as many policies as are left.
fn settle<'a>(asked: &Asked<'a>, slots: &mut [Slot], at: usize, left: usize) -> Held<'a>
    requires kept { IsKept asked.now.buckets.now }
    requires there { at < length asked.now.buckets.now }
    requires room { length asked.now.buckets.now ≤ length slots.old }
    requires sound { AreSound asked.now slots.old }
    requires ends { IfSome (slice_get asked.now.buckets.now at) (λ bucket.
        EndsWithin (database_of asked.now.buckets.now).policies left bucket.name) }
    ensures held { IfSome (slice_get asked.now.buckets.now at) (λ bucket.
        IsHeld asked.now.buckets.now (answer_to asked.now bucket.name) result) }
    ensures sound { AreSound asked.now slots.new }
    ensures known { is_known slots.new at ≡ true }
    ensures grows { Grows slots.old slots.new }
{
    let bucket = &asked.buckets[at];
    loop {
        match attempt(asked, slots, at, bucket) {
            Ok(held) => {
                keep(slots, at, Slot::of(held.found.bucket, held.found.policy));
                return held;
            }
            Err(below) => {
                let _ = settle(asked, slots, below, left - 1);
            }
        }
    }
}

// Keeps what is known of the bucket at the place.
fn keep(slots: &mut [Slot], at: usize, slot: Slot)
    requires { at < length slots.old }
    ensures { slots.new ≡ set slots.old at slot }
{
    slots[at] = slot;
}

// What the bucket answers, or the place of a bucket that has to answer before.
fn attempt<'a>(
    asked: &Asked<'a>,
    slots: &[Slot],
    at: usize,
    bucket: &'a Bucket,
) -> Result<Held<'a>, usize>
    requires kept { IsKept asked.now.buckets.now }
    requires there { slice_get asked.now.buckets.now at ≡ Some bucket.now }
    requires room { length asked.now.buckets.now ≤ length slots.now }
    requires sound { AreSound asked.now slots.now }
    ensures held { IfOk result (IsHeld asked.now.buckets.now (answer_to asked.now bucket.now.name)) }
    ensures waits { IfErr result (IsWaiting asked.now slots.now bucket.now.name) }
{
    match least_offer(asked, slots, at, bucket) {
        Looked::Offered(offer) => Ok(Held {
            found: offer.found,
            result: offer.result,
        }),
        Looked::Silent => Ok(fallback(at, bucket)),
        Looked::Waits(below) => Err(below),
    }
}
