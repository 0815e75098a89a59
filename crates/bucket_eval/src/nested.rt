// What the policies of one bucket contribute to a question, by what is known of the buckets that they point to.
ghost use Rattle.std.specs.Prelude.{◌≡◌, ◌<◌, ◌≤◌, length, slice_get, IfSome, Some, true};
ghost use Rattle.std.specs.List.{filter_map, position};
ghost use Rattle.std.specs.List.Sorted.{IsStrictlySortedBy};
ghost use Rattle.cynara_keys.specs.Key.{key_matches};
ghost use Rattle.cynara_keys.specs.Minimum.{first_least};
ghost use Rattle.cynara_keys.specs.Text.{same_text};
ghost use Rattle.bucket_store.specs.Order.{bucket_cmp, policy_cmp};
ghost use Rattle.bucket_store.specs.Walk.{points};
ghost use Rattle.bucket_store.specs.WellFormed.{IsKept};
ghost use Rattle.bucket_eval.specs.Evaluation.{contribution_cmp, outcome_of};
ghost use Rattle.bucket_eval.specs.parts.Buckets.{chosen, comes_after};
ghost use Rattle.bucket_eval.specs.parts.Shapes.{FitsAt, in_shape};
ghost use Rattle.bucket_eval.specs.parts.Slots.{AreSound, Looks, Reaches, answer_to, offered_to};
ghost use Rattle.bucket_eval.specs.parts.Windows.{FailsOutside, matches};

use crate::answers::Found;
use crate::shapes::{SHAPES, place_of_shape};
use crate::slots::{Slot, known, own};
use crate::windows::{Window, window_of};
use bucket_store::Bucket;
use cynara_keys::{BorrowedQuestion, Key, Kind, Policy, PolicyResult};

/// A pass over so many policies costs less than a search for each shape.
const FEW: usize = 64;

/// What a bucket answers: where it was found, and the result there.
#[derive(Clone, Copy)]
pub struct Held<'a> {
    pub found: Found,
    pub result: &'a PolicyResult,
}

/// What a policy contributes: where it was found, the result there, and the policy's key.
#[derive(Clone, Copy)]
pub struct Offer<'a> {
    pub found: Found,
    pub result: &'a PolicyResult,
    pub key: &'a Key,
}

/// What is asked of the buckets: a question, and whether policies that point to a bucket are followed.
#[derive(Clone, Copy)]
pub struct Asked<'a> {
    pub buckets: &'a [Bucket],
    pub question: &'a BorrowedQuestion<'a>,
    pub deep: bool,
}

/// What following a policy came to.
#[derive(Clone, Copy)]
pub enum Reached<'a> {
    /// This result.
    Answers(Held<'a>),
    /// No result: the policy points to a bucket and is not followed.
    Nothing,
    /// The bucket at this place has to answer before.
    Waits(usize),
}

/// What a look at policies came to.
#[derive(Clone, Copy)]
pub enum Looked<'a> {
    /// This is the least that they contribute.
    Offered(Offer<'a>),
    /// They contribute nothing.
    Silent,
    /// The bucket at this place has to answer before.
    Waits(usize),
}

/// The least contribution of the bucket's policies.
pub fn least_offer<'a>(
    asked: &Asked<'a>,
    slots: &[Slot],
    at: usize,
    bucket: &'a Bucket,
) -> Looked<'a>
    requires kept { IsKept asked.now.buckets.now }
    requires there { slice_get asked.now.buckets.now at ≡ Some bucket.now }
    requires room { length asked.now.buckets.now ≤ length slots.now }
    requires sound { AreSound asked.now slots.now }
    ensures { Looks asked.now slots.now bucket.now.name
        (first_least contribution_cmp (filter_map (offered_to asked.now bucket.now.name) bucket.now.policies)) result }
{
    let window = window_of(bucket.policies(), asked.question, FEW);
    if window.end - window.start <= FEW {
        return least_in_turn(asked, slots, at, bucket, window);
    }
    least_by_shape(asked, slots, at, bucket)
}

// The same, by a pass over a window outside of which no policy matches.
fn least_in_turn<'a>(
    asked: &Asked<'a>,
    slots: &[Slot],
    at: usize,
    bucket: &'a Bucket,
    window: Window,
) -> Looked<'a>
    requires kept { IsKept asked.now.buckets.now }
    requires there { slice_get asked.now.buckets.now at ≡ Some bucket.now }
    requires room { length asked.now.buckets.now ≤ length slots.now }
    requires sound { AreSound asked.now slots.now }
    requires order { window.start ≤ window.end }
    requires within { window.end ≤ length bucket.now.policies }
    requires outside { FailsOutside (matches asked.now.question.now) window bucket.now.policies }
    ensures { Looks asked.now slots.now bucket.now.name
        (first_least contribution_cmp (filter_map (offered_to asked.now bucket.now.name) bucket.now.policies)) result }
{
    let policies = bucket.policies();
    let mut best: Option<Offer<'a>> = None;
    for place in (window.start..window.end).rev() {
        match offer_of(asked, slots, at, bucket, place, &policies[place]) {
            Looked::Offered(offer) => best = Some(least_of(offer, best)),
            Looked::Silent => {}
            Looked::Waits(below) => return Looked::Waits(below),
        }
    }
    match best {
        Some(offer) => Looked::Offered(offer),
        None => Looked::Silent,
    }
}

// The same, by the policies that match the question alone: one a shape of key at most.
fn least_by_shape<'a>(
    asked: &Asked<'a>,
    slots: &[Slot],
    at: usize,
    bucket: &'a Bucket,
) -> Looked<'a>
    requires kept { IsKept asked.now.buckets.now }
    requires there { slice_get asked.now.buckets.now at ≡ Some bucket.now }
    requires room { length asked.now.buckets.now ≤ length slots.now }
    requires sound { AreSound asked.now slots.now }
    ensures { Looks asked.now slots.now bucket.now.name
        (first_least contribution_cmp (filter_map (offered_to asked.now bucket.now.name) bucket.now.policies)) result }
{
    let mut best: Option<Offer<'a>> = None;
    for shape in 0..SHAPES {
        match offer_in_shape(asked, slots, at, bucket, shape) {
            Looked::Offered(offer) => best = Some(least_of(offer, best)),
            Looked::Silent => {}
            Looked::Waits(below) => return Looked::Waits(below),
        }
    }
    match best {
        Some(offer) => Looked::Offered(offer),
        None => Looked::Silent,
    }
}

// What the policy of the bucket contributes whose key has this shape, if one does.
fn offer_in_shape<'a>(
    asked: &Asked<'a>,
    slots: &[Slot],
    at: usize,
    bucket: &'a Bucket,
    shape: usize,
) -> Looked<'a>
    requires kept { IsKept asked.now.buckets.now }
    requires there { slice_get asked.now.buckets.now at ≡ Some bucket.now }
    requires room { length asked.now.buckets.now ≤ length slots.now }
    requires sound { AreSound asked.now slots.now }
    ensures { Looks asked.now slots.now bucket.now.name (first_least contribution_cmp (filter_map
        (in_shape shape (offered_to asked.now bucket.now.name)) bucket.now.policies)) result }
{
    let policies = bucket.policies();
    match place_of_shape(policies, asked.question, shape) {
        Some(place) => offer_of_match(asked, slots, at, bucket, place, &policies[place]),
        None => Looked::Silent,
    }
}

// What the policy of the bucket contributes. NONE is left out.
fn offer_of<'a>(
    asked: &Asked<'a>,
    slots: &[Slot],
    at: usize,
    bucket: &'a Bucket,
    place: usize,
    policy: &'a Policy,
) -> Looked<'a>
    requires kept { IsKept asked.now.buckets.now }
    requires bucket { slice_get asked.now.buckets.now at ≡ Some bucket.now }
    requires policy { slice_get bucket.now.policies place ≡ Some policy.now }
    requires room { length asked.now.buckets.now ≤ length slots.now }
    requires sound { AreSound asked.now slots.now }
    ensures { Looks asked.now slots.now bucket.now.name (offered_to asked.now bucket.now.name policy.now) result }
{
    if !policy.key.matches_borrowed(asked.question) {
        return Looked::Silent;
    }
    offer_of_match(asked, slots, at, bucket, place, policy)
}

// The same of a policy whose key matches the question.
fn offer_of_match<'a>(
    asked: &Asked<'a>,
    slots: &[Slot],
    at: usize,
    bucket: &'a Bucket,
    place: usize,
    policy: &'a Policy,
) -> Looked<'a>
    requires kept { IsKept asked.now.buckets.now }
    requires bucket { slice_get asked.now.buckets.now at ≡ Some bucket.now }
    requires policy { slice_get bucket.now.policies place ≡ Some policy.now }
    requires room { length asked.now.buckets.now ≤ length slots.now }
    requires sound { AreSound asked.now slots.now }
    requires matches { key_matches policy.now.key asked.now.question.now ≡ true }
    ensures { Looks asked.now slots.now bucket.now.name (offered_to asked.now bucket.now.name policy.now) result }
{
    match answered(asked, slots, at, bucket, place, policy) {
        Reached::Answers(held) => {
            if held.found.kind == Kind::NONE {
                return Looked::Silent;
            }
            Looked::Offered(Offer {
                found: held.found,
                result: held.result,
                key: &policy.key,
            })
        }
        Reached::Nothing => Looked::Silent,
        Reached::Waits(below) => Looked::Waits(below),
    }
}

// The policy's own result, or, where it points to a bucket and is followed, what that one answers.
fn answered<'a>(
    asked: &Asked<'a>,
    slots: &[Slot],
    at: usize,
    bucket: &'a Bucket,
    place: usize,
    policy: &'a Policy,
) -> Reached<'a>
    requires kept { IsKept asked.now.buckets.now }
    requires bucket { slice_get asked.now.buckets.now at ≡ Some bucket.now }
    requires policy { slice_get bucket.now.policies place ≡ Some policy.now }
    requires room { length asked.now.buckets.now ≤ length slots.now }
    requires sound { AreSound asked.now slots.now }
    ensures { Reaches asked.now slots.now bucket.now.name
        (outcome_of (answer_to asked.now) asked.now.deep bucket.now.name policy.now) result }
{
    if !points(policy) {
        return Reached::Answers(own(at, place, policy));
    }
    if !asked.deep {
        return Reached::Nothing;
    }
    match place_of_bucket(asked.buckets, policy.result.metadata().as_slice()) {
        Some(below) => match known(asked, slots, below) {
            Some(held) => Reached::Answers(held),
            None => Reached::Waits(below),
        },
        None => unreachable!(),
    }
}

/// Whether the policy points to a bucket.
pub fn points(policy: &Policy) -> bool
    ensures { result ≡ points policy.now }
{
    policy.result.kind() == Kind::BUCKET
}

/// The place of the bucket of this name, found by halving.
pub fn place_of_bucket(buckets: &[Bucket], name: &[u8]) -> Option<usize>
    requires { IsStrictlySortedBy bucket_cmp buckets.now }
    ensures { result ≡ position (λ bucket. same_text bucket.name name.now) buckets.now }
{
    buckets
        .binary_search_by(|bucket| bucket.name().as_slice().cmp(name))
        .ok()
}

// The lesser of the two offers, if there are two, and the first where they tie.
fn least_of<'a>(offer: Offer<'a>, best: Option<Offer<'a>>) -> Offer<'a>
    ensures { result ≡ chosen offer.entry best.entry }
{
    match best {
        None => offer,
        Some(other) => {
            if is_after(&offer, &other) {
                other
            } else {
                offer
            }
        }
    }
}

// Whether the one comes after the other, by result and then by key.
fn is_after(offer: &Offer<'_>, other: &Offer<'_>) -> bool
    ensures { result ≡ comes_after offer.now other.now }
{
    let by_result = offer.result.cmp(other.result);
    by_result.then_with(|| offer.key.cmp(other.key)).is_gt()
}
