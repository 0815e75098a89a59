// What a bucket answers, by the sheets of an index. Each bucket answers once, when the first policy that points to it
// is met, and of its policies only those are looked at whose shape is there.
ghost use Rattle.std.specs.Prelude.{List, ◌≡◌, ◌<◌, ◌≤◌, ◌+◌, ℕ, length};
ghost use Rattle.std.specs.Prelude.{slice_get, is_some, true, false, Some, None, IfSome};
ghost use Rattle.std.specs.Ordering.{is_gt, nat_cmp, ordering_then};
ghost use Rattle.cynara_keys.specs.PolicyResult.{result_cmp};
ghost use Rattle.bucket_store.specs.Bucket.{Bucket as Content};
ghost use Rattle.bucket_store.specs.WellFormed.{IsKept};
ghost use Rattle.bucket_eval.specs.Evaluation.{Outcome};
ghost use Rattle.bucket_eval.specs.parts.Buckets.{outcome_at};
ghost use Rattle.bucket_eval.specs.parts.Deciding.{AnswersAt, EndsAt, FiledAt, FitsIn, FollowsAt, IsBestAt, IsLeastAt};
ghost use Rattle.bucket_eval.specs.parts.Deciding.{IsLeastBelow, IsLesserAt, IsOrderAt, IsReady, IsRight, IsWeighedAt};
ghost use Rattle.bucket_eval.specs.parts.Deciding.{answer_of, is_answered, is_bare, outcome_known};
ghost use Rattle.bucket_eval.specs.parts.Slots.{spot_of};

use crate::answers::Found;
use crate::shapes::SHAPES;
use crate::shared_sheets::{SharedSheet, shared_at};
use crate::sheets::{Filed, Sheet};
use crate::slots::{Slot, bucket_at, policy_at};
use bucket_store::Bucket;
use cynara_keys::{BorrowedQuestion, Kind, PolicyResult};

/// Where an answer was found, and its kind; or nothing.
#[derive(Clone, Copy)]
pub struct Known {
    pub slot: Slot,
    pub kind: u16,
}

/// What a policy of a bucket contributes, and the place of the policy.
#[derive(Clone, Copy)]
pub struct Weighed {
    pub known: Known,
    pub place: u32,
}

/// What is asked of the buckets: a question, with the mark for each shape of the key that matches it.
#[derive(Clone, Copy)]
pub struct Asking<'a> {
    pub buckets: &'a [Bucket],
    pub sheets: &'a [SharedSheet],
    pub question: &'a BorrowedQuestion<'a>,
    pub marks: &'a [Option<u64>],
}

impl Known {
    /// Nothing is known.
    pub fn nothing() -> Known
        ensures { spot_of result.slot ≡ None }
    {
        Known {
            slot: Slot::empty(),
            kind: 0,
        }
    }

    // Whether something is known.
    #[inline(always)]
    fn is_there(&self) -> bool
        ensures { result ≡ is_some (spot_of self.now.slot) }
    {
        self.slot.bucket().is_some()
    }

    // The place of the bucket's policy, or its fallback.
    #[inline(always)]
    fn of(bucket: usize, policy: Option<usize>, kind: u16) -> Known
        requires bucket { bucket < 65536 }
        requires policy { IfSome policy (λ place. place < 65536) }
        ensures spot { spot_of result.slot ≡ Some (record { bucket = bucket; policy = policy }) }
        ensures kind { result.kind ≡ kind }
    {
        Known {
            slot: Slot::of(bucket, policy),
            kind,
        }
    }

    // The same by places that are no numbers of none.
    fn found(&self) -> Found
        requires { is_some (spot_of self.now.slot) ≡ true }
        ensures { (o : Outcome) (buckets : List Content) → outcome_known buckets self.now ≡ Some o
            → outcome_at buckets result ≡ Some o }
    {
        let Some(bucket) = self.slot.bucket() else {
            unreachable!()
        };
        Found {
            kind: Kind(self.kind),
            bucket,
            policy: self.slot.policy(),
        }
    }
}

/// What the first bucket answers. What the slots held before is forgotten.
pub fn decided(asking: &Asking<'_>, slots: &mut [Known]) -> Found
    requires right { IsRight asking.now }
    requires there { 0 < length asking.now.buckets.now }
    requires room { length asking.now.buckets.now ≤ length slots.old }
    ensures found { (bucket : Content) → slice_get asking.now.buckets.now 0 ≡ Some bucket
        → outcome_at asking.now.buckets.now result ≡ Some (answer_of asking.now bucket.name) }
    ensures room { length slots.new ≡ length slots.old }
{
    let count = asking.buckets.len();
    forget(slots, count);
    settle(asking, slots, 0, count).found()
}

// Forgets what is known of so many buckets.
fn forget(slots: &mut [Known], count: usize)
    requires { count ≤ length slots.old }
    ensures unknown { (at : ℕ) → at < count → is_answered slots.new at ≡ false }
    ensures room { length slots.new ≡ length slots.old }
{
    for at in 0..count {
        slots[at] = Known::nothing();
    }
}

// What the bucket at the place answers, which is known from then on. No walk from it has as many policies as are left.
#[cycle(deciding)]
fn settle(asking: &Asking<'_>, slots: &mut [Known], at: usize, left: usize) -> Known
    requires ready { IsReady asking.now slots.old }
    requires there { at < length asking.now.buckets.now }
    requires ends { EndsAt asking.now at left }
    ensures ready { IsReady asking.now slots.new }
    ensures room { length slots.new ≡ length slots.old }
    ensures answers { AnswersAt asking.now at result }
{
    match least(asking, slots, at, left) {
        Some(weighed) => keep(asking, slots, at, weighed.known),
        None => keep(asking, slots, at, fallback_at(asking, at)),
    }
}

// The least contribution of the bucket's policies.
#[cycle(deciding)]
#[inline(always)]
fn least(asking: &Asking<'_>, slots: &mut [Known], at: usize, left: usize) -> Option<Weighed>
    requires ready { IsReady asking.now slots.old }
    requires there { at < length asking.now.buckets.now }
    requires ends { EndsAt asking.now at left }
    ensures ready { IsReady asking.now slots.new }
    ensures room { length slots.new ≡ length slots.old }
    ensures least { IsLeastAt asking.now at result }
{
    let sheet = sheet_at(asking, at);
    let mut best = None;
    let mut shape = sheet.next(0);
    while shape < SHAPES {
        best = lesser_in_shape(asking, slots, at, shape, best, left);
        shape = sheet.next(shape + 1);
    }
    best
}

// The lesser of the best and what the policy of this shape contributes, if there is one.
#[cycle(deciding)]
#[inline(always)]
fn lesser_in_shape(
    asking: &Asking<'_>,
    slots: &mut [Known],
    at: usize,
    shape: usize,
    best: Option<Weighed>,
    left: usize,
) -> Option<Weighed>
    requires ready { IsReady asking.now slots.old }
    requires there { at < length asking.now.buckets.now }
    requires ends { EndsAt asking.now at left }
    requires shape { shape < 8 }
    requires best { IsLeastBelow asking.now at shape best }
    ensures ready { IsReady asking.now slots.new }
    ensures room { length slots.new ≡ length slots.old }
    ensures best { IsLeastBelow asking.now at (shape + 1) result }
{
    let Some(filed) = filed_in_shape(asking, at, shape) else {
        return best;
    };
    let known = followed(asking, slots, at, filed, left);
    lesser(asking, at, filed.place, known, best)
}

// What the policy answers, or the bucket that it points to.
#[cycle(deciding)]
#[inline(always)]
fn followed(asking: &Asking<'_>, slots: &mut [Known], at: usize, filed: Filed, left: usize) -> Known
    requires ready { IsReady asking.now slots.old }
    requires there { at < length asking.now.buckets.now }
    requires ends { EndsAt asking.now at left }
    requires filed { FiledAt asking.now at filed }
    ensures ready { IsReady asking.now slots.new }
    ensures room { length slots.new ≡ length slots.old }
    ensures follows { FollowsAt asking.now at filed.place result }
{
    let Some(target) = filed.target() else {
        return own_at(asking, at, filed);
    };
    let known = known_at(slots, target);
    if known.is_there() {
        return known;
    }
    settle(asking, slots, target, left - 1)
}

#[inline(always)]
fn known_at(slots: &[Known], at: usize) -> Known
    requires { at < length slots.now }
    ensures { slice_get slots.now at ≡ Some result }
{
    slots[at]
}

// Keeps what the bucket at the place answers.
#[inline(always)]
fn keep(asking: &Asking<'_>, slots: &mut [Known], at: usize, known: Known) -> Known
    requires ready { IsReady asking.now slots.old }
    requires there { at < length asking.now.buckets.now }
    requires answers { AnswersAt asking.now at known }
    ensures ready { IsReady asking.now slots.new }
    ensures room { length slots.new ≡ length slots.old }
    ensures same { result ≡ known }
{
    let _ = asking;
    slots[at] = known;
    known
}

// The policy of the bucket whose key has this shape and matches the question, found by its mark.
#[inline(always)]
fn filed_in_shape(asking: &Asking<'_>, at: usize, shape: usize) -> Option<Filed>
    requires right { IsRight asking.now }
    requires there { at < length asking.now.buckets.now }
    requires shape { shape < 8 }
    ensures { FitsIn asking.now at shape result }
{
    let Some(mark) = mark_at(asking, shape) else {
        return None;
    };
    let Some(filed) = sheet_at(asking, at).filed(mark) else {
        return None;
    };
    if filed.shape as usize == shape {
        return Some(filed);
    }
    None
}

#[inline(always)]
fn mark_at(asking: &Asking<'_>, shape: usize) -> Option<u64>
    requires right { IsRight asking.now }
    requires shape { shape < 8 }
    ensures { slice_get asking.now.marks.now shape ≡ Some result }
{
    asking.marks[shape]
}

#[inline(always)]
fn sheet_at<'a>(asking: &Asking<'a>, at: usize) -> &'a Sheet
    requires right { IsRight asking.now }
    requires there { at < length asking.now.buckets.now }
    ensures { slice_get asking.now.sheets.now at ≡ Some result.now }
{
    shared_at(asking.sheets, at).sheet()
}

// The bucket's fallback.
fn fallback_at(asking: &Asking<'_>, at: usize) -> Known
    requires right { IsRight asking.now }
    requires there { at < length asking.now.buckets.now }
    ensures spot { spot_of result.slot ≡ Some (record { bucket = at; policy = None }) }
    ensures kind { (bucket : Content) → slice_get asking.now.buckets.now at ≡ Some bucket
        → result.kind ≡ bucket.fallback.kind }
{
    Known::of(at, None, sheet_at(asking, at).fallback)
}

// The policy's own result.
#[inline(always)]
fn own_at(asking: &Asking<'_>, at: usize, filed: Filed) -> Known
    requires right { IsRight asking.now }
    requires there { at < length asking.now.buckets.now }
    requires filed { FiledAt asking.now at filed }
    ensures spot { spot_of result.slot ≡ Some (record { bucket = at; policy = Some filed.place }) }
    ensures kind { result.kind ≡ filed.kind }
{
    let _ = asking;
    Known::of(at, Some(filed.place as usize), filed.kind)
}

// The lesser of the best and what the policy at the place contributes. NONE is left out.
#[inline(always)]
fn lesser(
    asking: &Asking<'_>,
    at: usize,
    place: u32,
    known: Known,
    best: Option<Weighed>,
) -> Option<Weighed>
    requires kept { IsKept asking.now.buckets.now }
    requires there { at < length asking.now.buckets.now }
    requires offer { IsWeighedAt asking.now at (record { known = known; place = place }) }
    requires best { IsBestAt asking.now at best }
    ensures { IsLesserAt asking.now at place known best result }
{
    if known.kind == 1 {
        return best;
    }
    let offer = Weighed { known, place };
    let Some(other) = best else {
        return Some(offer);
    };
    if is_after(asking, at, &offer, &other) {
        return Some(other);
    }
    Some(offer)
}

// Whether the one contribution comes after the other, by result and then by key. Mostly the kinds differ.
#[inline(always)]
fn is_after(asking: &Asking<'_>, at: usize, offer: &Weighed, other: &Weighed) -> bool
    requires kept { IsKept asking.now.buckets.now }
    requires there { at < length asking.now.buckets.now }
    requires offer { IsWeighedAt asking.now at offer.now }
    requires other { IsWeighedAt asking.now at other.now }
    ensures { IsOrderAt asking.now at offer.now other.now result }
{
    if offer.known.kind < other.known.kind {
        return false;
    }
    if offer.known.kind > other.known.kind {
        return true;
    }
    if is_bare(offer.known.kind) {
        return is_after_by_places(asking, at, offer, other);
    }
    is_after_by_texts(asking, at, offer, other)
}

// Whether results of this kind have no metadata: DENY and ALLOW.
#[inline(always)]
fn is_bare(kind: u16) -> bool
    ensures { result ≡ is_bare kind }
{
    kind == 0 || kind == 65535
}

// The same where the kinds are alike and no result has metadata. Policies stand in the order of their keys.
#[inline(always)]
fn is_after_by_places(asking: &Asking<'_>, at: usize, offer: &Weighed, other: &Weighed) -> bool
    requires kept { IsKept asking.now.buckets.now }
    requires there { at < length asking.now.buckets.now }
    requires offer { IsWeighedAt asking.now at offer.now }
    requires other { IsWeighedAt asking.now at other.now }
    requires alike { offer.now.known.kind ≡ other.now.known.kind }
    requires bare { is_bare offer.now.known.kind ≡ true }
    ensures { IsOrderAt asking.now at offer.now other.now result }
{
    let result = result_at(asking, at, offer);
    let other_result = result_at(asking, at, other);
    comes_after_bare(result, other_result, offer.place, other.place)
}

#[inline(always)]
fn comes_after_bare(
    outcome: &PolicyResult,
    other: &PolicyResult,
    place: u32,
    other_place: u32,
) -> bool
    requires alike { outcome.now.kind ≡ other.now.kind }
    requires bare { is_bare outcome.now.kind ≡ true }
    ensures { result ≡ is_gt (ordering_then (result_cmp outcome.now other.now) (nat_cmp place other_place)) }
{
    let _ = outcome.metadata();
    let _ = other.metadata();
    place.cmp(&other_place).is_gt()
}

// The same where the kinds are alike. Policies stand in the order of their keys.
#[inline(never)]
fn is_after_by_texts(asking: &Asking<'_>, at: usize, offer: &Weighed, other: &Weighed) -> bool
    requires kept { IsKept asking.now.buckets.now }
    requires there { at < length asking.now.buckets.now }
    requires offer { IsWeighedAt asking.now at offer.now }
    requires other { IsWeighedAt asking.now at other.now }
    ensures { IsOrderAt asking.now at offer.now other.now result }
{
    let result = result_at(asking, at, offer);
    let other_result = result_at(asking, at, other);
    comes_after(result, other_result, offer.place, other.place)
}

// The result of what was weighed.
fn result_at<'a>(asking: &Asking<'a>, at: usize, weighed: &Weighed) -> &'a PolicyResult
    requires there { at < length asking.now.buckets.now }
    requires weighed { IsWeighedAt asking.now at weighed.now }
    ensures { (o : Outcome) → outcome_known asking.now.buckets.now weighed.now.known ≡ Some o → result.now ≡ o.result }
{
    let _ = at;
    result_of(asking, &weighed.known)
}

fn comes_after(outcome: &PolicyResult, other: &PolicyResult, place: u32, other_place: u32) -> bool
    ensures { result ≡ is_gt (ordering_then (result_cmp outcome.now other.now) (nat_cmp place other_place)) }
{
    let by_result = outcome.cmp(other);
    by_result.then_with(|| place.cmp(&other_place)).is_gt()
}

// The result that is known.
fn result_of<'a>(asking: &Asking<'a>, known: &Known) -> &'a PolicyResult
    requires { is_some (outcome_known asking.now.buckets.now known.now) ≡ true }
    ensures { (o : Outcome) → outcome_known asking.now.buckets.now known.now ≡ Some o → result.now ≡ o.result }
{
    let Some(of) = known.slot.bucket() else {
        unreachable!()
    };
    let bucket = bucket_at(asking.buckets, of);
    match known.slot.policy() {
        Some(place) => &policy_at(bucket, place).result,
        None => bucket.fallback(),
    }
}
