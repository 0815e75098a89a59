// The policies of a bucket as an index knows them: by the marks of their keys, with the kind of each and the place of
// the bucket that it points to.
ghost use Rattle.std.specs.Prelude.{◌≡◌, ◌==◌, ◌<◌, ◌≤◌, ◌+◌, ℕ, true};
ghost use Rattle.std.specs.Prelude.{if◌then◌else◌, length, slice_get, IfOk, IfSome, Some, None};
ghost use Rattle.std.proofs.Math.ListN.{set};
ghost use Rattle.bucket_store.specs.WellFormed.{IsKept};
ghost use Rattle.bucket_eval.specs.parts.Numbers.{KeepsNumbers};
ghost use Rattle.std.specs.Prelude.{nat_eq};
ghost use Rattle.std.specs.HashMap.{get};
ghost use Rattle.bucket_eval.specs.parts.Sheets.{AreNext, is_behind, IsFiled, IsNextOf};
ghost use Rattle.bucket_eval.specs.parts.Sheets.{IsSheetOf, TargetIs, drafted_in, filed_in};
ghost use Rattle.bucket_eval.specs.parts.Slots.{none_or};

use crate::names::Names;
use crate::nested::{place_of_bucket, points};
use crate::numbers::mark_of;
use crate::shapes::{SHAPES, shape_of};
use crate::slots::{NO_PLACE, policy_at};
use bucket_store::Bucket;
use cynara_keys::Policy;
use std::alloc::{AllocError, Global};
use std::collections::HashMap;

/// A policy: its place in the bucket, the place of the bucket that it points to or the number of no place, its kind,
/// and the shape of its key.
#[derive(Clone, Copy)]
pub struct Filed {
    pub place: u32,
    pub target: u32,
    pub kind: u16,
    pub shape: u16,
}

/// A policy, with the mark of its key.
#[derive(Clone, Copy)]
pub struct Marked {
    pub mark: u64,
    pub filed: Filed,
}

/// A bucket: its policies by the marks of their keys, the first of them apart, and the kind of its fallback. `next` has
/// for each shape, and behind the last, the first from there on that a policy has, or the number of shapes.
#[derive(Drop)]
pub struct Sheet {
    pub first: Option<Marked>,
    pub filed: HashMap<u64, Filed>,
    pub next: [usize; 9],
    pub fallback: u16,
}

// What is known of a bucket's first policies: these by mark, the first of them apart, and which shapes they have.
#[derive(Drop)]
pub struct Draft {
    pub first: Option<Marked>,
    pub filed: HashMap<u64, Filed>,
    pub shapes: [bool; 8],
}

impl Filed {
    // The policy at the place of the bucket at `at`.
    fn of(buckets: &[Bucket], at: usize, bucket: &Bucket, place: usize, policy: &Policy) -> Filed
        requires kept { IsKept buckets.now }
        requires bucket { slice_get buckets.now at ≡ Some bucket.now }
        requires policy { slice_get bucket.now.policies place ≡ Some policy.now }
        requires few { place < 65536 }
        ensures filed { IsFiled buckets.now bucket.now.policies result }
        ensures place { result.place ≡ place }
    {
        Filed {
            place: place as u32,
            target: target_of(buckets, at, bucket, place, policy),
            kind: policy.result.kind().0,
            shape: shape_of(&policy.key) as u16,
        }
    }

    /// The place of the bucket that the policy points to, if it does.
    #[inline(always)]
    pub fn target(&self) -> Option<usize>
        ensures { result ≡ none_or self.now.target }
    {
        if self.target == NO_PLACE {
            return None;
        }
        Some(self.target as usize)
    }
}

// The place of the bucket that the policy points to, or the number of no place.
fn target_of(buckets: &[Bucket], at: usize, bucket: &Bucket, place: usize, policy: &Policy) -> u32
    requires kept { IsKept buckets.now }
    requires bucket { slice_get buckets.now at ≡ Some bucket.now }
    requires policy { slice_get bucket.now.policies place ≡ Some policy.now }
    ensures { TargetIs buckets.now policy.now result }
{
    let _ = at;
    let _ = bucket;
    let _ = place;
    if !points(policy) {
        return NO_PLACE;
    }
    match place_of_bucket(buckets, policy.result.metadata().as_slice()) {
        Some(below) => below as u32,
        None => unreachable!(),
    }
}

impl Draft {
    // Nothing is filed.
    fn new(alloc: Global, count: usize) -> Result<Draft, AllocError>
        ensures { IfOk result (λ draft. (mark : ℕ) → drafted_in draft mark ≡ None) }
    {
        Ok(Draft {
            first: None,
            filed: HashMap::with_capacity(alloc, count)?,
            shapes: [false; 8],
        })
    }

    // Files a policy of this shape under a mark.
    fn put(&mut self, mark: u64, filed: Filed, shape: usize) -> Result<(), AllocError>
        requires { shape < 8 }
        ensures shaped { IfOk result (λ done. self.new.shapes ≡ set self.old.shapes shape true) }
        ensures filed { IfOk result (λ done. (other : ℕ)
            → drafted_in self.new other ≡ (if other == mark then Some filed else drafted_in self.old other)) }
    {
        self.shapes[shape] = true;
        if is_behind(self.first, mark) {
            return self.put_behind(mark, filed);
        }
        self.first = Some(Marked { mark, filed });
        Ok(())
    }

    // Files a policy behind the first under a mark.
    fn put_behind(&mut self, mark: u64, filed: Filed) -> Result<(), AllocError>
        ensures shapes { self.new.shapes ≡ self.old.shapes }
        ensures first { self.new.first ≡ self.old.first }
        ensures filed { IfOk result (λ done. (other : ℕ)
            → get nat_eq self.new.filed other
            ≡ (if other == mark then Some filed else get nat_eq self.old.filed other)) }
    {
        match self.filed.insert(mark, filed) {
            Ok(_) => Ok(()),
            Err(_) => Err(AllocError),
        }
    }
}

// Whether there is a first policy, of another mark.
fn is_behind(first: Option<Marked>, mark: u64) -> bool
    ensures { result ≡ is_behind first mark }
{
    match first {
        Some(first) => mark != first.mark,
        None => false,
    }
}

impl Sheet {
    /// The sheet of the bucket at `at`, whose names are given numbers, unless a key has no mark.
    pub fn of(
        alloc: Global,
        names: &mut Names,
        buckets: &[Bucket],
        at: usize,
        bucket: &Bucket,
    ) -> Result<Option<Sheet>, AllocError>
        requires kept { IsKept buckets.now }
        requires bucket { slice_get buckets.now at ≡ Some bucket.now }
        ensures sheet { IfOk result (λ sheet. IfSome sheet (IsSheetOf names.new buckets.now bucket.now)) }
        ensures kept { IfOk result (λ sheet. KeepsNumbers names.old names.new) }
    {
        let mut draft = Draft::new(alloc, bucket.policies().len())?;
        for place in 0..bucket.policies().len() {
            let policy = policy_at(bucket, place);
            let made = mark_of(alloc, names, &policy.key)?;
            let Some(mark) = made else {
                return Ok(None);
            };
            let filed = Filed::of(buckets, at, bucket, place, policy);
            draft.put(mark, filed, shape_of(&policy.key))?;
        }
        Ok(Some(Sheet {
            first: draft.first,
            filed: draft.filed,
            next: next_of(&draft.shapes),
            fallback: bucket.fallback().kind().0,
        }))
    }

    /// The policy under a mark.
    #[inline(always)]
    pub fn filed(&self, mark: u64) -> Option<Filed>
        ensures { result ≡ filed_in self.now mark }
    {
        if let Some(first) = self.first {
            if mark == first.mark {
                return Some(first.filed);
            }
        }
        self.filed.get(&mark).copied()
    }

    /// The first shape from this one on that a policy has, or the number of shapes.
    #[inline(always)]
    pub fn next(&self, shape: usize) -> usize
        requires { shape ≤ 8 }
        ensures { slice_get self.now.next shape ≡ Some result }
    {
        next_at(&self.next, shape)
    }
}

// For each shape, and behind the last, the first from there on that is there, or the number of shapes.
fn next_of(shapes: &[bool; 8]) -> [usize; 9]
    ensures { AreNext shapes.now result 0 }
{
    let mut next = [SHAPES; 9];
    for shape in (0..SHAPES).rev() {
        next[shape] = next_from(shapes, &next, shape);
    }
    next
}

// The same for this shape, by what there is for those behind it.
fn next_from(shapes: &[bool; 8], next: &[usize; 9], shape: usize) -> usize
    requires shape { shape < 8 }
    requires next { AreNext shapes.now next.now (shape + 1) }
    ensures { IsNextOf shapes.now shape result }
{
    if is_there(shapes, shape) {
        return shape;
    }
    next_at(next, shape + 1)
}

fn is_there(shapes: &[bool; 8], shape: usize) -> bool
    requires { shape < 8 }
    ensures { slice_get shapes.now shape ≡ Some result }
{
    shapes[shape]
}

fn next_at(next: &[usize; 9], shape: usize) -> usize
    requires { shape < 9 }
    ensures { slice_get next.now shape ≡ Some result }
{
    next[shape]
}
