ghost use Rattle.std.specs.Prelude.{◌≡◌, ◌<◌, ◌≤◌, length, slice_get, IfSome, IsSome, Some};
ghost use Rattle.bucket_store.specs.WellFormed.{IsKept};
ghost use Rattle.bucket_eval.specs.Evaluation.{answer};
ghost use Rattle.bucket_eval.specs.Found.{outcome_at, answer_of};
ghost use Rattle.bucket_eval.specs.parts.Buckets.{IsHeld};
ghost use Rattle.bucket_eval.specs.parts.Slots.{answer_to};

use crate::answers::{Answer, Found};
use crate::lending::lend;
use crate::nested::{Asked, Held};
use crate::settling::settled;
use crate::slots::Slot;
use bucket_store::Database;
use cynara_keys::{BorrowedQuestion, Question};

/// As many slots as a database can have buckets.
const MOST_SLOTS: usize = 1024;

/// So many slots are enough for most databases.
const FEW_SLOTS: usize = 16;

/// What the bucket at the place `start` answers to the question: of the results of its policies that match, and, if
/// `recursive`, of the answers of the buckets that they point to, the least by kind, then by metadata and then by key
/// that isn't NONE, and else its fallback. Takes no memory. Each bucket answers at most once, however many ways lead to
/// it; eight binary searches of its policies at most, once for itself and once for each bucket that it waits for.
pub fn plain(database: &Database, start: usize, question: &Question, recursive: bool) -> Found
    requires { start < length database.now.buckets }
    ensures answer { IfSome (slice_get database.now.buckets start) (λ heading.
        outcome_at database.now result ≡ Some (answer database.now heading.name question.now recursive)) }
    ensures kind { IfSome (outcome_at database.now result) (λ outcome. result.kind.0 ≡ outcome.result.kind) }
    ensures there { IsSome (outcome_at database.now result) }
{
    plain_borrowed(database, start, &question.borrowed(), recursive)
}

/// The same for a question whose names stand elsewhere.
pub fn plain_borrowed(
    database: &Database,
    start: usize,
    question: &BorrowedQuestion<'_>,
    recursive: bool,
) -> Found
    requires { start < length database.now.buckets }
    ensures answer { IfSome (slice_get database.now.buckets start) (λ heading.
        outcome_at database.now result ≡ Some (answer database.now heading.name question.now recursive)) }
    ensures kind { IfSome (outcome_at database.now result) (λ outcome. result.kind.0 ≡ outcome.result.kind) }
    ensures there { IsSome (outcome_at database.now result) }
{
    found_from(database, start, question, recursive)
}

// The same.
// proof: one lifetime for all that is borrowed, since a struct of references at two is not covered.
fn found_from<'a>(
    database: &'a Database,
    start: usize,
    question: &'a BorrowedQuestion<'a>,
    recursive: bool,
) -> Found
    requires { start < length database.now.buckets }
    ensures answer { IfSome (slice_get database.now.buckets start) (λ heading.
        outcome_at database.now result ≡ Some (answer database.now heading.name question.now recursive)) }
    ensures kind { IfSome (outcome_at database.now result) (λ outcome. result.kind.0 ≡ outcome.result.kind) }
    ensures there { IsSome (outcome_at database.now result) }
{
    let buckets = database.buckets();
    let asked = Asked {
        buckets,
        question,
        deep: recursive,
    };
    from_the_start(&asked, start).found
}

// What the bucket at the place answers. Few buckets take few slots, which are made at once.
fn from_the_start<'a>(asked: &Asked<'a>, start: usize) -> Held<'a>
    requires kept { IsKept asked.now.buckets.now }
    requires there { start < length asked.now.buckets.now }
    ensures { IfSome (slice_get asked.now.buckets.now start) (λ bucket.
        IsHeld asked.now.buckets.now (answer_to asked.now bucket.name) result) }
{
    if asked.buckets.len() <= FEW_SLOTS {
        return by_few_slots(asked, start);
    }
    by_slots(asked, start)
}

fn by_few_slots<'a>(asked: &Asked<'a>, start: usize) -> Held<'a>
    requires kept { IsKept asked.now.buckets.now }
    requires there { start < length asked.now.buckets.now }
    requires few { length asked.now.buckets.now ≤ 16 }
    ensures { IfSome (slice_get asked.now.buckets.now start) (λ bucket.
        IsHeld asked.now.buckets.now (answer_to asked.now bucket.name) result) }
{
    let mut slots = [Slot::empty(); FEW_SLOTS];
    settled(asked, &mut slots, start)
}

fn by_slots<'a>(asked: &Asked<'a>, start: usize) -> Held<'a>
    requires kept { IsKept asked.now.buckets.now }
    requires there { start < length asked.now.buckets.now }
    ensures { IfSome (slice_get asked.now.buckets.now start) (λ bucket.
        IsHeld asked.now.buckets.now (answer_to asked.now bucket.name) result) }
{
    let mut slots = [Slot::empty(); MOST_SLOTS];
    settled(asked, &mut slots, start)
}

/// The answer that was found, by value. Takes no memory.
pub fn describe(database: &Database, found: Found) -> Answer
    requires { IsSome (outcome_at database.now found) }
    ensures { IfSome (outcome_at database.now found) (λ outcome. result ≡ answer_of outcome) }
{
    lend(database, found).to_answer()
}
