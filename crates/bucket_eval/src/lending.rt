ghost use Rattle.std.specs.Prelude.{◌≡◌, IsSome, Some};
ghost use Rattle.std.specs.Option.{option_map};
ghost use Rattle.bucket_eval.specs.Found.{outcome_at, answer_of, row_of};
ghost use Rattle.bucket_eval.specs.Lent.{outcome_lent};

use crate::answers::{Answer, Cause, Found, Row};
use crate::slots::policy_at;
use bucket_store::Database;
use cynara_keys::{BucketName, Key, PolicyResult, Short};

/// An answer whose texts stand where they were found: the result, the bucket that holds it, and the key of its policy
/// there, or none for the bucket's fallback.
#[derive(Clone, Copy)]
pub struct BorrowedAnswer<'a> {
    pub result: &'a PolicyResult,
    pub bucket: &'a BucketName,
    pub key: Option<&'a Key>,
}

impl<'a> BorrowedAnswer<'a> {
    /// The same answer, by value. Takes no memory.
    pub fn to_answer(&self) -> Answer
        ensures { result ≡ answer_of (outcome_lent self.now) }
    {
        Answer {
            kind: self.result.kind(),
            metadata: Short::of(self.result.metadata().as_slice()),
            cause: Cause {
                bucket: Short::of(self.bucket.as_slice()),
                row: row_lent(self.key),
            },
        }
    }
}

// The texts of the key, if there is one.
fn row_lent(key: Option<&Key>) -> Option<Row>
    ensures { result ≡ option_map (λ key. row_of key.now) key.entry }
{
    match key {
        Some(key) => Some(row_of(key)),
        None => None,
    }
}

fn row_of(key: &Key) -> Row
    ensures { result ≡ row_of key.now }
{
    Row {
        client: Short::of(key.client()),
        user: Short::of(key.user()),
        privilege: Short::of(key.privilege()),
    }
}

/// The answer that was found, with its texts lent by the database. Takes no memory.
pub fn lend(database: &Database, found: Found) -> BorrowedAnswer<'_>
    requires { IsSome (outcome_at database.now found) }
    ensures { outcome_at database.now found ≡ Some (outcome_lent result) }
{
    let bucket = &database.buckets()[found.bucket];
    match found.policy {
        Some(place) => {
            let policy = policy_at(bucket, place);
            BorrowedAnswer {
                result: &policy.result,
                bucket: bucket.name(),
                key: Some(&policy.key),
            }
        }
        None => BorrowedAnswer {
            result: bucket.fallback(),
            bucket: bucket.name(),
            key: None,
        },
    }
}
