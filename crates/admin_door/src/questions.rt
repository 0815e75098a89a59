// What an administrator asks, answered at a policy state.
ghost use Rattle.std.specs.Prelude.{◌≡◌, ◌≤◌, ◌++◌, ◌∷◌, [], length, map, IsSome, IfSome, MatchResult};
ghost use Rattle.bucket_eval.specs.Found.{outcome_at, answer_of};
ghost use Rattle.desk_state.specs.declared.refusals.Refusal.TheVariants.{NoBucket};
ghost use Rattle.wire_fields.specs.declared.messages.Message.TheVariants.{Refused, ListRow, ListEnd, Judged};
ghost use Rattle.door_frames.specs.declared.endings.Ended.TheVariants.{Memory};
ghost use Rattle.admin_door.specs.Reply.{list_replies, check_replies};

use bucket_eval::{Found, Verdict, describe, plain};
use bucket_store::Database;
use cynara_keys::{BucketName, Filter, Policy, Question};
use desk_state::{Desk, Refusal};
use door_frames::Ended;
use std::alloc::Global;
use wire_messages::{Message, PackedVerdict};

/// The policies of a bucket that a filter admits, a row each, and how many there are; or that the bucket is not there.
pub(crate) fn list_replies(
    alloc: Global,
    desk: &Desk,
    bucket: &BucketName,
    filter: &Filter,
) -> Result<Vec<Message>, Ended>
    ensures { MatchResult result (λ replies. replies.items ≡ list_replies desk.now bucket.now filter.now)
        (λ ended. ended ≡ Memory) }
{
    let database = desk.database();
    match database.place(bucket) {
        Some(_) => match database.list(bucket, filter) {
            Ok(policies) => rows(alloc, policies),
            Err(_) => Err(Ended::Memory),
        },
        None => no_bucket(alloc, bucket),
    }
}

// The policies, a row each, and how many they are.
fn rows(alloc: Global, policies: Vec<Policy>) -> Result<Vec<Message>, Ended>
    requires { length policies.items ≤ 65536 }
    ensures { MatchResult result
        (λ replies. replies.items ≡ map ListRow policies.items ++ ListEnd (length policies.items) ∷ [])
        (λ ended. ended ≡ Memory) }
{
    let count = policies.len() as u32;
    let Ok(room) = Vec::with_capacity(alloc, policies.len() + 1) else {
        return Err(Ended::Memory);
    };
    let mut replies = room;
    for policy in policies {
        match with_one(replies, Message::ListRow { policy }) {
            Ok(more) => replies = more,
            Err(ended) => return Err(ended),
        }
    }
    with_one(replies, Message::ListEnd { count })
}

/// What a bucket answers to a question; or that the bucket is not there.
pub(crate) fn check_replies(
    alloc: Global,
    desk: &Desk,
    bucket: &BucketName,
    recursive: bool,
    question: &Question,
) -> Result<Vec<Message>, Ended>
    ensures { MatchResult result (λ replies. replies.items ≡ check_replies desk.now bucket.now recursive question.now)
        (λ ended. ended ≡ Memory) }
{
    let database = desk.database();
    match database.place(bucket) {
        Some(start) => {
            let found = plain(database, start, question, recursive);
            judged(alloc, desk.commit(), database, found)
        }
        None => no_bucket(alloc, bucket),
    }
}

// The answer that was found, with the commit of the state.
fn judged(
    alloc: Global,
    commit: u64,
    database: &Database,
    found: Found,
) -> Result<Vec<Message>, Ended>
    requires { IsSome (outcome_at database.now found) }
    ensures { MatchResult result
        (λ replies. IfSome (outcome_at database.now found)
        (λ outcome. replies.items ≡ Judged (record { commit = commit; answer = answer_of outcome }) ∷ []))
        (λ ended. ended ≡ Memory) }
{
    let verdict = Verdict {
        commit,
        answer: describe(database, found),
    };
    match PackedVerdict::pack(alloc, &verdict) {
        Ok(verdict) => one(alloc, Message::Judged { verdict }),
        Err(_) => Err(Ended::Memory),
    }
}

// The reply that a bucket is not there.
fn no_bucket(alloc: Global, bucket: &BucketName) -> Result<Vec<Message>, Ended>
    ensures { MatchResult result (λ replies. replies.items ≡ Refused (NoBucket bucket.now) ∷ [])
        (λ ended. ended ≡ Memory) }
{
    match bucket.copy() {
        Ok(name) => {
            let refusal = Refusal::NoBucket(name);
            one(alloc, Message::Refused { refusal })
        }
        Err(_) => Err(Ended::Memory),
    }
}

/// One reply.
pub(crate) fn one(alloc: Global, message: Message) -> Result<Vec<Message>, Ended>
    ensures { MatchResult result (λ replies. replies.items ≡ message ∷ []) (λ ended. ended ≡ Memory) }
{
    with_one(Vec::new(alloc), message)
}

// The list with one more behind it.
// proof: by value and of any type, so that the variants of a message are not gone through.
pub(crate) fn with_one<T: Drop>(list: Vec<T>, last: T) -> Result<Vec<T>, Ended>
    ensures { MatchResult result (λ longer. longer.items ≡ list.items ++ last ∷ []) (λ ended. ended ≡ Memory) }
{
    let mut list = list;
    match list.push(last) {
        Ok(()) => Ok(list),
        Err(_) => Err(Ended::Memory),
    }
}
