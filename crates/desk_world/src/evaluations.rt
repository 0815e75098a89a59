// What the policies of a state answer, and what a worker makes of it.
ghost use Rattle.std.specs.Prelude.{◌≡◌, ◌<◌, ◌∷◌, true, length, slice_get, Some, None, IfSome, MatchOption};
ghost use Rattle.bucket_store.specs.Database.{root, has_bucket};
ghost use Rattle.bucket_eval.specs.Found.{answer_of};
ghost use Rattle.desk_world.specs.World.{desk_at, root_outcome};
ghost use Rattle.desk_world.specs.Links.{is_nothing, reading_of};

use crate::links::Reading;
use crate::replies::Reply;
use crate::states::State;
use bucket_eval::{Answer, Verdict, describe, plain};
use bucket_store::Database;
use cynara_keys::{BucketName, Question};
use desk_state::Desk;
use std::alloc::Global;

/// Nested evaluation from the root bucket.
pub fn root_answer(alloc: Global, desk: &Desk, question: &Question) -> Answer
    ensures { result ≡ answer_of (root_outcome desk.now question.now) }
{
    let database = desk.database();
    let root = root_place(alloc, database);
    let found = plain(database, root, question, true);
    describe(database, found)
}

// Where the root bucket stands.
fn root_place(alloc: Global, database: &Database) -> usize
    requires { has_bucket root database.now ≡ true }
    ensures in_range { result < length database.now.buckets }
    ensures root { IfSome (slice_get database.now.buckets result) (λ heading. heading.name ≡ root) }
{
    let name = BucketName::root(alloc);
    match database.place(&name) {
        Some(place) => place,
        None => unreachable!(),
    }
}

/// What is read at a state: a verdict, or that an agent decides.
pub fn reading_at(
    alloc: Global,
    desk: &Desk,
    question: &Question,
    commit: u64,
    simple: bool,
) -> Reading
    ensures { result ≡ reading_of commit simple (root_outcome desk.now question.now) }
{
    let answer = root_answer(alloc, desk, question);
    let kind = answer.kind;
    if !kind.is_agent() {
        return Reading::Ready(Reply::Judged(Verdict { commit, answer }));
    }
    if simple {
        return Reading::Ready(Reply::NotResolved { commit, kind });
    }
    Reading::Due {
        commit,
        kind,
        metadata: answer.metadata,
    }
}

/// Whether nothing was read.
pub fn is_nothing(reading: &Reading) -> bool
    ensures { result ≡ is_nothing reading.now }
{
    matches!(reading, Reading::Nothing)
}

/// The committed state with this number.
pub fn state_at<'a>(first: &'a State, later: &'a [State], commit: u64) -> Option<&'a State>
    ensures { MatchOption result (desk_at commit (first.now ∷ later.now) ≡ None)
        (λ state. desk_at commit (first.now ∷ later.now) ≡ Some state.now) }
{
    if first.desk().commit() == commit {
        return Some(first);
    }
    for state in later {
        if state.desk().commit() == commit {
            return Some(state);
        }
    }
    None
}
