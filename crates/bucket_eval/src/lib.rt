//! What a bucket answers to a question: which of its policies decides, and what the buckets below contribute that its
//! policies point to.
//!
//! That the least result of the matching policies decides is Cynara's rule. That NONE is left out, that equal results
//! are ordered by their keys, and how buckets are nested, is this project's profile.
#![tactic(auto)]

ghost use Rattle.std.specs.Prelude.{◌≡◌, ◌≢◌, ℕ, ◌<◌, length, None, slice_get, IfSome, IfNone, MatchOption};
ghost use Rattle.std.specs.List.{All};
ghost use Rattle.std.specs.Ordering.{is_gt};
ghost use Rattle.cynara_keys.specs.PolicyResult.{bucket};
ghost use Rattle.bucket_eval.specs.Least.{counts, decision_cmp, least_policy, DecidesAmong, NoneCounts};

mod answers;
mod deciding;
mod evaluations;
mod indexes;
mod laws;
mod lending;
mod names;
mod nested;
mod numbers;
mod settling;
mod shapes;
mod shared_sheets;
mod sheets;
mod slots;
mod stays;
mod windows;

pub use answers::{Answer, Cause, Found, Row, Verdict};
use cynara_keys::{Kind, Policy, Question};
pub use evaluations::{describe, plain, plain_borrowed};
pub use indexes::{Index, Scratch};
pub use laws::{depth_changes_nothing, no_cycle};
pub use lending::{BorrowedAnswer, lend};

/// The place of the policy that decides the question, from 0: the least by result (kind, then metadata) and then by key
/// of the policies that match the question and whose result isn't NONE, and the first of equal ones. `None` where there
/// is none. No result may be BUCKET, since what it points to isn't here. Takes no memory, and one pass: three fields
/// are compared for each policy, and results for each that has a say. That the least result decides is Cynara's.
pub fn least(policies: &[Policy], question: &Question) -> Option<usize>
    requires { All (λ policy. policy.result.kind ≢ bucket) policies.now }
    ensures decides { MatchOption result (least_policy question.now policies.now ≡ None)
        (λ place. slice_get policies.now place ≡ least_policy question.now policies.now) }
    ensures least { IfSome result
        (λ place. IfSome (slice_get policies.now place) (DecidesAmong question.now policies.now)) }
    ensures none { IfNone result (NoneCounts question.now policies.now) }
    ensures in_range { IfSome result (λ place. place < length policies.now) }
    ensures first { IfSome result
        (λ place. (k : ℕ) → k < place → slice_get policies.now k ≢ least_policy question.now policies.now) }
{
    let mut best: Option<usize> = None;
    for place in (0..policies.len()).rev() {
        let policy = &policies[place];
        if counts(policy, question) {
            best = match best {
                Some(other) if is_after(policy, &policies[other]) => Some(other),
                _ => Some(place),
            };
        }
    }
    best
}

// Whether a policy has a say in the answer.
fn counts(policy: &Policy, question: &Question) -> bool
    ensures { result ≡ counts question.now policy.now }
{
    policy.result.kind() != Kind::NONE && policy.key.matches(question)
}

// Whether the other policy decides before this one.
fn is_after(policy: &Policy, other: &Policy) -> bool
    ensures { result ≡ is_gt (decision_cmp policy.now other.now) }
{
    policy
        .result
        .cmp(&other.result)
        .then_with(|| policy.key.cmp(&other.key))
        .is_gt()
}
