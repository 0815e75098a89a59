// The places of a bucket's policies that a question can match, as far as halving tells.
ghost use Rattle.std.specs.Prelude.{◌≡◌, ◌≤◌, ℕ, true, false, not, length};
ghost use Rattle.std.specs.List.{position};
ghost use Rattle.std.specs.List.Sorted.{IsStrictlySortedBy, IsPartitionPoint};
ghost use Rattle.bucket_store.specs.Order.{policy_cmp};
ghost use Rattle.bucket_eval.specs.parts.Windows as windows;
ghost use Rattle.bucket_eval.specs.parts.Windows.{FailsOutside, Covers};

use cynara_keys::{BorrowedQuestion, Policy};

/// The places from `start` on, and before `end`.
#[derive(Clone, Copy)]
pub struct Window {
    pub start: usize,
    pub end: usize,
}

/// A window outside of which no policy matches the question: from the first policy of its client or of any client to
/// the last, or longer where these are not few. Of few policies it is all.
pub fn window_of(policies: &[Policy], question: &BorrowedQuestion<'_>, few: usize) -> Window
    requires { IsStrictlySortedBy policy_cmp policies.now }
    ensures order { result.start ≤ result.end }
    ensures within { result.end ≤ length policies.now }
    ensures outside { FailsOutside (windows.matches question.now) result policies.now }
{
    if policies.len() <= few {
        return Window {
            start: 0,
            end: policies.len(),
        };
    }
    let own = window_of_client(policies, question.client(), few);
    let any = window_of_client(policies, b"*", few);
    covering(own, any)
}

// The policies of this client, or all from the first of them on, where they are not few.
fn window_of_client(policies: &[Policy], client: &[u8], few: usize) -> Window
    requires { IsStrictlySortedBy policy_cmp policies.now }
    ensures order { result.start ≤ result.end }
    ensures within { result.end ≤ length policies.now }
    ensures outside { FailsOutside (windows.has_client client.now) result policies.now }
{
    let start = count_before(policies, client);
    let behind = &policies[start..];
    let near = &behind[..behind.len().min(few)];
    match first_of_another(near, client) {
        Some(count) => Window {
            start,
            end: start + count,
        },
        None => Window {
            start,
            end: policies.len(),
        },
    }
}

// The place of the first policy of another client.
fn first_of_another(policies: &[Policy], client: &[u8]) -> Option<usize>
    ensures { result ≡ position (λ policy. not (windows.has_client client.now policy)) policies.now }
{
    policies
        .iter()
        .position(|policy| policy.key.client() != client)
}

// The smallest window that covers both.
fn covering(one: Window, other: Window) -> Window
    requires one { one.start ≤ one.end }
    requires other { other.start ≤ other.end }
    ensures order { result.start ≤ result.end }
    ensures end { (most : ℕ) → one.end ≤ most → other.end ≤ most → result.end ≤ most }
    ensures covers { Covers result one other }
{
    if one.start == one.end {
        return other;
    }
    if other.start == other.end {
        return one;
    }
    Window {
        start: if one.start < other.start {
            one.start
        } else {
            other.start
        },
        end: if one.end < other.end {
            other.end
        } else {
            one.end
        },
    }
}

// How many policies are of clients before this one. Often none is, which the first tells.
fn count_before(policies: &[Policy], client: &[u8]) -> usize
    requires { IsStrictlySortedBy policy_cmp policies.now }
    ensures within { result ≤ length policies.now }
    ensures parted { IsPartitionPoint (λ policy. windows.comes_before client.now policy ≡ true)
        (λ policy. windows.comes_before client.now policy ≡ false) policies.now result }
{
    match policies.first() {
        Some(first) if comes_before(first, client) => {
            policies.partition_point(|policy| comes_before(policy, client))
        }
        _ => 0,
    }
}

fn comes_before(policy: &Policy, client: &[u8]) -> bool
    ensures { result ≡ windows.comes_before client.now policy.now }
{
    client.cmp(policy.key.client()).is_gt()
}
