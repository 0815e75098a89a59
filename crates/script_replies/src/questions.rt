// The answers to commands and to questions at a policy state.
ghost use Rattle.std.specs.Prelude.{◌≡◌, ◌<◌, ◌≤◌, ◌++◌, true, length, slice_get, List, ℕ, IfSome, IsSome, Some, None};
ghost use Rattle.std.specs.Prelude.{OnOk, OnErr};
ghost use Rattle.std.specs.List.{flat_map, position};
ghost use Rattle.cynara_keys.specs.Text.{same_text};
ghost use Rattle.bucket_store.specs.Database.{root};
ghost use Rattle.bucket_store.specs.Change.{listed};
ghost use Rattle.bucket_eval.specs.Evaluation.{answer};
ghost use Rattle.bucket_eval.specs.Found.{outcome_at};
ghost use Rattle.bucket_eval.specs.Lent.{outcome_lent};
ghost use Rattle.line_answers.specs.Answers.{refusal_text};
ghost use Rattle.line_answers.specs.Refusals.{names_a_rule};
ghost use Rattle.line_answers.specs.parts.Appending.{Lengthens};
ghost use Rattle.desk_state.specs.IsDesk.{IsDesk};
ghost use Rattle.desk_state.specs.declared.refusals.Refusal.TheVariants.{NoBucket};
ghost use Rattle.script_replies.specs.Reply.{about, verdict_text, policy_text, list_text, done_text};
ghost use Rattle.script_replies.specs.parts.Questions.{WantsMemory};

use bucket_eval::{BorrowedAnswer, Found, lend, plain_borrowed};
use bucket_store::{Database, StoreRefusal};
use cynara_keys::{BorrowedQuestion, BucketName, Filter, Key, Policy, PolicyResult};
use desk_ports::Bytes;
use desk_state::{Command, Desk, Refusal};
use line_answers::{LineAnswer, RuleBroken, print};
use std::alloc::AllocError;

/// Prints the verdict of a bucket on a question, or that the bucket is not there.
pub fn print_from(
    desk: &Desk,
    bucket: &BucketName,
    deep: bool,
    question: &BorrowedQuestion<'_>,
    out: &mut Bytes,
) -> Result<(), AllocError>
    ensures ok { OnOk result (out.new ≡ out.old ++ about desk.now.database bucket.now
        (verdict_text desk.now.commit (answer desk.now.database bucket.now question.now deep))) }
    ensures err { OnErr result (out.new ≡ out.old) }
    ensures desk { IsDesk desk.now }
{
    let database = desk.database();
    match place_of(database, bucket) {
        Some(place) => {
            let found = plain_borrowed(database, place, question, deep);
            print_found(desk.commit(), database, found, out)
        }
        None => print_absent(bucket, out),
    }
}

// Where the bucket of this name stands, from 0. Most questions are for the root, which is the first: a look tells.
fn place_of(database: &Database, name: &BucketName) -> Option<usize>
    ensures { result ≡ position (λ heading. same_text heading.name name.now) database.now.buckets }
{
    match database.buckets().first() {
        Some(first) if first.name().as_slice() == name.as_slice() => Some(0),
        _ => database.place(name),
    }
}

/// Prints the policies of a bucket that a filter admits, a row each, and how many they are; or that the bucket is not
/// there.
pub fn print_list(
    desk: &Desk,
    bucket: &BucketName,
    filter: &Filter,
    out: &mut Bytes,
) -> Result<(), AllocError>
    ensures ok { OnOk result (out.new ≡ out.old ++ about desk.now.database bucket.now
        (list_text (listed bucket.now filter.now desk.now.database))) }
    ensures err { OnErr result (out.new ≡ out.old) }
{
    let database = desk.database();
    match database.place(bucket) {
        Some(_) => match database.list(bucket, filter) {
            Ok(policies) => print_rows(&policies, out),
            Err(refusal) => Err(want_of_memory(refusal)),
        },
        None => print_absent(bucket, out),
    }
}

// The want of memory that a refusal is.
fn want_of_memory(refusal: StoreRefusal) -> AllocError
    requires { WantsMemory refusal }
{
    match refusal {
        StoreRefusal::Memory(error) => error,
        _ => unreachable!(),
    }
}

// Prints the outcome that was found, from where it stands.
fn print_found(
    commit: u64,
    database: &Database,
    found: Found,
    out: &mut Bytes,
) -> Result<(), AllocError>
    requires { IsSome (outcome_at database.now found) }
    ensures ok { OnOk result (IfSome (outcome_at database.now found)
        (λ outcome. out.new ≡ out.old ++ verdict_text commit outcome)) }
    ensures err { OnErr result (out.new ≡ out.old) }
{
    print_verdict(commit, &lend(database, found), out)
}

/// Prints a verdict whose texts are lent.
pub fn print_verdict(
    commit: u64,
    answer: &BorrowedAnswer<'_>,
    out: &mut Bytes,
) -> Result<(), AllocError>
    ensures ok { OnOk result (out.new ≡ out.old ++ verdict_text commit (outcome_lent answer.now)) }
    ensures err { OnErr result (out.new ≡ out.old) }
{
    match answer.key {
        Some(key) => print_decided(commit, answer.bucket, answer.result, key, out),
        None => print_fallback(commit, answer.bucket, answer.result, out),
    }
}

// Prints that the policy of the bucket with this key decided.
fn print_decided(
    commit: u64,
    bucket: &BucketName,
    decided: &PolicyResult,
    key: &Key,
    out: &mut Bytes,
) -> Result<(), AllocError>
    ensures ok { OnOk result (out.new ≡ out.old ++ verdict_text commit (record {
      result = decided.now;
      cause = record { bucket = bucket.now; key = Some key.now };
    })) }
    ensures err { OnErr result (out.new ≡ out.old) }
{
    let answer = LineAnswer::ByPolicy {
        commit,
        bucket: bucket.as_slice(),
        kind: decided.kind(),
        metadata: decided.metadata().as_slice(),
        client: key.client(),
        user: key.user(),
        privilege: key.privilege(),
    };
    print(&answer, out)
}

// Prints that the bucket's fallback decided.
fn print_fallback(
    commit: u64,
    bucket: &BucketName,
    decided: &PolicyResult,
    out: &mut Bytes,
) -> Result<(), AllocError>
    ensures ok { OnOk result (out.new ≡ out.old ++ verdict_text commit (record {
      result = decided.now;
      cause = record { bucket = bucket.now; key = None };
    })) }
    ensures err { OnErr result (out.new ≡ out.old) }
{
    let answer = LineAnswer::ByFallback {
        commit,
        bucket: bucket.as_slice(),
        kind: decided.kind(),
        metadata: decided.metadata().as_slice(),
    };
    print(&answer, out)
}

// Prints a policy as a row of a list.
fn print_row(policy: &Policy, out: &mut Bytes) -> Result<(), AllocError>
    ensures ok { OnOk result (out.new ≡ out.old ++ policy_text policy.now) }
    ensures err { OnErr result (out.new ≡ out.old) }
{
    let answer = LineAnswer::Row {
        client: policy.key.client(),
        user: policy.key.user(),
        privilege: policy.key.privilege(),
        kind: policy.result.kind(),
        metadata: policy.result.metadata().as_slice(),
    };
    print(&answer, out)
}

// Prints the policies, a row each, and how many they are.
fn print_rows(policies: &[Policy], out: &mut Bytes) -> Result<(), AllocError>
    requires { length policies.now ≤ 65536 }
    ensures ok { OnOk result (out.new ≡ out.old ++ list_text policies.now) }
    ensures err { OnErr result (out.new ≡ out.old) }
{
    let start = out.len();
    let printed = append_rows(policies, out);
    if printed.is_err() {
        out.truncate(start);
    }
    printed
}

fn append_rows(policies: &[Policy], out: &mut Bytes) -> Result<(), AllocError>
    requires { length policies.now ≤ 65536 }
    ensures ok { OnOk result (out.new ≡ out.old ++ list_text policies.now) }
    ensures err { OnErr result (Lengthens out.old out.new) }
{
    for policy in policies {
        print_row(policy, out)?;
    }
    print(
        &LineAnswer::Rows {
            count: policies.len() as u32,
        },
        out,
    )
}

// Prints that a bucket is not there.
fn print_absent(bucket: &BucketName, out: &mut Bytes) -> Result<(), AllocError>
    ensures ok { OnOk result (out.new ≡ out.old ++ refusal_text (NoBucket bucket.now)) }
    ensures err { OnErr result (out.new ≡ out.old) }
{
    print_refusal(&Refusal::NoBucket(bucket.copy()?), out)
}

/// Prints the rule that a command breaks. Want of memory is none.
pub fn print_refusal(refusal: &Refusal, out: &mut Bytes) -> Result<(), AllocError>
    ensures ok { OnOk result (out.new ≡ out.old ++ refusal_text refusal.now) }
    ensures rule { OnOk result (names_a_rule refusal.now ≡ true) }
    ensures err { OnErr result (out.new ≡ out.old) }
{
    let broken = RuleBroken::of(refusal)?;
    print(&LineAnswer::Refused(broken), out)
}

/// Prints what an accepted command is answered, with the commit number that it leaves and the policies that it erased.
pub fn print_done(
    command: &Command,
    commit: u64,
    erased: u32,
    out: &mut Bytes,
) -> Result<(), AllocError>
    ensures ok { OnOk result (out.new ≡ out.old ++ done_text command.now commit erased) }
    ensures err { OnErr result (out.new ≡ out.old) }
{
    match command {
        Command::Erase { .. } => print(
            &LineAnswer::Erased {
                commit,
                count: erased,
            },
            out,
        ),
        _ => print(&LineAnswer::Accepted { commit }, out),
    }
}
