//! The database of the policies that concern one question, and what it answers.

ghost use Rattle.std.specs.Prelude.{◌≡◌, ◌==◌, ◌≤◌, ◌++◌, ◌∷◌, [], true};
ghost use Rattle.std.specs.Prelude.{length, map, position, slice_get, Some, IfOk, OnOk};
ghost use Rattle.std.specs.Option.{option_to_list};
ghost use Rattle.std.specs.List.{list_any};
ghost use Rattle.cynara_keys.specs.PolicyResult.{allow};
ghost use Rattle.cynara_keys.specs.Text.{same_text};
ghost use Rattle.bucket_store.specs.Database.{database_of, root};
ghost use Rattle.bucket_store.specs.WellFormed.{IsKept};
ghost use Rattle.bucket_store.specs.parts.Rows.{at_places};
ghost use Rattle.bucket_eval.specs.Evaluation.{answer};
ghost use Rattle.lane_scan.specs.Asked.{covers};
ghost use Rattle.lane_scan.specs.Rows.{numbers_of};
ghost use Rattle.effective_audit.specs.Audit.{allows};
ghost use Rattle.effective_audit.specs.parts.Narrowing.{chosen, narrow_of};

use crate::narrowing::Narrow;
use crate::numbers::place_number;
use bucket_eval::plain_borrowed;
use bucket_store::{Bucket, Database};
use cynara_keys::{BorrowedQuestion, BucketName, Kind, Name, Policy};
use std::alloc::{AllocError, Global};

/// Whether the buckets, which are narrowed for the application and the user, allow the privilege.
pub(crate) fn is_allowed(
    alloc: Global,
    buckets: &[Bucket],
    narrow: &[Narrow<'_>],
    client: &Name,
    user: &Name,
    privileges: &[Name],
    privilege: &Name,
) -> Result<bool, AllocError>
    requires few { length privileges.now ≤ 65536 }
    requires kept { IsKept buckets.now }
    requires narrow { narrow.now ≡ map (narrow_of privileges.now client.now user.now) buckets.now }
    requires known { list_any (same_text privilege.now) privileges.now ≡ true }
    ensures { IfOk result (λ allowed. allowed ≡ allows (database_of buckets.now) user.now client.now privilege.now) }
{
    let number = place_number(privileges, privilege.as_slice());
    let few = chosen_buckets(alloc, narrow, number)?;
    let question = BorrowedQuestion::of(client.as_slice(), user.as_slice(), privilege.as_slice());
    let database = Database::of(few);
    Ok(answers_allow(alloc, &database, &question))
}

/// Whether the root bucket answers ALLOW.
fn answers_allow(alloc: Global, database: &Database, question: &BorrowedQuestion<'_>) -> bool
    ensures { result ≡ ((answer database.now root question.now true).result.kind == allow) }
{
    let root = BucketName::root(alloc);
    let _buckets = database.buckets();
    let Some(start) = database.place(&root) else {
        unreachable!()
    };
    kind_at(database, start, question) == Kind::ALLOW
}

fn kind_at(database: &Database, start: usize, question: &BorrowedQuestion<'_>) -> Kind
    requires { position (λ heading. same_text heading.name root) database.now.buckets ≡ Some start }
    ensures { result.0 ≡ (answer database.now root question.now true).result.kind }
{
    plain_borrowed(database, start, question, true).kind
}

/// Each bucket with the policies whose rows speak of the privilege with this number.
fn chosen_buckets(
    alloc: Global,
    narrow: &[Narrow<'_>],
    number: u32,
) -> Result<Vec<Bucket>, AllocError>
    ensures { IfOk result (λ buckets. buckets.items ≡ map (chosen number) narrow.now) }
{
    let mut buckets = Vec::with_capacity(alloc, narrow.len())?;
    for one in narrow {
        buckets.push(chosen_bucket(alloc, one, number)?)?;
    }
    Ok(buckets)
}

fn chosen_bucket(alloc: Global, narrow: &Narrow<'_>, number: u32) -> Result<Bucket, AllocError>
    ensures { IfOk result (λ bucket. bucket ≡ chosen number narrow.now) }
{
    let mut places = Vec::new(alloc);
    narrow.columns.covers([1, 1, number], &mut places)?;
    let policies = policies_at(alloc, &narrow.policies, &places)?;
    let name = narrow.bucket.name().copy()?;
    let fallback = narrow.bucket.fallback().copy()?;
    Bucket::new(alloc, name, fallback, policies)
}

/// The policies at these places.
fn policies_at(
    alloc: Global,
    policies: &[Policy],
    places: &[u32],
) -> Result<Vec<Policy>, AllocError>
    ensures { IfOk result (λ copies. copies.items ≡ at_places policies.now places.now) }
{
    let mut copies = Vec::with_capacity(alloc, places.len())?;
    for place in places {
        push_at(&mut copies, policies, *place as usize)?;
    }
    Ok(copies)
}

/// Appends the policy at the place, where there is one.
#[tactic(auto, using(std::proofs::lemmas::Option::slice_get_past, std::proofs::lemmas::Option::slice_get_read))]
fn push_at(copies: &mut Vec<Policy>, policies: &[Policy], at: usize) -> Result<(), AllocError>
    ensures { OnOk result (copies.new.items ≡ copies.old.items ++ option_to_list (slice_get policies.now at)) }
{
    if at >= policies.len() {
        return Ok(());
    }
    push_copy(copies, &policies[at])
}

fn push_copy(copies: &mut Vec<Policy>, policy: &Policy) -> Result<(), AllocError>
    ensures { OnOk result (copies.new.items ≡ copies.old.items ++ policy.now ∷ []) }
{
    copies.push(policy.copy()?)?;
    Ok(())
}
