//! The file of a bucket: a line for each of its policies.

ghost use Rattle.std.specs.Prelude.{◌≡◌, ◌++◌, ◌∷◌, [], ◌+◌, ◌≤◌, ◌<◌, length, Ok, IsTrue, Some, None, if◌then◌else◌};
ghost use Rattle.std.specs.Prelude.{IfOk, OnOk, MatchResult};
ghost use Rattle.std.specs.List.{AllByRecursion};
ghost use Rattle.std.specs.List.Sorted.{IsStrictlySortedBy};
ghost use Rattle.bucket_store.specs.Order.{heading_cmp, policy_cmp};
ghost use Rattle.bucket_store.specs.Refusal.{most_policies};
ghost use Rattle.set_text.specs.Buckets as word;
ghost use Rattle.set_text.specs.IsSpelt.{IsPolicy};
ghost use Rattle.set_text.specs.Lines.{rises_above};
ghost use Rattle.set_text.specs.parts.Reads.{ReadsLine, RefusesFile};

use crate::headings::{BucketHeading, has_heading};
use crate::lines::{FileFault, LineFault, cut_field};
use crate::results::{append_ruling, ruling_of};
use bucket_store::MOST_POLICIES;
use cynara_keys::{Key, Kind, Policy, field_fault};
use std::alloc::{AllocError, Global};
use text_lines::split_at_newline;

/// The text of the file of a bucket with these policies.
pub fn bucket_text(alloc: Global, policies: &[Policy]) -> Result<Vec<u8>, AllocError>
    ensures text { IfOk result (λ text. text.items ≡ word.bucket_text policies.now) }
    ensures spelt { OnOk result (AllByRecursion IsPolicy policies.now) }
{
    let mut text = Vec::new(alloc);
    for policy in policies {
        append_policy(policy, &mut text)?;
    }
    Ok(text)
}

fn append_policy(policy: &Policy, text: &mut Vec<u8>) -> Result<(), AllocError>
    ensures text { OnOk result (text.new.items ≡ text.old.items ++ (word.policy_line policy.now ++ 10 ∷ [])) }
    ensures spelt { OnOk result (IsPolicy policy.now) }
{
    append_field(policy.key.client(), text)?;
    append_field(policy.key.user(), text)?;
    append_field(policy.key.privilege(), text)?;
    append_ruling(&policy.result, text)
}

fn append_field(field: &[u8], text: &mut Vec<u8>) -> Result<(), AllocError>
    ensures { OnOk result (text.new.items ≡ text.old.items ++ (field.now ++ 59 ∷ [])) }
{
    text.extend_from_slice(field)?;
    text.push(b';')?;
    Ok(())
}

/// Reads the file of a bucket, of a database with these buckets and with so many policies in the files before it. Its
/// first wrong line is named.
pub fn read_policies(
    alloc: Global,
    headings: &[BucketHeading],
    earlier: usize,
    text: &[u8],
) -> Result<Vec<Policy>, FileFault>
    requires rising { IsStrictlySortedBy heading_cmp headings.now }
    requires count { earlier ≤ most_policies }
    ensures read { MatchResult result (λ policies. word.policies_of headings.now earlier text.now ≡ Ok policies.items)
        (λ fault. RefusesFile fault (word.policies_of headings.now earlier text.now)) }
    ensures room { IfOk result (λ policies. earlier + length policies.items ≤ most_policies) }
{
    let mut policies = Vec::new(alloc);
    let mut rest = text;
    let mut number = 1u32;
    while !rest.is_empty() {
        let Some((line, after)) = split_at_newline(rest) else {
            return Err(FileFault::Line(number));
        };
        let policy = match read_policy(alloc, headings, earlier, &policies, line) {
            Ok(policy) => policy,
            Err(fault) => return Err(fault.at(number)),
        };
        if let Err(error) = policies.push(policy) {
            return Err(FileFault::Memory(error.into()));
        }
        number += 1;
        rest = after;
    }
    Ok(policies)
}

// Reads a line of the file of a bucket, behind these.
fn read_policy(
    alloc: Global,
    headings: &[BucketHeading],
    earlier: usize,
    before: &[Policy],
    line: &[u8],
) -> Result<Policy, LineFault>
    requires rising { IsStrictlySortedBy heading_cmp headings.now }
    requires count { earlier + length before.now ≤ most_policies }
    ensures read { ReadsLine result (word.read_policy headings.now earlier before.now line.now) }
    ensures room { OnOk result (earlier + length before.now < most_policies) }
{
    match policy_of(alloc, line) {
        Ok(policy) => {
            if policy_fits(headings, earlier, before, &policy) {
                Ok(policy)
            } else {
                Err(LineFault::Wrong)
            }
        }
        Err(fault) => Err(fault),
    }
}

// The policy in a line.
fn policy_of(alloc: Global, line: &[u8]) -> Result<Policy, LineFault>
    ensures { ReadsLine result (word.policy_of line.now) }
{
    let Some((client, rest)) = cut_field(line) else {
        return Err(LineFault::Wrong);
    };
    let Some((user, rest)) = cut_field(rest) else {
        return Err(LineFault::Wrong);
    };
    let Some((privilege, rest)) = cut_field(rest) else {
        return Err(LineFault::Wrong);
    };
    let Some((kind, metadata)) = cut_field(rest) else {
        return Err(LineFault::Wrong);
    };
    if let Some(_) = cut_field(metadata) {
        return Err(LineFault::Wrong);
    }
    let key = match key_of(alloc, client, user, privilege) {
        Ok(key) => key,
        Err(fault) => return Err(fault),
    };
    match ruling_of(alloc, kind, metadata) {
        Ok(ruling) => Ok(Policy {
            key,
            result: ruling,
        }),
        Err(fault) => Err(fault),
    }
}

fn key_of(alloc: Global, client: &[u8], user: &[u8], privilege: &[u8]) -> Result<Key, LineFault>
    ensures { ReadsLine result (word.key_in client.now user.now privilege.now) }
{
    if is_field(client) && is_field(user) && is_field(privilege) {
        return Key::of(alloc, client, user, privilege).map_err(LineFault::Memory);
    }
    Err(LineFault::Wrong)
}

fn is_field(text: &[u8]) -> bool
    ensures { result ≡ word.is_field text.now }
{
    field_fault(text).is_none()
}

// Whether a policy may stand behind these.
fn policy_fits(
    headings: &[BucketHeading],
    earlier: usize,
    before: &[Policy],
    policy: &Policy,
) -> bool
    requires rising { IsStrictlySortedBy heading_cmp headings.now }
    requires count { earlier + length before.now ≤ most_policies }
    ensures fits { result ≡ word.policy_fits headings.now earlier before.now policy.now }
    ensures room { IsTrue result → earlier + length before.now < most_policies }
{
    rises(before, policy) && has_target(headings, policy) && earlier + before.len() < MOST_POLICIES
}

fn rises(before: &[Policy], policy: &Policy) -> bool
    ensures { result ≡ rises_above policy_cmp before.now policy.now }
{
    match before.last() {
        Some(last) => last.key.cmp(&policy.key).is_lt(),
        None => true,
    }
}

// Whether the bucket is there that the policy points to, if it points to one.
fn has_target(headings: &[BucketHeading], policy: &Policy) -> bool
    requires { IsStrictlySortedBy heading_cmp headings.now }
    ensures { result ≡ word.has_target headings.now policy.now }
{
    policy.result.kind() != Kind::BUCKET
        || has_heading(headings, policy.result.metadata().as_slice())
}
