//! The tests of a whole state that is read: the layout, and what users and installs decide.

ghost use Rattle.std.specs.Prelude.{◌≡◌, ◌==◌, ◌&&◌, ◌∷◌, not, true, None, length, map, insert, slice_set, IfOk, OnOk};
ghost use Rattle.std.specs.Prelude.{MatchResult};
ghost use Rattle.std.specs.List.{AllByRecursion, list_all, list_any};
ghost use Rattle.std.specs.List.Sorted.{IsStrictlySortedBy, IsSearchInRange};
ghost use Rattle.cynara_keys.specs.BucketName.{is_bucket_name};
ghost use Rattle.cynara_keys.specs.Metadata.{metadata_fault};
ghost use Rattle.cynara_keys.specs.PolicyResult as kinds;
ghost use Rattle.cynara_keys.specs.declared.fields.Field.TheVariants.{Any};
ghost use Rattle.bucket_store.specs.Database.{database_of};
ghost use Rattle.bucket_store.specs.Order.{bucket_cmp, heading_cmp, policy_cmp};
ghost use Rattle.bucket_store.specs.WellFormed.{IsRooted};
ghost use Rattle.app_registry.specs.Rising.{placed, rising};
ghost use Rattle.desk_ports.specs.FileMap.{NamesRise, names_of};
ghost use Rattle.desk_state.specs.Layout as layout;
ghost use Rattle.set_text.specs.Buckets as word;
ghost use Rattle.set_text.specs.parts.Names.{RefusesTest};
ghost use Rattle.set_text.specs.parts.Parts.{has_all, has_name, has_some, is_empty, layout_fault_of, managed_fault_of};
ghost use Rattle.set_text.specs.parts.Parts.{fallback_fault_of};

use crate::file_names::BUCKETS;
use crate::headings::{BucketHeading, has_heading};
use crate::policies::bucket_text;
use crate::refusals::TextRefusal;
use crate::sets::{damaged, test_text};
use app_registry::{Registry, User, UserType, user_name};
use bucket_store::{Bucket, has_cycle};
use cynara_keys::{Field, Key, Kind, Metadata, MetadataRefusal, Policy, PolicyResult};
use desk_ports::SetFile;
use std::alloc::{AllocError, Global};

const MAIN: &[u8] = b"MAIN";

const MANIFESTS: &[u8] = b"MANIFESTS";

const ADMIN: &[u8] = b"ADMIN";

/// No bucket reaches itself, and the layout is there whole, or away with all users and installs.
pub fn test_layout(
    alloc: Global,
    headings: &[BucketHeading],
    buckets: &[Bucket],
    registry: &Registry,
) -> Result<(), TextRefusal>
    requires headings { IsStrictlySortedBy heading_cmp headings.now }
    requires buckets { IsStrictlySortedBy bucket_cmp buckets.now }
    requires rooted { AllByRecursion (IsRooted (database_of buckets.now)) (database_of buckets.now).policies }
    ensures { MatchResult result (λ done. layout_fault_of headings.now buckets.now registry.now ≡ None)
        (λ refusal. RefusesTest refusal (layout_fault_of headings.now buckets.now registry.now)) }
{
    match has_cycle(alloc, buckets) {
        Ok(true) => return Err(damaged(alloc, BUCKETS, 0)),
        Ok(false) => {}
        Err(error) => return Err(TextRefusal::Memory(error)),
    }
    if has_all(headings) || (!has_some(headings) && is_empty(registry)) {
        return Ok(());
    }
    Err(damaged(alloc, BUCKETS, 0))
}

fn type_bucket(kind: UserType) -> &'static [u8]
    ensures { result.now ≡ layout.type_bucket kind }
{
    match kind {
        UserType::System => b"USER_TYPE_SYSTEM",
        UserType::Admin => b"USER_TYPE_ADMIN",
        UserType::Normal => b"USER_TYPE_NORMAL",
        UserType::Guest => b"USER_TYPE_GUEST",
    }
}

// Whether all buckets of the layout are there.
fn has_all(headings: &[BucketHeading]) -> bool
    requires { IsStrictlySortedBy heading_cmp headings.now }
    ensures { result ≡ has_all headings.now }
{
    has_heading(headings, MAIN)
        && has_heading(headings, MANIFESTS)
        && has_heading(headings, ADMIN)
        && has_all_types(headings)
}

fn has_all_types(headings: &[BucketHeading]) -> bool
    requires { IsStrictlySortedBy heading_cmp headings.now }
    ensures { result ≡ list_all (has_name headings.now) layout.type_buckets }
{
    has_type(headings, UserType::System)
        && has_type(headings, UserType::Admin)
        && has_type(headings, UserType::Normal)
        && has_type(headings, UserType::Guest)
}

fn has_type(headings: &[BucketHeading], kind: UserType) -> bool
    requires { IsStrictlySortedBy heading_cmp headings.now }
    ensures { result ≡ has_name headings.now (layout.type_bucket kind) }
{
    has_heading(headings, type_bucket(kind))
}

// Whether one of them is there.
fn has_some(headings: &[BucketHeading]) -> bool
    requires { IsStrictlySortedBy heading_cmp headings.now }
    ensures { result ≡ has_some headings.now }
{
    has_heading(headings, MAIN)
        || has_heading(headings, MANIFESTS)
        || has_heading(headings, ADMIN)
        || has_some_type(headings)
}

fn has_some_type(headings: &[BucketHeading]) -> bool
    requires { IsStrictlySortedBy heading_cmp headings.now }
    ensures { result ≡ list_any (has_name headings.now) layout.type_buckets }
{
    has_type(headings, UserType::System)
        || has_type(headings, UserType::Admin)
        || has_type(headings, UserType::Normal)
        || has_type(headings, UserType::Guest)
}

fn is_empty(registry: &Registry) -> bool
    ensures { result ≡ is_empty registry.now }
{
    registry.users().is_empty() && registry.installs().is_empty()
}

/// With the layout, the policies of `MAIN` and `MANIFESTS` are what the registry gives.
pub fn test_managed(
    alloc: Global,
    files: &[SetFile],
    headings: &[BucketHeading],
    registry: &Registry,
) -> Result<(), TextRefusal>
    requires rising { NamesRise (names_of files.now) }
    requires headings { IsStrictlySortedBy heading_cmp headings.now }
    ensures { MatchResult result (λ done. managed_fault_of files.now headings.now registry.now ≡ None)
        (λ refusal. RefusesTest refusal (managed_fault_of files.now headings.now registry.now)) }
{
    if !has_heading(headings, MAIN) {
        return Ok(());
    }
    let main = match main_text(alloc, registry.users()) {
        Ok(text) => text,
        Err(error) => return Err(TextRefusal::Memory(error)),
    };
    if let Err(refusal) = test_text(alloc, files, b"_MAIN", &main) {
        return Err(refusal);
    }
    match manifests_text(alloc, registry) {
        Ok(text) => test_text(alloc, files, b"_MANIFESTS", &text),
        Err(error) => Err(TextRefusal::Memory(error)),
    }
}

// The text of the file of `MAIN`: each user goes to the bucket of the user's type, everyone else to the manifests.
fn main_text(alloc: Global, users: &[User]) -> Result<Vec<u8>, AllocError>
    ensures { IfOk result (λ text. text.items
        ≡ word.bucket_text (rising policy_cmp (layout.link Any layout.manifests ∷ map layout.user_link users.now))) }
{
    let mut policies = user_links(alloc, users)?;
    place(&mut policies, link(alloc, &Field::Any, MANIFESTS)?)?;
    bucket_text(alloc, &policies)
}

fn user_links(alloc: Global, users: &[User]) -> Result<Vec<Policy>, AllocError>
    ensures { IfOk result (λ policies. policies.items ≡ rising policy_cmp (map layout.user_link users.now)) }
{
    let mut policies = Vec::new(alloc);
    for user in users.iter().rev() {
        let link = user_link(alloc, user)?;
        place(&mut policies, link)?;
    }
    Ok(policies)
}

// Puts a policy where it belongs, in place of one with the same key.
fn place(policies: &mut Vec<Policy>, policy: Policy) -> Result<(), AllocError>
    requires { IsStrictlySortedBy policy_cmp policies.old.items }
    ensures { OnOk result (policies.new.items ≡ placed policy_cmp policy policies.old.items) }
{
    match place_of(policies, &policy) {
        Ok(at) => policies[at] = policy,
        Err(at) => policies.insert(at, policy)?,
    }
    Ok(())
}

fn place_of(policies: &[Policy], policy: &Policy) -> Result<usize, usize>
    requires { IsStrictlySortedBy policy_cmp policies.now }
    ensures in_range { IsSearchInRange result (length policies.now) }
    ensures placed { MatchResult result
        (λ at. slice_set policies.now at policy.now ≡ placed policy_cmp policy.now policies.now)
        (λ at. insert policies.now at policy.now ≡ placed policy_cmp policy.now policies.now) }
{
    policies.binary_search_by(|other| other.key.cmp(&policy.key))
}

fn user_link(alloc: Global, user: &User) -> Result<Policy, AllocError>
    ensures { IfOk result (λ policy. policy ≡ layout.user_link user.now) }
{
    let field = Field::Exact(user_name(alloc, user.uid)?);
    link(alloc, &field, type_bucket(user.kind))
}

// The policy that sends the questions of a user, or of everyone, to a bucket.
fn link(alloc: Global, user: &Field, target: &[u8]) -> Result<Policy, AllocError>
    requires text { metadata_fault target.now ≡ None }
    requires name { is_bucket_name target.now ≡ true }
    ensures { IfOk result (λ policy. policy ≡ layout.link user.now target.now) }
{
    let key = Key::of_fields(alloc, &Field::Any, user, &Field::Any)?;
    let result = pointing_to(alloc, target)?;
    Ok(Policy { key, result })
}

fn pointing_to(alloc: Global, target: &[u8]) -> Result<PolicyResult, AllocError>
    requires text { metadata_fault target.now ≡ None }
    requires name { is_bucket_name target.now ≡ true }
    ensures { IfOk result (λ ruling. ruling ≡ record { kind = kinds.bucket; metadata = target.now }) }
{
    let metadata = match Metadata::read(alloc, target) {
        Ok(metadata) => metadata,
        Err(MetadataRefusal::Memory(error)) => return Err(error),
        Err(_) => unreachable!(),
    };
    match PolicyResult::of(Kind::BUCKET, metadata) {
        Ok(result) => Ok(result),
        Err(_) => unreachable!(),
    }
}

// The text of the file of `MANIFESTS`: each grant of an install is allowed.
fn manifests_text(alloc: Global, registry: &Registry) -> Result<Vec<u8>, AllocError>
    ensures { IfOk result (λ text. text.items ≡ word.bucket_text (layout.manifest_policies registry.now)) }
{
    let mut policies = Vec::new(alloc);
    for key in registry.manifest_rows()? {
        policies.push(Policy {
            key,
            result: PolicyResult::without_metadata(alloc, Kind::ALLOW),
        })?;
    }
    bucket_text(alloc, &policies)
}

/// `MAIN` and `MANIFESTS` deny where no policy decides.
pub fn test_fallbacks(alloc: Global, headings: &[BucketHeading]) -> Result<(), TextRefusal>
    ensures { MatchResult result (λ done. fallback_fault_of headings.now ≡ None)
        (λ refusal. RefusesTest refusal (fallback_fault_of headings.now)) }
{
    if has_loose_fallback(headings) {
        return Err(damaged(alloc, BUCKETS, 0));
    }
    Ok(())
}

// Whether one of these two does not deny.
fn has_loose_fallback(headings: &[BucketHeading]) -> bool
    ensures { result ≡ list_any
        (λ heading. layout.is_managed heading.name && not (heading.fallback.kind == kinds.deny)) headings.now }
{
    headings.iter().any(|heading| is_managed(heading) && heading.fallback.kind() != Kind::DENY)
}

fn is_managed(heading: &BucketHeading) -> bool
    ensures { result ≡ layout.is_managed heading.now.name }
{
    heading.name.as_slice() == MAIN || heading.name.as_slice() == MANIFESTS
}
