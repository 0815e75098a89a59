//! The policies of each bucket that concern one application and one user, with their rows in columns.

ghost use Rattle.std.specs.Prelude.{◌≡◌, ◌≤◌, ◌<◌, ◌++◌, ◌∷◌, [], length, map, IfOk, OnOk};
ghost use Rattle.cynara_keys.specs.Field.{field_of, field_matches};
ghost use Rattle.bucket_store.specs.WellFormed.{IsKept};
ghost use Rattle.effective_audit.specs.parts.Narrowing.{row_of, concerns, narrow_of};

use crate::numbers::{mark_of, number_of};
use bucket_store::Bucket;
use cynara_keys::{Name, Policy};
use lane_scan::Columns;
use std::alloc::{AllocError, Global};
use std::marker::Model;

/// A bucket, its policies that concern an application and a user, and the rows of these.
#[derive(Drop)]
pub(crate) struct Narrow<'a> {
    pub(crate) bucket: &'a Bucket,
    pub(crate) policies: Vec<Policy>,
    pub(crate) columns: Columns,
}

impl<'a> Model for Narrow<'a> {
    ghost use Rattle.effective_audit.specs.parts.Narrowing.{Narrow as NarrowLists};

    ghost Value = { NarrowLists };

    ghost view = { λ narrow. record {
      bucket = narrow.bucket.now;
      policies = narrow.policies.items;
      rows = narrow.columns;
    } };
}

/// Each of the buckets, narrowed.
pub(crate) fn narrowed<'a>(
    alloc: Global,
    buckets: &'a [Bucket],
    client: &Name,
    user: &Name,
    privileges: &[Name],
) -> Result<Vec<Narrow<'a>>, AllocError>
    requires few { length privileges.now ≤ 65536 }
    requires kept { IsKept buckets.now }
    ensures { IfOk result (λ list. list.items ≡ map (narrow_of privileges.now client.now user.now) buckets.now) }
{
    let mut list = Vec::with_capacity(alloc, buckets.len())?;
    for bucket in buckets {
        list.push(narrowed_bucket(alloc, bucket, client, user, privileges)?)?;
    }
    Ok(list)
}

fn narrowed_bucket<'a>(
    alloc: Global,
    bucket: &'a Bucket,
    client: &Name,
    user: &Name,
    privileges: &[Name],
) -> Result<Narrow<'a>, AllocError>
    requires few { length privileges.now ≤ 65536 }
    requires room { length bucket.now.policies ≤ 65536 }
    ensures { IfOk result (λ narrow. narrow ≡ narrow_of privileges.now client.now user.now bucket.now) }
{
    let mut policies = Vec::new(alloc);
    let mut columns = Columns::new(alloc);
    for policy in bucket.policies() {
        if concerns(policy, client.as_slice(), user.as_slice()) {
            push_row(&mut columns, policy, privileges)?;
            policies.push(policy.copy()?)?;
        }
    }
    Ok(Narrow {
        bucket,
        policies,
        columns,
    })
}

/// Whether the policy is for the application and the user.
fn concerns(policy: &Policy, client: &[u8], user: &[u8]) -> bool
    ensures { result ≡ concerns client.now user.now policy.now }
{
    is_for(policy.key.client(), client) && is_for(policy.key.user(), user)
}

/// Whether the text of a field is `*`, or this name.
fn is_for(field: &[u8], name: &[u8]) -> bool
    ensures { result ≡ field_matches (field_of field.now) name.now }
{
    field == b"*".as_slice() || field == name
}

fn push_row(columns: &mut Columns, policy: &Policy, privileges: &[Name]) -> Result<(), AllocError>
    requires few { length privileges.now ≤ 65536 }
    requires room { length columns.old < 65536 }
    ensures { OnOk result (columns.new ≡ columns.old ++ row_of privileges.now policy.now ∷ []) }
{
    let client = mark_of(policy.key.client());
    let user = mark_of(policy.key.user());
    let privilege = number_of(privileges, policy.key.privilege());
    columns.push(client, user, privilege)
}
