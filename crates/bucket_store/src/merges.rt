// A bucket's policies after changes of it: sorted by key, and merged in one pass.
ghost use Rattle.std.specs.Prelude.{◌≡◌, ◌≤◌, ◌++◌, length, take, drop, IfOk};
ghost use Rattle.std.specs.List as list;
ghost use Rattle.std.specs.List.Sorted.{IsStrictlySortedBy, IsStableBy};
ghost use Rattle.std.specs.Ordering.{is_lt, is_gt};
ghost use Rattle.cynara_keys.specs.Key.{key_cmp};
ghost use Rattle.bucket_store.specs.Order.{policy_cmp};
ghost use Rattle.bucket_store.specs.parts.Batch as batch;
ghost use Rattle.bucket_store.specs.parts.Merge.{AreInOrder, comes_first};

use crate::Change;
use crate::searches::place_of_key;
use cynara_keys::{BucketName, Key, Policy};
use std::alloc::{AllocError, Global};

/// The policies after the changes, whose keys do not fall: one pass over both lists.
pub fn merged(
    alloc: Global,
    policies: &[Policy],
    changes: &[Change],
) -> Result<Vec<Policy>, AllocError>
    requires rise { IsStrictlySortedBy policy_cmp policies.now }
    requires order { AreInOrder changes.now }
    ensures { IfOk result (λ copy. copy.items ≡ list.fold batch.edited policies.now changes.now) }
{
    let mut copy = Vec::with_capacity(alloc, policies.len())?;
    let mut from = 0;
    for change in changes {
        from += merge_one(&mut copy, &policies[from..], change)?;
    }
    append_all(&mut copy, &policies[from..])?;
    Ok(copy)
}

// Appends what one change makes of the next policies, of which it takes as many as the answer says.
fn merge_one(copy: &mut Vec<Policy>, rest: &[Policy], change: &Change) -> Result<usize, AllocError>
    requires done { IsStrictlySortedBy policy_cmp copy.old.items }
    requires rest { IsStrictlySortedBy policy_cmp rest.now }
    ensures taken { IfOk result (λ taken. taken ≤ length rest.now) }
    ensures copy { IfOk result (λ _. copy.new.items
        ≡ list.filter (λ policy. is_lt (key_cmp policy.key (batch.key_of change.now))) copy.old.items
        ++ (list.filter (λ policy. is_lt (key_cmp policy.key (batch.key_of change.now))) rest.now
        ++ batch.effect change.now)) }
    ensures left { IfOk result (λ taken. drop taken rest.now
        ≡ list.filter (λ policy. is_gt (key_cmp policy.key (batch.key_of change.now))) rest.now) }
{
    let key = key_of(change);
    cut_from(copy, key);
    let (upto, taken) = around(rest, key);
    append_all(copy, &rest[..upto])?;
    append_effect(copy, change)?;
    Ok(taken)
}

// Cuts off the policies from the key on.
fn cut_from(copy: &mut Vec<Policy>, key: &Key)
    requires { IsStrictlySortedBy policy_cmp copy.old.items }
    ensures { copy.new.items ≡ list.filter (λ policy. is_lt (key_cmp policy.key key.now)) copy.old.items }
{
    match place_of_key(copy, key) {
        Ok(at) => copy.truncate(at),
        Err(at) => copy.truncate(at),
    }
}

// How many policies come before the key, and how many before or at it.
fn around(rest: &[Policy], key: &Key) -> (usize, usize)
    requires { IsStrictlySortedBy policy_cmp rest.now }
    ensures range { (result.0 ≤ length rest.now) × (result.1 ≤ length rest.now) }
    ensures before { take result.0 rest.now ≡ list.filter (λ policy. is_lt (key_cmp policy.key key.now)) rest.now }
    ensures behind { drop result.1 rest.now ≡ list.filter (λ policy. is_gt (key_cmp policy.key key.now)) rest.now }
{
    match place_of_key(rest, key) {
        Ok(at) => (at, at + 1),
        Err(at) => (at, at),
    }
}

fn append_all(copy: &mut Vec<Policy>, policies: &[Policy]) -> Result<(), AllocError>
    ensures { IfOk result (λ _. copy.new.items ≡ copy.old.items ++ policies.now) }
{
    for policy in policies {
        copy.push(policy.copy()?)?;
    }
    Ok(())
}

// Appends the policy that the change puts, if it puts one.
fn append_effect(copy: &mut Vec<Policy>, change: &Change) -> Result<(), AllocError>
    ensures { IfOk result (λ _. copy.new.items ≡ copy.old.items ++ batch.effect change.now) }
{
    if let Change::Set {
        key,
        result: outcome,
        ..
    } = change
    {
        let policy = Policy {
            key: key.copy()?,
            result: outcome.copy()?,
        };
        copy.push(policy)?;
    }
    Ok(())
}

/// The key that the change is about.
pub fn key_of(change: &Change) -> &Key
    ensures { result.now ≡ batch.key_of change.now }
{
    match change {
        Change::Set { key, .. } => key,
        Change::Delete { key, .. } => key,
    }
}

/// The bucket's own changes, sorted by key, ties in their order.
pub fn sorted(
    alloc: Global,
    name: &BucketName,
    changes: &[Change],
) -> Result<Vec<Change>, AllocError>
    ensures order { IfOk result (λ own. AreInOrder own.items) }
    ensures stable { IfOk result (λ own. IsStableBy comes_first (batch.own name.now changes.now) own.items) }
{
    let mut own = own_changes(alloc, name, changes)?;
    own.sort_by(|one, other| key_of(one).cmp(key_of(other)))?;
    Ok(own)
}

fn own_changes(
    alloc: Global,
    name: &BucketName,
    changes: &[Change],
) -> Result<Vec<Change>, AllocError>
    ensures { IfOk result (λ own. own.items ≡ batch.own name.now changes.now) }
{
    let mut own = Vec::new(alloc);
    for change in changes {
        if is_own(name, change) {
            own.push(change.copy()?)?;
        }
    }
    Ok(own)
}

/// Whether the change is the bucket's own.
pub fn is_own(name: &BucketName, change: &Change) -> bool
    ensures { result ≡ batch.is_own name.now change.now }
{
    let (Change::Set { bucket, .. } | Change::Delete { bucket, .. }) = change;
    bucket == name
}
