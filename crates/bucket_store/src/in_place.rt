// Changes of a list of policies that nothing else shares, made in the list itself.
ghost use Rattle.std.specs.Prelude.{◌≡◌, ◌<◌, ◌≤◌, ◌+◌, ◌++◌, length, vec_len, vec_capacity, OnOk, OnErr};
ghost use Rattle.std.specs.List as list;
ghost use Rattle.std.specs.List.Sorted.{IsStrictlySortedBy};
ghost use Rattle.std.specs.Ordering.{is_lt, is_gt};
ghost use Rattle.cynara_keys.specs.Key.{key_cmp};
ghost use Rattle.bucket_store.specs.Order as order;
ghost use Rattle.bucket_store.specs.Order.{policy_cmp};
ghost use Rattle.bucket_store.specs.parts.Batch as batch;

use crate::Change;
use crate::copies::all_changes;
use crate::searches::place_of_key;
use cynara_keys::{Key, Policy};
use std::alloc::AllocError;

/// Makes the changes in the list, whose keys rise. Where memory is lacking the list stays as it is.
pub fn edit_all(policies: &mut Vec<Policy>, changes: &[Change]) -> Result<(), AllocError>
    requires { IsStrictlySortedBy policy_cmp policies.old.items }
    ensures done { OnOk result (policies.new.items ≡ list.fold batch.edited policies.old.items changes.now) }
    ensures kept { OnErr result (policies.new.items ≡ policies.old.items) }
{
    let own = all_changes(*policies.allocator(), changes)?;
    policies.reserve(own.len())?;
    edit_each(policies, own);
    Ok(())
}

// The same where there is room.
fn edit_each(policies: &mut Vec<Policy>, changes: Vec<Change>)
    requires rise { IsStrictlySortedBy policy_cmp policies.old.items }
    requires room { vec_len policies.old + length changes.items ≤ vec_capacity policies.old }
    ensures { policies.new.items ≡ list.fold batch.edited policies.old.items changes.items }
{
    for change in changes {
        edit(policies, change);
    }
}

// The same for one change.
fn edit(policies: &mut Vec<Policy>, change: Change)
    requires rise { IsStrictlySortedBy policy_cmp policies.old.items }
    requires room { vec_len policies.old < vec_capacity policies.old }
    ensures items { policies.new.items ≡ batch.edited policies.old.items change }
    ensures len { vec_len policies.new ≤ vec_len policies.old + 1 }
    ensures capacity { vec_capacity policies.old ≤ vec_capacity policies.new }
{
    match change {
        Change::Set { key, result, .. } => put(policies, Policy { key, result }),
        Change::Delete { key, .. } => take(policies, &key),
    }
}

fn put(policies: &mut Vec<Policy>, policy: Policy)
    requires rise { IsStrictlySortedBy policy_cmp policies.old.items }
    requires room { vec_len policies.old < vec_capacity policies.old }
    ensures items { policies.new.items ≡ order.put policy_cmp policy policies.old.items }
    ensures len { vec_len policies.new ≤ vec_len policies.old + 1 }
    ensures capacity { vec_capacity policies.old ≤ vec_capacity policies.new }
{
    match place_of_key(policies, &policy.key) {
        Ok(at) => policies[at] = policy,
        Err(at) => match policies.insert(at, policy) {
            Ok(()) => {}
            Err(_) => unreachable!(),
        },
    }
}

fn take(policies: &mut Vec<Policy>, key: &Key)
    requires { IsStrictlySortedBy policy_cmp policies.old.items }
    ensures items { policies.new.items
        ≡ list.filter (λ policy. is_lt (key_cmp policy.key key.now)) policies.old.items
        ++ list.filter (λ policy. is_gt (key_cmp policy.key key.now)) policies.old.items }
    ensures len { vec_len policies.new ≤ vec_len policies.old + 1 }
    ensures capacity { vec_capacity policies.old ≤ vec_capacity policies.new }
{
    match place_of_key(policies, key) {
        Ok(at) => {
            let _ = policies.remove(at);
        }
        Err(_) => {}
    }
}
