// The rows of the manifests.
ghost use Rattle.std.specs.Prelude.{◌≡◌, ◌++◌, map, IfOk, OnOk};
ghost use Rattle.std.specs.List.{All, Contains};
ghost use Rattle.std.specs.List.Sorted.{IsStrictlySortedBy};
ghost use Rattle.app_registry.specs.Manifest.{grant, grants, install_grants, scope_field};
ghost use Rattle.app_registry.specs.Rising.{rising};
ghost use Rattle.cynara_keys.specs.Key.{key_cmp};

use crate::labels::{install_client, user_name};
use crate::{Install, Scope};
use cynara_keys::{Field, Key, Name};
use std::alloc::{AllocError, Global};

/// What the installs grant, each key once and in the order of keys.
pub fn manifest_rows(alloc: Global, installs: &[Install]) -> Result<Vec<Key>, AllocError>
    ensures rows { IfOk result (λ rows. rows.items ≡ rising key_cmp (grants installs.now)) }
    ensures rising { IfOk result (λ rows. IsStrictlySortedBy key_cmp rows.items) }
    ensures granted { IfOk result (λ rows. All (Contains (grants installs.now)) rows.items) }
    ensures all_there { IfOk result (λ rows. All (Contains rows.items) (grants installs.now)) }
{
    let mut rows = Vec::new(alloc);
    for install in installs {
        push_grants(alloc, &mut rows, install)?;
    }
    rows.sort_unstable();
    rows.dedup();
    Ok(rows)
}

// Puts the keys that an install grants behind the rows.
fn push_grants(alloc: Global, rows: &mut Vec<Key>, install: &Install) -> Result<(), AllocError>
    ensures { OnOk result (rows.new.items ≡ rows.old.items ++ install_grants install.now) }
{
    let client = Field::Exact(install_client(alloc, install)?);
    let user = scope_field(alloc, install.scope)?;
    push_each(alloc, rows, &client, &user, install.privileges.as_slice())
}

fn push_each(
    alloc: Global,
    rows: &mut Vec<Key>,
    client: &Field,
    user: &Field,
    privileges: &[Name],
) -> Result<(), AllocError>
    ensures { OnOk result (rows.new.items ≡ rows.old.items ++ map (grant client.now user.now) privileges.now) }
{
    for privilege in privileges {
        rows.push(grant(alloc, client, user, privilege)?)?;
    }
    Ok(())
}

/// The key with which an install of this client and for these users is granted a privilege. Fails only for lack of
/// memory.
pub fn grant(
    alloc: Global,
    client: &Field,
    user: &Field,
    privilege: &Name,
) -> Result<Key, AllocError>
    ensures { IfOk result (λ key. key ≡ grant client.now user.now privilege.now) }
{
    let privilege = Field::Exact(privilege.copy()?);
    Key::of_fields(alloc, client, user, &privilege)
}

/// The users of a scope as the user of keys: the wildcard for everyone, or one number in decimal. Fails only for lack
/// of memory.
pub fn scope_field(alloc: Global, scope: Scope) -> Result<Field, AllocError>
    ensures { IfOk result (λ field. field ≡ scope_field scope) }
{
    match scope {
        Scope::Everyone => Ok(Field::Any),
        Scope::One(uid) => Ok(Field::Exact(user_name(alloc, uid)?)),
    }
}
