//! The changes of `MAIN` and `MANIFESTS` by which they follow a change of the registry. Of several changes of a key the
//! last counts, so that what goes and comes back is taken away first and then allowed.

ghost use Rattle.std.specs.Prelude.{◌≡◌, [], ◌∷◌, ◌++◌, None, map, decimal, true, false, IfOk, OnOk};
ghost use Rattle.cynara_keys.specs.BucketName.{bucket_name_fault, is_bucket_name};
ghost use Rattle.cynara_keys.specs.Metadata.{metadata_fault};
ghost use Rattle.cynara_keys.specs.PolicyResult as ruling;
ghost use Rattle.app_registry.specs.Install.{is_of_package, is_for_user};
ghost use Rattle.app_registry.specs.Manifest.{grant, install_grants, grants};
ghost use Rattle.desk_state.specs.parts.Following as following;

use crate::names::{MAIN, MANIFESTS, type_bucket};
use app_registry::{
    Ident, Install, Registry, Scope, UserType, grant, install_client, scope_field, user_name,
};
use bucket_store::Change;
use cynara_keys::{
    BucketName, BucketNameRefusal, Field, Key, Kind, Metadata, MetadataRefusal, Name, PolicyResult,
};
use std::alloc::{AllocError, Global};

/// A user goes to the bucket of the user's type.
pub fn set_user(alloc: Global, uid: u32, kind: UserType) -> Result<Change, AllocError>
    ensures { IfOk result (λ change. change ≡ following.set_user uid kind) }
{
    Ok(Change::Set {
        bucket: bucket_name(alloc, MAIN)?,
        key: user_key(alloc, uid)?,
        result: link_to(alloc, type_bucket(kind))?,
    })
}

/// A user goes nowhere.
pub fn delete_user(alloc: Global, uid: u32) -> Result<Change, AllocError>
    ensures { IfOk result (λ change. change ≡ following.delete_user uid) }
{
    Ok(Change::Delete {
        bucket: bucket_name(alloc, MAIN)?,
        key: user_key(alloc, uid)?,
    })
}

fn user_key(alloc: Global, uid: u32) -> Result<Key, AllocError>
    ensures { IfOk result (λ key. key ≡ following.user_key uid) }
{
    let user = Field::Exact(user_name(alloc, uid)?);
    Key::of_fields(alloc, &Field::Any, &user, &Field::Any)
}

/// The bucket's name of this text, which is one.
pub fn bucket_name(alloc: Global, text: &[u8]) -> Result<BucketName, AllocError>
    requires { bucket_name_fault text.now ≡ None }
    ensures { IfOk result (λ name. name ≡ text.now) }
{
    match BucketName::read(alloc, text) {
        Ok(name) => Ok(name),
        Err(BucketNameRefusal::Memory(error)) => Err(error),
        Err(_) => unreachable!(),
    }
}

/// The result that sends a question to the bucket of this name.
pub fn link_to(alloc: Global, target: &[u8]) -> Result<PolicyResult, AllocError>
    requires text { metadata_fault target.now ≡ None }
    requires name { is_bucket_name target.now ≡ true }
    ensures { IfOk result (λ link. link ≡ record { kind = ruling.bucket; metadata = target.now }) }
{
    let metadata = match Metadata::read(alloc, target) {
        Ok(metadata) => metadata,
        Err(MetadataRefusal::Memory(error)) => return Err(error),
        Err(_) => unreachable!(),
    };
    match PolicyResult::of(Kind::BUCKET, metadata) {
        Ok(link) => Ok(link),
        Err(_) => unreachable!(),
    }
}

/// Appends changes that allow, or take away, what the installs of a package grant, each to its label.
pub fn change_package(
    alloc: Global,
    changes: &mut Vec<Change>,
    allowed: bool,
    registry: &Registry,
    package: &Ident,
) -> Result<(), AllocError>
    ensures { OnOk result (changes.new.items ≡ changes.old.items
        ++ following.grant_changes allowed (is_of_package «package».now) registry.now.installs) }
{
    change_installs(alloc, changes, allowed, registry.installs_of(package))
}

// What these installs grant.
fn change_installs(
    alloc: Global,
    changes: &mut Vec<Change>,
    allowed: bool,
    installs: &[Install],
) -> Result<(), AllocError>
    ensures { OnOk result (changes.new.items
        ≡ changes.old.items ++ map (following.grant_change allowed) (grants installs.now)) }
{
    for install in installs {
        change_install(alloc, changes, allowed, install)?;
    }
    Ok(())
}

/// Appends changes that take away what the installs for a user alone grant.
pub fn take_from_user(
    alloc: Global,
    changes: &mut Vec<Change>,
    installs: &[Install],
    uid: u32,
) -> Result<(), AllocError>
    ensures { OnOk result (changes.new.items
        ≡ changes.old.items ++ following.grant_changes false (λ install. is_for_user uid install.scope) installs.now) }
{
    for install in installs {
        take_of_user(alloc, changes, install, uid)?;
    }
    Ok(())
}

fn take_of_user(
    alloc: Global,
    changes: &mut Vec<Change>,
    install: &Install,
    uid: u32,
) -> Result<(), AllocError>
    ensures { OnOk result (changes.new.items
        ≡ changes.old.items ++ following.grant_changes false (λ install. is_for_user uid install.scope)
        (install.now ∷ [])) }
{
    if !is_for_user(install.scope, uid) {
        return Ok(());
    }
    change_install(alloc, changes, false, install)?;
    Ok(())
}

fn is_for_user(scope: Scope, uid: u32) -> bool
    ensures { result ≡ is_for_user uid scope }
{
    match scope {
        Scope::Everyone => false,
        Scope::One(own) => own == uid,
    }
}

/// Appends changes that allow, or take away, what an install grants.
pub fn change_install(
    alloc: Global,
    changes: &mut Vec<Change>,
    allowed: bool,
    install: &Install,
) -> Result<(), AllocError>
    ensures { OnOk result (changes.new.items
        ≡ changes.old.items ++ map (following.grant_change allowed) (install_grants install.now)) }
{
    let client = Field::Exact(install_client(alloc, install)?);
    let user = scope_field(alloc, install.scope)?;
    change_each(
        alloc,
        changes,
        allowed,
        &client,
        &user,
        install.privileges.as_slice(),
    )
}

fn change_each(
    alloc: Global,
    changes: &mut Vec<Change>,
    allowed: bool,
    client: &Field,
    user: &Field,
    privileges: &[Name],
) -> Result<(), AllocError>
    ensures { OnOk result (changes.new.items
        ≡ changes.old.items ++ map (following.grant_change allowed) (map (grant client.now user.now) privileges.now)) }
{
    for privilege in privileges {
        changes.push(grant_change(alloc, allowed, client, user, privilege)?)?;
    }
    Ok(())
}

fn grant_change(
    alloc: Global,
    allowed: bool,
    client: &Field,
    user: &Field,
    privilege: &Name,
) -> Result<Change, AllocError>
    ensures { IfOk result
        (λ change. change ≡ following.grant_change allowed (grant client.now user.now privilege.now)) }
{
    let bucket = bucket_name(alloc, MANIFESTS)?;
    let key = grant(alloc, client, user, privilege)?;
    if allowed {
        return Ok(Change::Set {
            bucket,
            key,
            result: PolicyResult::without_metadata(alloc, Kind::ALLOW),
        });
    }
    Ok(Change::Delete { bucket, key })
}
