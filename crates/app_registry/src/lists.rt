// Lists of users and of installs: how they are copied and changed.
ghost use Rattle.std.specs.Prelude.{◌≡◌, ◌==◌, not, IfOk, MatchResult, length, filter, insert, map, slice_set};
ghost use Rattle.std.specs.List.Sorted.{IsStrictlySortedBy, IsSearchInRange};
ghost use Rattle.app_registry.specs.Install.{install_cmp, is_install_of, is_for_user};
ghost use Rattle.app_registry.specs.Registry.{of_kind, user_cmp};
ghost use Rattle.app_registry.specs.Rising.{placed};

use crate::{Ident, Install, Scope, User};
use std::alloc::{AllocError, Global};

/// Equal installs, with room for as many as asked.
pub fn copies(alloc: Global, installs: &[Install], room: usize) -> Result<Vec<Install>, AllocError>
    ensures { IfOk result (λ copies. copies.items ≡ installs.now) }
{
    let mut copies = Vec::with_capacity(alloc, room)?;
    for install in installs {
        copies.push(install.copy()?)?;
    }
    Ok(copies)
}

/// The users with this one at its place.
pub fn with_user(alloc: Global, users: &[User], user: User) -> Result<Vec<User>, AllocError>
    requires { IsStrictlySortedBy user_cmp users.now }
    ensures { IfOk result (λ list. list.items ≡ placed user_cmp user users.now) }
{
    let mut list = Vec::with_capacity(alloc, users.len() + 1)?;
    list.extend_from_slice(users)?;
    match place_of_user(users, user) {
        Ok(at) => list[at] = user,
        Err(at) => list.insert(at, user)?,
    }
    Ok(list)
}

fn place_of_user(users: &[User], user: User) -> Result<usize, usize>
    requires { IsStrictlySortedBy user_cmp users.now }
    ensures in_range { IsSearchInRange result (length users.now) }
    ensures placed { MatchResult result
        (λ at. slice_set users.now at user ≡ placed user_cmp user users.now)
        (λ at. insert users.now at user ≡ placed user_cmp user users.now) }
{
    users.binary_search_by(|other| other.uid.cmp(&user.uid))
}

/// The installs with this one at its place.
pub fn with_install(
    alloc: Global,
    installs: &[Install],
    install: &Install,
) -> Result<Vec<Install>, AllocError>
    requires { IsStrictlySortedBy install_cmp installs.now }
    ensures { IfOk result (λ list. list.items ≡ placed install_cmp install.now installs.now) }
{
    let install_copy = install.copy()?;
    let mut list = copies(alloc, installs, installs.len() + 1)?;
    match place_of_install(installs, install) {
        Ok(at) => list[at] = install_copy,
        Err(at) => list.insert(at, install_copy)?,
    }
    Ok(list)
}

/// Where the install of this place stands, from 0, or where one belongs.
pub fn place_of_install(installs: &[Install], install: &Install) -> Result<usize, usize>
    requires { IsStrictlySortedBy install_cmp installs.now }
    ensures in_range { IsSearchInRange result (length installs.now) }
    ensures placed { MatchResult result
        (λ at. slice_set installs.now at install.now ≡ placed install_cmp install.now installs.now)
        (λ at. insert installs.now at install.now ≡ placed install_cmp install.now installs.now) }
{
    installs.binary_search_by(|other| other.compare_place(install))
}

/// The users but this one.
pub fn without_user(alloc: Global, users: &[User], uid: u32) -> Result<Vec<User>, AllocError>
    ensures { IfOk result (λ list. list.items ≡ filter (λ user. not (user.uid == uid)) users.now) }
{
    users
        .iter()
        .copied()
        .filter(|user| user.uid != uid)
        .collect(alloc)
}

/// The installs but those for this user alone.
pub fn without_installs_for(
    alloc: Global,
    installs: &[Install],
    uid: u32,
) -> Result<Vec<Install>, AllocError>
    ensures { IfOk result
        (λ list. list.items ≡ filter (λ install. not (is_for_user uid install.scope)) installs.now) }
{
    let mut list = Vec::with_capacity(alloc, installs.len())?;
    for install in installs {
        if !is_for_user(uid, install.scope) {
            list.push(install.copy()?)?;
        }
    }
    Ok(list)
}

fn is_for_user(uid: u32, scope: Scope) -> bool
    ensures { result ≡ is_for_user uid scope }
{
    match scope {
        Scope::Everyone => false,
        Scope::One(own) => own == uid,
    }
}

/// The installs but that of the application for the scope.
pub fn without_install(
    alloc: Global,
    installs: &[Install],
    app: &Ident,
    scope: Scope,
) -> Result<Vec<Install>, AllocError>
    ensures { IfOk result
        (λ list. list.items ≡ filter (λ install. not (is_install_of app.now scope install)) installs.now) }
{
    let mut list = Vec::with_capacity(alloc, installs.len())?;
    for install in installs {
        if !is_install_of(app, scope, install) {
            list.push(install.copy()?)?;
        }
    }
    Ok(list)
}

/// The installs, those of the package of this kind.
pub fn with_kind(
    alloc: Global,
    installs: &[Install],
    package: &Ident,
    hybrid: bool,
) -> Result<Vec<Install>, AllocError>
    ensures { IfOk result (λ list. list.items ≡ map (of_kind «package».now hybrid) installs.now) }
{
    let mut list = Vec::with_capacity(alloc, installs.len())?;
    for install in installs {
        list.push(of_kind(install.copy()?, package, hybrid))?;
    }
    Ok(list)
}

// The install, of this kind where it is of the package.
fn of_kind(install: Install, package: &Ident, hybrid: bool) -> Install
    ensures { result ≡ of_kind «package».now hybrid install }
{
    if install.package == *package {
        Install { hybrid, ..install }
    } else {
        install
    }
}

/// Whether this is the install of the application for the scope.
pub fn is_install_of(app: &Ident, scope: Scope, install: &Install) -> bool
    ensures { result ≡ is_install_of app.now scope install.now }
{
    install.app == *app && install.scope == scope
}
