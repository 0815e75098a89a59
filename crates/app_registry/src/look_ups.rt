// What is found in lists of users and of installs.
ghost use Rattle.std.specs.Prelude.{◌≡◌, ◌≤◌, ◌==◌, true, false, not, filter, find, length, option_map};
ghost use Rattle.std.specs.List.Sorted.{IsPartitionPoint, IsStrictlySortedBy};
ghost use Rattle.std.specs.Option.{option_copied};
ghost use Rattle.std.specs.List.{list_any};
ghost use Rattle.app_registry.specs.Install.{comes_before, install_cmp, is_of_app, is_install_of};
ghost use Rattle.app_registry.specs.Install.{is_of_package, same_author, same_kind};
ghost use Rattle.app_registry.specs.Refusal.{is_elsewhere, is_by_another, is_of_other_kind};
ghost use Rattle.app_registry.specs.Registry.{has_user};

use crate::{Ident, Install, Scope, User, UserType};

/// The first install of the package, which a binary search finds.
pub fn first_of_package<'a>(installs: &'a [Install], package: &Ident) -> Option<&'a Install>
    requires { IsStrictlySortedBy install_cmp installs.now }
    ensures { option_copied result ≡ find (is_of_package «package».now) installs.now }
{
    let at = place_of_package(installs, package);
    let Some(install) = installs.get(at) else {
        return None;
    };
    if install.package == *package {
        Some(install)
    } else {
        None
    }
}

/// The installs of the package, which stand together and are found by binary searches.
pub fn of_package<'a>(installs: &'a [Install], package: &Ident) -> &'a [Install]
    requires { IsStrictlySortedBy install_cmp installs.now }
    ensures { result.now ≡ filter (is_of_package «package».now) installs.now }
{
    let behind = &installs[place_of_package(installs, package)..];
    let count = behind.partition_point(|install| install.package == *package);
    &behind[..count]
}

// How many installs are of packages before this one.
fn place_of_package(installs: &[Install], package: &Ident) -> usize
    requires { IsStrictlySortedBy install_cmp installs.now }
    ensures in_range { result ≤ length installs.now }
    ensures parted { IsPartitionPoint
        (λ install. comes_before «package».now install ≡ true)
        (λ install. comes_before «package».now install ≡ false) installs.now result }
{
    installs.partition_point(|install| install.package.cmp(package).is_lt())
}

/// Whether the user is there.
pub fn has_user(users: &[User], uid: u32) -> bool
    ensures { result ≡ has_user users.now uid }
{
    users.iter().any(|user| user.uid == uid)
}

/// The first install of the same application in another package.
pub fn elsewhere<'a>(installs: &'a [Install], install: &Install) -> Option<&'a Install>
    ensures { option_copied result ≡ find (is_elsewhere install.now) installs.now }
{
    installs.iter().find(|other| other.app == install.app && other.package != install.package)
}

/// The first install of the same package by another author.
pub fn by_another<'a>(installs: &'a [Install], install: &Install) -> Option<&'a Install>
    requires { IsStrictlySortedBy install_cmp installs.now }
    ensures { option_copied result ≡ find (is_by_another install.now) installs.now }
{
    by_another_than(of_package(installs, &install.package), &install.author)
}

// The first install that has not this author.
fn by_another_than<'a>(installs: &'a [Install], author: &Option<Ident>) -> Option<&'a Install>
    ensures { option_copied result ≡ find (λ other. not (same_author other.author author.now)) installs.now }
{
    installs
        .iter()
        .find(|other| !same_author(&other.author, author))
}

/// The first install of the same package of the other kind.
pub fn of_other_kind<'a>(installs: &'a [Install], install: &Install) -> Option<&'a Install>
    requires { IsStrictlySortedBy install_cmp installs.now }
    ensures { option_copied result ≡ find (is_of_other_kind install.now) installs.now }
{
    of_other_kind_than(of_package(installs, &install.package), install.hybrid)
}

// The first install that is not of this kind.
fn of_other_kind_than(installs: &[Install], hybrid: bool) -> Option<&Install>
    ensures { option_copied result ≡ find (λ other. not (same_kind other.hybrid hybrid)) installs.now }
{
    installs
        .iter()
        .find(|other| !same_kind(other.hybrid, hybrid))
}

fn same_kind(hybrid: bool, other: bool) -> bool
    ensures { result ≡ same_kind hybrid other }
{
    hybrid == other
}

fn same_author(author: &Option<Ident>, other: &Option<Ident>) -> bool
    ensures { result ≡ same_author author.now other.now }
{
    match (author, other) {
        (Some(author), Some(other)) => author == other,
        (None, None) => true,
        _ => false,
    }
}

/// The first install of the application.
pub fn first_of_app<'a>(installs: &'a [Install], app: &Ident) -> Option<&'a Install>
    ensures { option_copied result ≡ find (is_of_app app.now) installs.now }
{
    installs.iter().find(|install| install.app == *app)
}

/// The type of the user, where the user is there.
pub fn kind_of(users: &[User], uid: u32) -> Option<UserType>
    ensures { result ≡ option_map (λ user. user.kind) (find (λ user. user.uid == uid) users.now) }
{
    let user = users.iter().find(|user| user.uid == uid)?;
    Some(user.kind)
}

/// Whether the application is installed for the scope.
pub fn has_install(installs: &[Install], app: &Ident, scope: Scope) -> bool
    ensures { result ≡ list_any (is_install_of app.now scope) installs.now }
{
    installs
        .iter()
        .any(|install| install.app == *app && install.scope == scope)
}
