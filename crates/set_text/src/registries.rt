//! Reading `apps` line by line, with the rules of a registry.

ghost use Rattle.std.specs.Prelude.{◌≡◌, ◌≤◌, ◌+◌, ◌++◌, ◌∷◌, ◌&&◌, [], is_none, None, length, Ok, IfOk, IsTrue};
ghost use Rattle.std.specs.Prelude.{MatchResult};
ghost use Rattle.app_registry.specs.Install.{install_cmp, same_author, same_kind};
ghost use Rattle.app_registry.specs.Refusal.{unknown_scope, owner_fault};
ghost use Rattle.app_registry.specs.Registry.{has_user};
ghost use Rattle.app_registry.specs.Rules.{IsRegistry};
ghost use Rattle.set_text.specs.Lines.{rises_above, last_of};
ghost use Rattle.set_text.specs.Registry as word;
ghost use Rattle.set_text.specs.parts.Reads.{RefusesFile};
ghost use Rattle.set_text.specs.parts.Standing.{HasPackages, author_fits, kind_fits};
ghost use Rattle.set_text.specs.parts.Standing.{counts_of, new_package, counts_limit};

use crate::app_packages::{is_elsewhere, note};
use crate::installs::install_of;
use crate::lines::FileFault;
use app_registry::{GRANT_LIMIT, INSTALL_LIMIT, Ident, Install, PACKAGE_LIMIT, Scope, User};
use std::alloc::Global;
use std::collections::BTreeMap;
use text_lines::split_at_newline;

// How many packages and privileges the installs so far have.
#[derive(Clone, Copy)]
struct Counts {
    packages: usize,
    grants: usize,
}

/// Reads `apps` of a device with these users. Its first wrong line is named.
pub fn read_installs(alloc: Global, users: &[User], text: &[u8]) -> Result<Vec<Install>, FileFault>
    requires { IsRegistry users.now [] }
    ensures read { MatchResult result (λ installs. word.installs_of users.now text.now ≡ Ok installs.items)
        (λ fault. RefusesFile fault (word.installs_of users.now text.now)) }
    ensures kept { IfOk result (λ installs. IsRegistry users.now installs.items) }
{
    let mut installs = Vec::new(alloc);
    let mut packages = BTreeMap::new(alloc);
    let mut counts = Counts {
        packages: 0,
        grants: 0,
    };
    let mut rest = text;
    let mut number = 1u32;
    while !rest.is_empty() {
        let Some((line, after)) = split_at_newline(rest) else {
            return Err(FileFault::Line(number));
        };
        let install = match install_of(alloc, line) {
            Ok(install) => install,
            Err(fault) => return Err(fault.at(number)),
        };
        let next = counts.with(&installs, &install);
        if !fits(users, &packages, &installs, &install, next) {
            return Err(FileFault::Line(number));
        }
        if let Err(error) = note(&mut packages, &install) {
            return Err(FileFault::Memory(error));
        }
        if let Err(error) = installs.push(install) {
            return Err(FileFault::Memory(error.into()));
        }
        counts = next;
        number += 1;
        rest = after;
    }
    Ok(installs)
}

impl Counts {
    // The counts with this install behind those.
    fn with(self, before: &[Install], install: &Install) -> Counts
        requires counted { self ≡ counts_of before.now }
        requires few { counts_limit self (length before.now) ≡ None }
        ensures { result ≡ counts_of (before.now ++ install.now ∷ []) }
    {
        Counts {
            packages: self.packages + new_package(before, install),
            grants: self.grants + install.privileges.as_slice().len(),
        }
    }

    // Whether there may be as many packages, installs and privileges.
    fn fit(self, installs: usize) -> bool
        ensures { result ≡ is_none (counts_limit self installs) }
    {
        self.packages <= PACKAGE_LIMIT && installs <= INSTALL_LIMIT && self.grants <= GRANT_LIMIT
    }
}

// How many packages the install adds: the installs of a package stand together.
fn new_package(before: &[Install], install: &Install) -> usize
    ensures count { result ≡ new_package (last_of before.now) install.now }
    ensures few { result ≤ 1 }
{
    match before.last() {
        Some(last) if last.package == install.package => 0,
        _ => 1,
    }
}

// Whether the install may stand behind these, with which there are so many packages and privileges.
fn fits(
    users: &[User],
    packages: &BTreeMap<Ident, Ident>,
    before: &[Install],
    install: &Install,
    counts: Counts,
) -> bool
    requires kept { IsRegistry users.now before.now }
    requires noted { HasPackages packages.now before.now }
    requires counted { counts ≡ counts_of (before.now ++ install.now ∷ []) }
    ensures { result ≡ word.install_fits users.now before.now install.now }
{
    rises(before, install)
        && belongs(users, packages, before, install)
        && counts.fit(before.len() + 1)
}

// Whether the user is there, the application and the package are with no one else, and the package is of this kind.
fn belongs(
    users: &[User],
    packages: &BTreeMap<Ident, Ident>,
    before: &[Install],
    install: &Install,
) -> bool
    requires kept { IsRegistry users.now before.now }
    requires noted { HasPackages packages.now before.now }
    requires rises { IsTrue (rises_above install_cmp before.now install.now) }
    ensures { result ≡ is_none (owner_fault (record { users = users.now; installs = before.now }) install.now) }
{
    if !is_known(users, install.scope) {
        return false;
    }
    if is_elsewhere(packages, install) {
        return false;
    }
    if !has_author(before, install) {
        return false;
    }
    has_kind(before, install)
}

fn rises(before: &[Install], install: &Install) -> bool
    ensures { result ≡ rises_above install_cmp before.now install.now }
{
    match before.last() {
        Some(last) => last.compare_place(install).is_lt(),
        None => true,
    }
}

// Whether the user is there for whom the install is, if it is for one.
fn is_known(users: &[User], scope: Scope) -> bool
    ensures { result ≡ is_none (unknown_scope users.now scope) }
{
    match scope {
        Scope::Everyone => true,
        Scope::One(uid) => has_user(users, uid),
    }
}

fn has_user(users: &[User], uid: u32) -> bool
    ensures { result ≡ has_user users.now uid }
{
    users.iter().any(|user| user.uid == uid)
}

// Whether the install has the author of the package, whose installs stand together.
fn has_author(before: &[Install], install: &Install) -> bool
    ensures { result ≡ author_fits (last_of before.now) install.now }
{
    match before.last() {
        Some(last) => last.package != install.package || same_author(&last.author, &install.author),
        None => true,
    }
}

// Whether the install is of the kind of the package.
fn has_kind(before: &[Install], install: &Install) -> bool
    ensures { result ≡ kind_fits (last_of before.now) install.now }
{
    match before.last() {
        Some(last) => last.package != install.package || same_kind(last.hybrid, install.hybrid),
        None => true,
    }
}

fn same_kind(hybrid: bool, other: bool) -> bool
    ensures { result ≡ same_kind hybrid other }
{
    hybrid == other
}

fn same_author(author: &Option<Ident>, other: &Option<Ident>) -> bool
    ensures { result ≡ same_author author.now other.now }
{
    match (author, other) {
        (Some(author), Some(other)) => author == other,
        (None, None) => true,
        _ => false,
    }
}
