//! The commands on users and installs, which `MAIN` and `MANIFESTS` follow.

ghost use Rattle.std.specs.Prelude.{◌≡◌, ◌<◌, ◌^◌, [], ◌∷◌, true, None, find, IfOk};
ghost use Rattle.std.specs.Option.{option_copied};
ghost use Rattle.std.specs.List as list;
ghost use Rattle.bucket_store.specs.Change.{with_changes};
ghost use Rattle.bucket_store.specs.Refusal.{named_by, no_bucket};
ghost use Rattle.app_registry.specs.Ident.{ident_fault};
ghost use Rattle.app_registry.specs.Install.{is_of_app};
ghost use Rattle.app_registry.specs.declared.installs.Install.{Install as Installed};
ghost use Rattle.app_registry.specs.declared.users.User.{User as Account};
ghost use Rattle.desk_state.specs.Layout as layout;
ghost use Rattle.desk_state.specs.declared.commands.Command.TheVariants as command;
ghost use Rattle.desk_state.specs.parts.Following as following;
ghost use Rattle.desk_state.specs.parts.Stepping.{Answers, IsAllowed, Settles};

use crate::following::{change_package, delete_user, set_user, take_from_user};
use crate::{Applied, Desk, Refusal};
use app_registry::{Ident, Install, Registry, Scope, User, UserType};
use bucket_store::Change;
use std::alloc::{AllocError, Global};

impl Desk {
    pub(crate) fn user_set(&self, uid: u32, kind: UserType) -> Result<Applied, Refusal>
        requires { IsAllowed self.now (command.UserSet uid kind) }
        ensures { Answers self.now (command.UserSet uid kind) result }
    {
        let registry = match self.registry().user_set(uid, kind) {
            Ok(registry) => registry,
            Err(refusal) => return Err(self.refused_by_registry(refusal)),
        };
        let changes = match user_set_changes(self.template().allocator(), uid, kind) {
            Ok(changes) => changes,
            Err(error) => return Err(Refusal::Memory(error)),
        };
        self.settle(registry, &changes)
    }

    pub(crate) fn user_remove(&self, uid: u32) -> Result<Applied, Refusal>
        requires { IsAllowed self.now (command.UserRemove uid) }
        ensures { Answers self.now (command.UserRemove uid) result }
    {
        let registry = match self.registry().user_remove(uid) {
            Ok(registry) => registry,
            Err(refusal) => return Err(self.refused_by_registry(refusal)),
        };
        numbers_fit(self.registry().users());
        let before = self.registry().installs();
        let changes = match user_remove_changes(self.template().allocator(), before, uid) {
            Ok(changes) => changes,
            Err(error) => return Err(Refusal::Memory(error)),
        };
        self.settle(registry, &changes)
    }

    pub(crate) fn install(&self, install: &Install) -> Result<Applied, Refusal>
        requires { IsAllowed self.now (command.Install install.now) }
        ensures { Answers self.now (command.Install install.now) result }
    {
        let registry = match self.registry().install(install) {
            Ok(registry) => registry,
            Err(refusal) => return Err(self.refused_by_registry(refusal)),
        };
        let _ = install.package.as_slice();
        let alloc = self.template().allocator();
        let before = self.registry();
        idents_fit(before.installs());
        let changes = match package_changes(alloc, before, &registry, &install.package) {
            Ok(changes) => changes,
            Err(error) => return Err(Refusal::Memory(error)),
        };
        self.settle(registry, &changes)
    }

    pub(crate) fn uninstall(&self, app: &Ident, scope: Scope) -> Result<Applied, Refusal>
        requires { IsAllowed self.now (command.Uninstall app.now scope) }
        ensures { Answers self.now (command.Uninstall app.now scope) result }
    {
        let registry = match self.registry().uninstall(app, scope) {
            Ok(registry) => registry,
            Err(refusal) => return Err(self.refused_by_registry(refusal)),
        };
        let alloc = self.template().allocator();
        idents_fit(self.registry().installs());
        let changes = match app_changes(alloc, self.registry(), &registry, app) {
            Ok(changes) => changes,
            Err(error) => return Err(Refusal::Memory(error)),
        };
        self.settle(registry, &changes)
    }

    pub(crate) fn convert(&self, package: &Ident, hybrid: bool) -> Result<Applied, Refusal>
        requires { IsAllowed self.now (command.Convert «package».now hybrid) }
        ensures { Answers self.now (command.Convert «package».now hybrid) result }
    {
        let registry = match self.registry().convert(package, hybrid) {
            Ok(registry) => registry,
            Err(refusal) => return Err(self.refused_by_registry(refusal)),
        };
        let _ = package.as_slice();
        let alloc = self.template().allocator();
        let before = self.registry();
        idents_fit(before.installs());
        let changes = match package_changes(alloc, before, &registry, package) {
            Ok(changes) => changes,
            Err(error) => return Err(Refusal::Memory(error)),
        };
        self.settle(registry, &changes)
    }

    // The next state with this registry, whose two buckets follow it by these changes.
    fn settle(&self, registry: Registry, changes: &[Change]) -> Result<Applied, Refusal>
        requires laid { layout.has_layout self.now.database ≡ true }
        requires named { no_bucket (list.flat_map named_by changes.now) self.now.database ≡ None }
        requires follows { with_changes changes.now self.now.database ≡ layout.settled registry self.now.database }
        ensures { Settles self.now registry result }
    {
        let database = match self.database().set_policies(changes) {
            Ok(database) => database,
            Err(refusal) => return Err(self.refused_by_store(refusal)),
        };
        let _ = database.buckets();
        let template = match self.template().copy() {
            Ok(template) => template,
            Err(error) => return Err(Refusal::Memory(error)),
        };
        let applied = match self.step(database, registry, template, 0) {
            Ok(applied) => applied,
            Err(refusal) => return Err(refusal),
        };
        Ok(applied)
    }
}

// Users' numbers have 32 bits, so that no two have one text. The loop changes nothing: it says of each number what is
// known of one that is passed.
fn numbers_fit(users: &[User])
    ensures { list.AllByRecursion (λ (user : Account). user.uid < 2 ^ 32) users.now }
{
    for user in users {
        number_fits(user.uid);
    }
}

fn number_fits(uid: u32)
    ensures { uid < 2 ^ 32 }
{
    let _ = uid;
}

// Names of packages have no colon, so that no label of an install is one of another package. The loop changes nothing:
// it says of each name what is known of one that is passed.
fn idents_fit(installs: &[Install])
    ensures { list.AllByRecursion (λ (install : Installed). ident_fault install.package ≡ None) installs.now }
{
    for install in installs {
        ident_fits(&install.package);
    }
}

fn ident_fits(ident: &Ident)
    ensures { ident_fault ident.now ≡ None }
{
    let _ = ident.as_slice();
}

fn user_set_changes(alloc: Global, uid: u32, kind: UserType) -> Result<Vec<Change>, AllocError>
    ensures { IfOk result (λ changes. changes.items ≡ following.set_user uid kind ∷ []) }
{
    let mut changes = Vec::new(alloc);
    changes.push(set_user(alloc, uid, kind)?)?;
    Ok(changes)
}

fn user_remove_changes(
    alloc: Global,
    before: &[Install],
    uid: u32,
) -> Result<Vec<Change>, AllocError>
    ensures { IfOk result (λ changes. changes.items ≡ following.removal_changes uid before.now) }
{
    let mut changes = Vec::new(alloc);
    changes.push(delete_user(alloc, uid)?)?;
    take_from_user(alloc, &mut changes, before, uid)?;
    Ok(changes)
}

fn package_changes(
    alloc: Global,
    before: &Registry,
    after: &Registry,
    package: &Ident,
) -> Result<Vec<Change>, AllocError>
    ensures { IfOk result (λ changes. changes.items
        ≡ following.package_changes «package».now before.now.installs after.now.installs) }
{
    let mut changes = Vec::new(alloc);
    change_package(alloc, &mut changes, false, before, package)?;
    change_package(alloc, &mut changes, true, after, package)?;
    Ok(changes)
}

// The changes of the application's package, where it is installed.
fn app_changes(
    alloc: Global,
    before: &Registry,
    after: &Registry,
    app: &Ident,
) -> Result<Vec<Change>, AllocError>
    ensures { IfOk result (λ changes. changes.items
        ≡ following.app_changes (find (is_of_app app.now) before.now.installs) before.now.installs after.now.installs) }
{
    match first_of_app(before.installs(), app) {
        Some(install) => {
            let changes = package_changes(alloc, before, after, &install.package)?;
            Ok(changes)
        }
        None => Ok(Vec::new(alloc)),
    }
}

fn first_of_app<'a>(installs: &'a [Install], app: &Ident) -> Option<&'a Install>
    ensures { option_copied result ≡ find (is_of_app app.now) installs.now }
{
    installs.iter().find(|install| install.app == *app)
}
