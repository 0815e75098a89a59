//! The users and the installs of a device.

ghost use Rattle.std.specs.Prelude.{◌≡◌, IfOk, IfErr, OnOk, None, filter};
ghost use Rattle.app_registry.specs.Install.{is_of_package};
ghost use Rattle.std.specs.List.{All, Contains};
ghost use Rattle.std.specs.List.Sorted.{IsStrictlySortedBy};
ghost use Rattle.std.specs.Option.{option_copied};
ghost use Rattle.cynara_keys.specs.Key.{key_cmp};
ghost use Rattle.app_registry.specs.Label.{label_of};
ghost use Rattle.app_registry.specs.Manifest.{grants, manifest_rows};
ghost use Rattle.app_registry.specs.Refusal.{Refuses, owner_fault, user_set_fault, user_remove_fault};
ghost use Rattle.app_registry.specs.Refusal.{install_fault, uninstall_fault, convert_fault};
ghost use Rattle.app_registry.specs.Registry.{no_entries, has_package, author_of, package_of, kind_of};
ghost use Rattle.app_registry.specs.Rules.{IsRegistry};
ghost use Rattle.app_registry.specs.Registry.{with_user, without_user, with_install, without_install, with_kind};

mod in_place;
mod made;

use crate::install_lists::InstallList;
use crate::labels::install_label;
use crate::limits::{installs_limit, users_limit};
use crate::lists::{
    copies, with_install, with_kind, with_user, without_install, without_installs_for, without_user,
};
use crate::look_ups::{
    by_another, first_of_app, first_of_package, has_install, has_user, kind_of, of_other_kind,
    of_package,
};
use crate::manifests::manifest_rows;
use crate::{Ident, Install, RegistryRefusal, Scope, User, UserType};
use cynara_keys::Key;
use smack_rules::Label;
use std::alloc::{AllocError, Global};
use std::marker::Model;

/// Which users the device has, and which applications are installed for whom. A call that changes it gives the changed
/// registry and leaves this one as it is.
#[derive(Debug, Drop)]
pub struct Registry {
    users: Vec<User>,
    installs: InstallList,
}

impl Model for Registry {
    ghost use Rattle.app_registry.specs.Registry.{RegistryLists};
    ghost use Rattle.app_registry.specs.Rules.{IsRegistry};

    ghost Value = { RegistryLists };

    ghost view = { λ registry. record { users = registry.users.items; installs = registry.installs } };

    ghost invariant = { λ registry. IsRegistry registry.users.items registry.installs };
}

impl Registry {
    /// The registry without users and installs.
    pub fn fresh(alloc: Global) -> Registry
        ensures { result ≡ no_entries }
    {
        Registry {
            users: Vec::new(alloc),
            installs: InstallList::of(Vec::new(alloc)),
        }
    }

    /// The users, in the order of their numbers.
    pub fn users(&self) -> &[User]
        ensures users { result.now ≡ self.now.users }
        ensures registry { IsRegistry self.now.users self.now.installs }
    {
        &self.users
    }

    /// The installs, one for each application and scope, in the order of package, application and scope.
    pub fn installs(&self) -> &[Install]
        ensures installs { result.now ≡ self.now.installs }
        ensures registry { IsRegistry self.now.users self.now.installs }
    {
        self.installs.as_slice()
    }

    /// The installs of the package, which stand together. Two binary searches find them.
    pub fn installs_of(&self, package: &Ident) -> &[Install]
        ensures { result.now ≡ filter (is_of_package «package».now) self.now.installs }
    {
        of_package(self.installs.as_slice(), package)
    }

    /// Whether the package has an install.
    pub fn has_package(&self, package: &Ident) -> bool
        ensures { result ≡ has_package self.now «package».now }
    {
        first_of_package(self.installs.as_slice(), package).is_some()
    }

    /// The author of the package, where it is installed and has one.
    pub fn author_of(&self, package: &Ident) -> Option<&Ident>
        ensures { option_copied result ≡ author_of self.now «package».now }
    {
        let install = first_of_package(self.installs.as_slice(), package)?;
        install.author.as_ref()
    }

    /// The registry in which the user is of this kind, be the user new or there. Refuses `Limit` of `Users`.
    pub fn user_set(&self, uid: u32, kind: UserType) -> Result<Registry, RegistryRefusal>
        ensures registry { IfOk result (λ registry. registry ≡ with_user self.now uid kind) }
        ensures accepted { OnOk result (user_set_fault self.now uid kind ≡ None) }
        ensures refused { IfErr result (λ refusal. Refuses refusal (user_set_fault self.now uid kind)) }
    {
        let user = User { uid, kind };
        let users = with_user(self.alloc(), &self.users, user).map_err(RegistryRefusal::Memory)?;
        if let Some(fault) = users_limit(&users) {
            return Err(fault);
        }
        let installs = self.installs_copy().map_err(RegistryRefusal::Memory)?;
        Ok(Registry {
            users,
            installs: InstallList::of(installs),
        })
    }

    /// The registry without the user, and without the installs for this user alone. Refuses `UnknownUser`.
    pub fn user_remove(&self, uid: u32) -> Result<Registry, RegistryRefusal>
        ensures registry { IfOk result (λ registry. registry ≡ without_user self.now uid) }
        ensures accepted { OnOk result (user_remove_fault self.now uid ≡ None) }
        ensures refused { IfErr result (λ refusal. Refuses refusal (user_remove_fault self.now uid)) }
    {
        if !has_user(&self.users, uid) {
            return Err(RegistryRefusal::UnknownUser(uid));
        }
        let users = without_user(self.alloc(), &self.users, uid).map_err(RegistryRefusal::Memory)?;
        let installs = without_installs_for(self.alloc(), self.installs.as_slice(), uid).map_err(
            RegistryRefusal::Memory,
        )?;
        Ok(Registry {
            users,
            installs: InstallList::of(installs),
        })
    }

    /// The registry with this install, in place of one of the same application and scope. Refuses, in this order,
    /// `UnknownUser` of the scope, `OtherPackage`, where the application is installed in another package,
    /// `OtherAuthor`, where an install of the package has another author or only one of them has one, `OtherHybrid`,
    /// where an install of the package is of the other kind, and `Limit` of `Packages`, `Installs` and `Grants`.
    pub fn install(&self, install: &Install) -> Result<Registry, RegistryRefusal>
        ensures registry { IfOk result (λ registry. registry ≡ with_install self.now install.now) }
        ensures accepted { OnOk result (install_fault self.now install.now ≡ None) }
        ensures refused { IfErr result (λ refusal. Refuses refusal (install_fault self.now install.now)) }
    {
        self.check_owner(install)?;
        let installs = with_install(self.alloc(), self.installs.as_slice(), install).map_err(
            RegistryRefusal::Memory,
        )?;
        if let Some(fault) = installs_limit(&installs) {
            return Err(fault);
        }
        let users = self.users_copy().map_err(RegistryRefusal::Memory)?;
        Ok(Registry {
            users,
            installs: InstallList::of(installs),
        })
    }

    /// The registry without the install of the application for the scope. Refuses `NotInstalled`.
    pub fn uninstall(&self, app: &Ident, scope: Scope) -> Result<Registry, RegistryRefusal>
        ensures registry { IfOk result (λ registry. registry ≡ without_install self.now app.now scope) }
        ensures accepted { OnOk result (uninstall_fault self.now app.now scope ≡ None) }
        ensures refused { IfErr result (λ refusal. Refuses refusal (uninstall_fault self.now app.now scope)) }
    {
        if !has_install(self.installs.as_slice(), app, scope) {
            return Err(RegistryRefusal::NotInstalled);
        }
        let installs = without_install(self.alloc(), self.installs.as_slice(), app, scope).map_err(
            RegistryRefusal::Memory,
        )?;
        let users = self.users_copy().map_err(RegistryRefusal::Memory)?;
        Ok(Registry {
            users,
            installs: InstallList::of(installs),
        })
    }

    /// The registry in which all installs of the package are of a hybrid one, or of a plain one. Refuses
    /// `NotInstalled`.
    pub fn convert(&self, package: &Ident, hybrid: bool) -> Result<Registry, RegistryRefusal>
        ensures registry { IfOk result (λ registry. registry ≡ with_kind self.now «package».now hybrid) }
        ensures accepted { OnOk result (convert_fault self.now «package».now ≡ None) }
        ensures refused { IfErr result (λ refusal. Refuses refusal (convert_fault self.now «package».now)) }
    {
        if !self.has_package(package) {
            return Err(RegistryRefusal::NotInstalled);
        }
        let installs = with_kind(self.alloc(), self.installs.as_slice(), package, hybrid).map_err(
            RegistryRefusal::Memory,
        )?;
        let users = self.users_copy().map_err(RegistryRefusal::Memory)?;
        Ok(Registry {
            users,
            installs: InstallList::of(installs),
        })
    }

    /// The type of the user, where the user is there. Takes no memory.
    pub fn kind_of(&self, uid: u32) -> Option<UserType>
        ensures { result ≡ kind_of self.now uid }
    {
        kind_of(&self.users, uid)
    }

    /// The package of the application, where it is installed. Takes no memory.
    pub fn package_of(&self, app: &Ident) -> Option<&Ident>
        ensures { option_copied result ≡ package_of self.now app.now }
    {
        let install = first_of_app(self.installs.as_slice(), app)?;
        Some(&install.package)
    }

    /// What the installs grant: for each privilege of each install the key of the install's label, the number of the
    /// user in decimal or the wildcard for everyone, and the privilege, each key once and in the order of keys.
    pub fn manifest_rows(&self) -> Result<Vec<Key>, AllocError>
        ensures rows { IfOk result (λ rows. rows.items ≡ manifest_rows self.now) }
        ensures rising { IfOk result (λ rows. IsStrictlySortedBy key_cmp rows.items) }
        ensures granted { IfOk result (λ rows. All (Contains (grants self.now.installs)) rows.items) }
        ensures all_there { IfOk result (λ rows. All (Contains rows.items) (grants self.now.installs)) }
    {
        manifest_rows(self.alloc(), self.installs.as_slice())
    }

    /// The label with which the application runs, where it is installed.
    pub fn label_of(&self, app: &Ident) -> Result<Option<Label>, AllocError>
        ensures { IfOk result (λ label. label ≡ label_of self.now app.now) }
    {
        match first_of_app(self.installs.as_slice(), app) {
            Some(install) => Ok(Some(install_label(self.alloc(), install)?)),
            None => Ok(None),
        }
    }

    /// An equal registry, which shares the texts.
    pub fn copy(&self) -> Result<Registry, AllocError>
        ensures { IfOk result (λ copy. copy ≡ self.now) }
    {
        Ok(Registry {
            users: Vec::from_slice(self.alloc(), &self.users)?,
            installs: InstallList::of(self.installs_copy()?),
        })
    }

    fn alloc(&self) -> Global {
        *self.users.allocator()
    }

    fn users_copy(&self) -> Result<Vec<User>, AllocError>
        ensures { IfOk result (λ copies. copies.items ≡ self.now.users) }
    {
        Vec::from_slice(self.alloc(), &self.users)
    }

    fn installs_copy(&self) -> Result<Vec<Install>, AllocError>
        ensures { IfOk result (λ copies. copies.items ≡ self.now.installs) }
    {
        let installs = self.installs.as_slice();
        copies(self.alloc(), installs, installs.len())
    }

    // What stands against an install of this application, whatever is counted.
    fn check_owner(&self, install: &Install) -> Result<(), RegistryRefusal>
        ensures accepted { OnOk result (owner_fault self.now install.now ≡ None) }
        ensures refused { IfErr result (λ refusal. Refuses refusal (owner_fault self.now install.now)) }
    {
        if let Scope::One(uid) = install.scope {
            if !has_user(&self.users, uid) {
                return Err(RegistryRefusal::UnknownUser(uid));
            }
        }
        if let Some(other) = self.installs.elsewhere(install) {
            let package = other.package.copy().map_err(RegistryRefusal::Memory)?;
            return Err(RegistryRefusal::OtherPackage(package));
        }
        if let Some(other) = by_another(self.installs.as_slice(), install) {
            let author = other.author_copy().map_err(RegistryRefusal::Memory)?;
            return Err(RegistryRefusal::OtherAuthor(author));
        }
        if let Some(other) = of_other_kind(self.installs.as_slice(), install) {
            return Err(RegistryRefusal::OtherHybrid(other.hybrid));
        }
        Ok(())
    }
}
