//! The installs of a registry, with an index beside them.

ghost use Rattle.std.specs.Prelude.{◌≡◌, ◌+◌, ◌≤◌, true, false, not, None, IsTrue};
ghost use Rattle.std.specs.Prelude.{IsFalse, IfSome, MatchResult, filter, find, insert, length};
ghost use Rattle.std.specs.List.{list_any};
ghost use Rattle.std.specs.List.Sorted.{IsStrictlySortedBy, IsSearchInRange};
ghost use Rattle.std.specs.Option.{option_copied};
ghost use Rattle.cynara_keys.specs.Text.{text_cmp};
ghost use Rattle.cynara_keys.specs.declared.limits.Counted.TheVariants.{Packages, Installs};
ghost use Rattle.app_registry.specs.Install.{install_cmp, is_of_app, is_install_of};
ghost use Rattle.app_registry.specs.Refusal.{is_elsewhere, installs_limit, over};
ghost use Rattle.app_registry.specs.Registry.{grant_count, packages};
ghost use Rattle.app_registry.specs.Rising.{placed};
ghost use Rattle.app_registry.specs.Limits.{most_grants, most_installs, most_packages};
ghost use Rattle.app_registry.specs.parts.Indexed.{is_among, IsIndexed};

use crate::limits::has_too_many_packages;
use crate::lists::{is_install_of, place_of_install};
use crate::look_ups::elsewhere;
use crate::{GRANT_LIMIT, INSTALL_LIMIT, Ident, Install, Scope};
use std::alloc::Global;
use std::marker::Model;

/// Installs in the order of package, application and scope. The first one that is put in place makes an index of them,
/// and later ones keep it: to tell that an application is new, and that there is room for its privileges, then takes no
/// pass over all installs.
#[derive(Debug, Drop)]
pub struct InstallList {
    installs: Vec<Install>,
    index: Option<Index>,
}

#[derive(Debug, Drop)]
struct Index {
    // The applications of the installs, and perhaps others, in the order of their names.
    apps: Vec<Ident>,
    // How many privileges the installs grant.
    granted: usize,
}

impl Model for InstallList {
    ghost use Rattle.std.specs.Prelude.{List, IfSome};
    ghost use Rattle.app_registry.specs.declared.installs.Install.{Install};
    ghost use Rattle.app_registry.specs.parts.Indexed.{IsIndexed};

    ghost Value = { List Install };

    ghost view = { λ list. list.installs.items };

    ghost invariant = { λ list.
        IfSome list.index (λ index. IsIndexed index.apps.items index.granted list.installs.items) };
}

impl InstallList {
    /// The list of these installs, yet without an index.
    pub fn of(installs: Vec<Install>) -> InstallList
        ensures { result ≡ installs.items }
    {
        InstallList {
            installs,
            index: None,
        }
    }

    /// The installs, in their order. Takes no memory.
    pub fn as_slice(&self) -> &[Install]
        ensures { result.now ≡ self.now }
    {
        &self.installs
    }

    /// The first install of the same application in another package.
    pub fn elsewhere(&self, install: &Install) -> Option<&Install>
        ensures { option_copied result ≡ find (is_elsewhere install.now) self.now }
    {
        if self.is_new(&install.app) {
            return None;
        }
        elsewhere(&self.installs, install)
    }

    // Whether the index tells that no install is of the application.
    fn is_new(&self, app: &Ident) -> bool
        ensures { IsTrue result → list_any (is_of_app app.now) self.now ≡ false }
    {
        let Some(index) = &self.index else {
            return false;
        };
        match place_of_app(&index.apps, app) {
            Ok(_) => false,
            Err(_) => true,
        }
    }

    /// Puts the install at its place, if none has it, and there is room and memory. Says whether it did.
    pub fn put_new(&mut self, install: &Install) -> bool
        requires rises { IsStrictlySortedBy install_cmp self.old }
        requires fits { installs_limit self.old ≡ None }
        ensures put { IsTrue result → self.new ≡ placed install_cmp install.now self.old }
        ensures fits { IsTrue result → installs_limit (placed install_cmp install.now self.old) ≡ None }
        ensures taken_back { IsTrue result → list_any (is_install_of install.now.app install.now.scope) self.old ≡ false
            → filter (λ other. not (is_install_of install.now.app install.now.scope other)) self.new ≡ self.old }
        ensures kept { IsFalse result → self.new ≡ self.old }
    {
        let Some(index) = self.take_index() else {
            return false;
        };
        let Index { mut apps, granted } = index;
        let more = install.privileges.as_slice().len();
        if more > GRANT_LIMIT - granted {
            return false;
        }
        if !note(&mut apps, &install.app) {
            return false;
        }
        if !put(&mut self.installs, install) {
            return false;
        }
        self.index = Some(Index {
            apps,
            granted: granted + more,
        });
        true
    }

    /// Takes the install of the application for the scope out of the list.
    pub fn take_out(&mut self, app: &Ident, scope: Scope)
        ensures { self.new ≡ filter (λ install. not (is_install_of app.now scope install)) self.old }
    {
        self.index = None;
        take_out(&mut self.installs, app, scope);
    }

    // Takes the index out, or makes it, if there is memory.
    fn take_index(&mut self) -> Option<Index>
        requires { installs_limit self.old ≡ None }
        ensures index { IfSome result (λ index. IsIndexed index.apps.items index.granted self.old) }
        ensures kept { self.new ≡ self.old }
    {
        match self.index.take() {
            Some(index) => Some(index),
            None => index_of(*self.installs.allocator(), &self.installs),
        }
    }
}

fn index_of(alloc: Global, installs: &[Install]) -> Option<Index>
    requires { grant_count installs.now ≤ most_grants }
    ensures { IfSome result (λ index. IsIndexed index.apps.items index.granted installs.now) }
{
    let mut apps = Vec::new(alloc);
    let mut granted = 0;
    for install in installs {
        if !note(&mut apps, &install.app) {
            return None;
        }
        granted += install.privileges.as_slice().len();
    }
    Some(Index { apps, granted })
}

// Where the application stands in the list, or where it belongs.
fn place_of_app(apps: &[Ident], app: &Ident) -> Result<usize, usize>
    requires { IsStrictlySortedBy text_cmp apps.now }
    ensures in_range { IsSearchInRange result (length apps.now) }
    ensures place { MatchResult result (λ at. is_among app.now apps.now ≡ true)
        (λ at. (is_among app.now apps.now ≡ false) × (insert apps.now at app.now ≡ placed text_cmp app.now apps.now)) }
{
    apps.binary_search_by(|other| other.cmp(app))
}

// Puts the application into the list, if it is not there. Says whether there was memory.
fn note(apps: &mut Vec<Ident>, app: &Ident) -> bool
    requires { IsStrictlySortedBy text_cmp apps.old.items }
    ensures rise { IsStrictlySortedBy text_cmp apps.new.items }
    ensures noted { IsTrue result → is_among app.now apps.new.items ≡ true }
    ensures stay { (other : _) → is_among other apps.old.items ≡ true → is_among other apps.new.items ≡ true }
{
    let Err(at) = place_of_app(apps, app) else {
        return true;
    };
    let Ok(own) = app.copy() else {
        return false;
    };
    match apps.insert(at, own) {
        Ok(()) => {}
        Err(_) => return false,
    }
    true
}

// Puts the install at its place, if none has it, and there are not too many packages or installs. Says whether it did.
fn put(installs: &mut Vec<Install>, install: &Install) -> bool
    requires { IsStrictlySortedBy install_cmp installs.old.items }
    ensures put { IsTrue result → installs.new.items ≡ placed install_cmp install.now installs.old.items }
    ensures packages_fit { IsTrue result → over Packages most_packages (length (packages installs.new.items)) ≡ None }
    ensures installs_fit { IsTrue result → over Installs most_installs (length installs.new.items) ≡ None }
    ensures granted { IsTrue result
        → grant_count installs.new.items ≡ grant_count installs.old.items + length install.now.privileges }
    ensures taken_back { IsTrue result
        → list_any (is_install_of install.now.app install.now.scope) installs.old.items ≡ false
        → filter (λ other. not (is_install_of install.now.app install.now.scope other)) installs.new.items
        ≡ installs.old.items }
    ensures kept { IsFalse result → installs.new.items ≡ installs.old.items }
{
    let Err(at) = place_of_install(installs, install) else {
        return false;
    };
    let Ok(own) = install.copy() else {
        return false;
    };
    match installs.insert(at, own) {
        Ok(()) => {}
        Err(_) => return false,
    }
    if !has_too_many_packages(installs) && installs.len() <= INSTALL_LIMIT {
        return true;
    }
    let _ = installs.remove(at);
    false
}

fn take_out(installs: &mut Vec<Install>, app: &Ident, scope: Scope)
    ensures { installs.new.items ≡ filter (λ install. not (is_install_of app.now scope install)) installs.old.items }
{
    installs.retain(|install| !is_install_of(app, scope, install));
}
