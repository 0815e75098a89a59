//! Changes that are made in a registry itself.

ghost use Rattle.std.specs.Prelude.{◌≡◌, None, IsTrue, IsFalse};
ghost use Rattle.std.specs.List.{list_any};
ghost use Rattle.app_registry.specs.Install.{is_install_of};
ghost use Rattle.app_registry.specs.Refusal.{owner_fault, install_fault};
ghost use Rattle.app_registry.specs.Registry.{with_install, without_install};

use crate::look_ups::{has_install, of_package};
use crate::{Ident, Install, Registry, Scope};

impl Registry {
    /// Installs in this registry, where the application is not installed for the scope, nothing stands against the
    /// install, and there is memory. Says whether it did. Where it did not nothing has changed, and `install` makes the
    /// changed registry, or says why not. `uninstall_in_place` takes the install back.
    pub fn install_in_place(&mut self, install: &Install) -> bool
        ensures registry { IsTrue result → self.new ≡ with_install self.old install.now }
        ensures accepted { IsTrue result → install_fault self.old install.now ≡ None }
        ensures taken_back { IsTrue result → without_install self.new install.now.app install.now.scope ≡ self.old }
        ensures kept { IsFalse result → self.new ≡ self.old }
    {
        match self.check_owner(install) {
            Ok(()) => {}
            Err(_) => return false,
        }
        if self.has_install(install) {
            return false;
        }
        if !self.installs.put_new(install) {
            return false;
        }
        true
    }

    // Whether the application is installed for the scope. As no other package has it, its own installs are gone over.
    fn has_install(&self, install: &Install) -> bool
        requires { owner_fault self.now install.now ≡ None }
        ensures { result ≡ list_any (is_install_of install.now.app install.now.scope) self.now.installs }
    {
        let own = of_package(self.installs.as_slice(), &install.package);
        has_install(own, &install.app, install.scope)
    }

    /// Takes the install of the application for the scope out of this registry, if it is there.
    pub fn uninstall_in_place(&mut self, app: &Ident, scope: Scope)
        ensures { self.new ≡ without_install self.old app.now scope }
    {
        self.installs.take_out(app, scope);
    }
}
