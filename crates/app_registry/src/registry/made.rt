//! A registry made from its lists, as where it is read.

ghost use Rattle.std.specs.Prelude.{◌≡◌};
ghost use Rattle.app_registry.specs.Rules.{IsRegistry};

use crate::install_lists::InstallList;
use crate::{Install, Registry, User};

impl Registry {
    /// The registry of these users and installs, which keep its rules. Takes no memory.
    pub fn of(users: Vec<User>, installs: Vec<Install>) -> Registry
        requires { IsRegistry users.items installs.items }
        ensures { result ≡ record { users = users.items; installs = installs.items } }
    {
        Registry {
            users,
            installs: InstallList::of(installs),
        }
    }
}
