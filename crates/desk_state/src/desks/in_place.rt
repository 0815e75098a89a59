//! Commands that change a state itself, where nothing else shares the lists that they change.

ghost use Rattle.std.specs.Prelude.{◌≡◌, None, IsTrue, IsFalse, IfOk, IfErr, OnOk, OnErr};
ghost use Rattle.desk_state.specs.Next.{next, erased_by};
ghost use Rattle.desk_state.specs.Rules.{Refuses, fault};
ghost use Rattle.desk_state.specs.declared.commands.Command.TheVariants.{Install as InstallCommand, SetPolicies};
ghost use Rattle.desk_state.specs.parts.Following.{install_changes};
ghost use Rattle.desk_state.specs.parts.Stepping.{IsAllowed, Becomes};

use crate::desks::{Applied, Desk, LAST_COMMIT};
use crate::following::change_install;
use crate::{Command, Refusal};
use app_registry::Install;
use bucket_store::{Change, Changes};
use std::alloc::{AllocError, Global};

impl Desk {
    /// Makes this state the one that the command gives, and answers how many policies an `Erase` erased, 0 for other
    /// commands. Refuses as `apply` does, and then this state stays as it is. Policies that are set in one bucket, or
    /// granted by an install, change lists in place that no other state shares; other commands copy what they change.
    pub fn change(&mut self, command: &Command) -> Result<u32, Refusal>
        ensures next { OnOk result (self.new ≡ next self.old command.now) }
        ensures erased { IfOk result (λ erased. erased ≡ erased_by self.old command.now) }
        ensures accepted { OnOk result (fault self.old command.now ≡ None) }
        ensures refused { IfErr result (Refuses self.old command.now) }
        ensures kept { OnErr result (self.new ≡ self.old) }
    {
        if let Err(refusal) = self.check_layout(command) {
            return Err(refusal);
        }
        if self.becomes(command) {
            return Ok(0);
        }
        match self.apply(command) {
            Ok(applied) => {
                let Applied { desk, erased } = applied;
                *self = desk;
                Ok(erased)
            }
            Err(refusal) => Err(refusal),
        }
    }

    // Makes the change in place, where it is one that can be. Says whether it did.
    fn becomes(&mut self, command: &Command) -> bool
        requires { IsAllowed self.old command.now }
        ensures changed { IsTrue result → Becomes self.old command.now self.new }
        ensures kept { IsFalse result → self.new ≡ self.old }
    {
        match command {
            Command::SetPolicies { changes } => self.set_in_place(changes),
            Command::Install { install } => self.install_in_place(install),
            _ => false,
        }
    }

    fn set_in_place(&mut self, changes: &Changes) -> bool
        requires { IsAllowed self.old (SetPolicies changes.now) }
        ensures changed { IsTrue result → Becomes self.old (SetPolicies changes.now) self.new }
        ensures kept { IsFalse result → self.new ≡ self.old }
    {
        if self.commit == LAST_COMMIT {
            return false;
        }
        if !self.database.change_in_place(changes.as_slice()) {
            return false;
        }
        let _ = self.database.buckets();
        self.commit += 1;
        true
    }

    fn install_in_place(&mut self, install: &Install) -> bool
        requires { IsAllowed self.old (InstallCommand install.now) }
        ensures changed { IsTrue result → Becomes self.old (InstallCommand install.now) self.new }
        ensures kept { IsFalse result → self.new ≡ self.old }
    {
        if self.commit == LAST_COMMIT {
            return false;
        }
        let Ok(gained) = grants_gained(self.template.allocator(), install) else {
            return false;
        };
        if !self.registry.install_in_place(install) {
            return false;
        }
        if !self.database.change_in_place(&gained) {
            self.registry
                .uninstall_in_place(&install.app, install.scope);
            return false;
        }
        let _ = self.database.buckets();
        let _ = self.registry.installs();
        self.commit += 1;
        true
    }
}

// The changes that allow what the install grants. They are all where it takes the place of no other.
fn grants_gained(alloc: Global, install: &Install) -> Result<Vec<Change>, AllocError>
    ensures { IfOk result (λ changes. changes.items ≡ install_changes install.now) }
{
    let mut changes = Vec::new(alloc);
    change_install(alloc, &mut changes, true, install)?;
    Ok(changes)
}
