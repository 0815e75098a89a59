ghost use Rattle.std.specs.Prelude.{◌≡◌, IfOk};
ghost use Rattle.desk_state.specs.IsDesk.{IsDesk};
ghost use Rattle.desk_state.specs.DeskState.{fresh};

mod in_place;

use app_registry::Registry;
use bucket_store::Database;
use rule_templates::Template;
use std::alloc::{AllocError, Global};
use std::marker::Model;

/// The last commit number, at which every command is refused.
pub const LAST_COMMIT: u64 = 18_446_744_073_709_551_615;

/// The policy state of a device. With the layout there, the buckets `MAIN` and `MANIFESTS` are what users and installs
/// give, whatever commands led here.
#[derive(Drop)]
pub struct Desk {
    commit: u64,
    database: Database,
    registry: Registry,
    template: Template,
}

impl Model for Desk {
    ghost use Rattle.desk_state.specs.DeskState.{DeskState};
    ghost use Rattle.desk_state.specs.IsDesk.{IsDesk};

    ghost Value = { DeskState };

    ghost view = { λ desk. record {
      commit = desk.commit;
      database = desk.database;
      registry = desk.registry;
      template = desk.template;
    } };

    ghost invariant = { λ desk. IsDesk (record {
      commit = desk.commit;
      database = desk.database;
      registry = desk.registry;
      template = desk.template;
    }) };
}

/// What an accepted command gives: the next state, and how many policies an `Erase` erased, 0 for other commands.
#[derive(Drop)]
pub struct Applied {
    pub desk: Desk,
    pub erased: u32,
}

impl Desk {
    /// The state of these parts, which belong together.
    pub fn of(commit: u64, database: Database, registry: Registry, template: Template) -> Desk
        requires { IsDesk (record { commit = commit; database = database; registry = registry; template = template }) }
        ensures { result ≡ record { commit = commit; database = database; registry = registry; template = template } }
    {
        Desk {
            commit,
            database,
            registry,
            template,
        }
    }

    /// The state before the first command: the root bucket alone, no users, no installs, the default template.
    pub fn fresh(alloc: Global) -> Result<Desk, AllocError>
        ensures { IfOk result (λ desk. desk ≡ fresh) }
    {
        let template = Template::usual(alloc)?;
        let database = Database::fresh(alloc)?;
        Ok(Desk {
            commit: 0,
            database,
            registry: Registry::fresh(alloc),
            template,
        })
    }

    /// An equal state, which shares the buckets and the texts.
    pub fn copy(&self) -> Result<Desk, AllocError>
        ensures { IfOk result (λ copy. copy ≡ self.now) }
    {
        Ok(Desk {
            commit: self.commit,
            database: self.database.copy()?,
            registry: self.registry.copy()?,
            template: self.template.copy()?,
        })
    }

    /// The number of the last accepted command, 0 before the first.
    pub fn commit(&self) -> u64
        ensures commit { result ≡ self.now.commit }
        ensures desk { IsDesk self.now }
    {
        self.commit
    }

    /// The buckets and their policies.
    pub fn database(&self) -> &Database
        ensures database { result.now ≡ self.now.database }
        ensures desk { IsDesk self.now }
    {
        &self.database
    }

    /// The users and the installs.
    pub fn registry(&self) -> &Registry
        ensures registry { result.now ≡ self.now.registry }
        ensures desk { IsDesk self.now }
    {
        &self.registry
    }

    /// The template from which packages get their Smack rules.
    pub fn template(&self) -> &Template
        ensures template { result.now ≡ self.now.template }
        ensures desk { IsDesk self.now }
    {
        &self.template
    }
}
