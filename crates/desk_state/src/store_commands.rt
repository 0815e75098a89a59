//! The commands on the database, and that which sets the template.

ghost use Rattle.desk_state.specs.declared.commands.Command.TheVariants.{Erase, RemoveBucket, SetBucket};
ghost use Rattle.desk_state.specs.declared.commands.Command.TheVariants.{SetPolicies, SetTemplate};
ghost use Rattle.desk_state.specs.parts.Stepping.{Answers, IsAllowed, IsArranged, Steps, moved};

use crate::{Applied, Desk, Refusal};
use bucket_store::{Changes, Database, Erased};
use cynara_keys::{BucketName, Filter, PolicyResult};
use rule_templates::Template;

impl Desk {
    pub(crate) fn set_bucket(
        &self,
        name: &BucketName,
        fallback: &PolicyResult,
    ) -> Result<Applied, Refusal>
        requires { IsAllowed self.now (SetBucket name.now fallback.now) }
        ensures { Answers self.now (SetBucket name.now fallback.now) result }
    {
        let database = match self.database().set_bucket(name, fallback) {
            Ok(database) => database,
            Err(refusal) => return Err(self.refused_by_store(refusal)),
        };
        self.on_database(database, 0)
    }

    pub(crate) fn remove_bucket(&self, name: &BucketName) -> Result<Applied, Refusal>
        requires { IsAllowed self.now (RemoveBucket name.now) }
        ensures { Answers self.now (RemoveBucket name.now) result }
    {
        let database = match self.database().remove_bucket(name) {
            Ok(database) => database,
            Err(refusal) => return Err(self.refused_by_store(refusal)),
        };
        self.on_database(database, 0)
    }

    pub(crate) fn set_policies(&self, changes: &Changes) -> Result<Applied, Refusal>
        requires { IsAllowed self.now (SetPolicies changes.now) }
        ensures { Answers self.now (SetPolicies changes.now) result }
    {
        let database = match self.database().set_policies(changes.as_slice()) {
            Ok(database) => database,
            Err(refusal) => return Err(self.refused_by_store(refusal)),
        };
        let _ = database.buckets();
        self.on_database(database, 0)
    }

    pub(crate) fn erase(&self, name: &BucketName, filter: &Filter) -> Result<Applied, Refusal>
        requires { IsAllowed self.now (Erase name.now filter.now) }
        ensures { Answers self.now (Erase name.now filter.now) result }
    {
        let erased = match self.database().erase(name, filter) {
            Ok(erased) => erased,
            Err(refusal) => return Err(self.refused_by_store(refusal)),
        };
        let Erased { database, count } = erased;
        self.on_database(database, count)
    }

    pub(crate) fn set_template(&self, template: &Template) -> Result<Applied, Refusal>
        requires { IsAllowed self.now (SetTemplate template.now) }
        ensures { Answers self.now (SetTemplate template.now) result }
    {
        let template = match template.copy() {
            Ok(template) => template,
            Err(error) => return Err(Refusal::Memory(error)),
        };
        let database = match self.database().copy() {
            Ok(database) => database,
            Err(error) => return Err(Refusal::Memory(error)),
        };
        let registry = match self.registry().copy() {
            Ok(registry) => registry,
            Err(error) => return Err(Refusal::Memory(error)),
        };
        self.step(database, registry, template, 0)
    }

    // The next state with this database, all else as it is.
    pub(crate) fn on_database(&self, database: Database, erased: u32) -> Result<Applied, Refusal>
        requires { IsArranged (moved self.now database self.now.registry self.now.template) }
        ensures { Steps self.now (moved self.now database self.now.registry self.now.template) erased result }
    {
        let registry = match self.registry().copy() {
            Ok(registry) => registry,
            Err(error) => return Err(Refusal::Memory(error)),
        };
        let template = match self.template().copy() {
            Ok(template) => template,
            Err(error) => return Err(Refusal::Memory(error)),
        };
        self.step(database, registry, template, erased)
    }
}
