//! The step to the next state, once it is known what follows.

ghost use Rattle.std.specs.Prelude.{◌≡◌, IsTrue};
ghost use Rattle.rule_templates.specs.Template.{is_template};
ghost use Rattle.desk_state.specs.parts.Stepping as stepping;
ghost use Rattle.desk_state.specs.parts.Stepping.{IsArranged, Steps, moved, registered_refusal, stored_refusal};

use crate::{Applied, Desk, LAST_COMMIT, Refusal};
use app_registry::{Registry, RegistryRefusal};
use bucket_store::{Database, StoreRefusal};
use cynara_keys::Counted;
use rule_templates::Template;

impl Desk {
    // The next state with these parts. Refuses where no commit number is left.
    pub(crate) fn step(
        &self,
        database: Database,
        registry: Registry,
        template: Template,
        erased: u32,
    ) -> Result<Applied, Refusal>
        requires arranged { IsArranged (moved self.now database registry template) }
        requires template { IsTrue (is_template template) }
        ensures { Steps self.now (moved self.now database registry template) erased result }
    {
        let commit = self.commit();
        if commit == LAST_COMMIT {
            return Err(Refusal::Limit(Counted::Commits, LAST_COMMIT));
        }
        let _ = database.buckets();
        let _ = registry.installs();
        let desk = Desk::of(commit + 1, database, registry, template);
        Ok(Applied { desk, erased })
    }

    // The refusal of the database, but that of a commit number past the last where that comes first.
    pub(crate) fn refused_by_store(&self, refusal: StoreRefusal) -> Refusal
        ensures { result ≡ stored_refusal self.now.commit refusal }
    {
        match refusal {
            StoreRefusal::NoBucket(name) => Refusal::NoBucket(name),
            StoreRefusal::RootBucket => Refusal::RootBucket,
            StoreRefusal::BadKind(kind) => Refusal::BadKind(kind),
            StoreRefusal::Limit(counted, most) => self.or_last(Refusal::Limit(counted, most)),
            StoreRefusal::Cycle(name) => self.or_last(Refusal::Cycle(name)),
            StoreRefusal::Memory(error) => Refusal::Memory(error),
        }
    }

    // The same for the registry.
    pub(crate) fn refused_by_registry(&self, refusal: RegistryRefusal) -> Refusal
        ensures { result ≡ registered_refusal self.now.commit refusal }
    {
        match refusal {
            RegistryRefusal::UnknownUser(uid) => Refusal::UnknownUser(uid),
            RegistryRefusal::OtherPackage(package) => Refusal::OtherPackage(package),
            RegistryRefusal::OtherAuthor(author) => Refusal::OtherAuthor(author),
            RegistryRefusal::OtherHybrid(hybrid) => Refusal::OtherHybrid(hybrid),
            RegistryRefusal::NotInstalled => Refusal::NotInstalled,
            RegistryRefusal::Limit(counted, most) => self.or_last(Refusal::Limit(counted, most)),
            RegistryRefusal::Memory(error) => Refusal::Memory(error),
        }
    }

    // The refusal, or that of a commit number past the last.
    fn or_last(&self, refusal: Refusal) -> Refusal
        ensures { result ≡ stepping.or_last self.now.commit refusal }
    {
        if self.commit() == LAST_COMMIT {
            return Refusal::Limit(Counted::Commits, LAST_COMMIT);
        }
        refusal
    }
}
