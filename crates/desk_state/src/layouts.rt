//! The layout: seven buckets, and the policies that link them.

ghost use Rattle.std.specs.Prelude.{◌≡◌, ◌+◌, ◌<◌, ◌≤◌, [], ◌∷◌, None, true, false, length, IfOk, IfErr};
ghost use Rattle.cynara_keys.specs.BucketName.{bucket_name_fault, is_bucket_name};
ghost use Rattle.cynara_keys.specs.Metadata.{metadata_fault};
ghost use Rattle.cynara_keys.specs.PolicyResult as ruling;
ghost use Rattle.bucket_store.specs.Change.{with_bucket};
ghost use Rattle.bucket_store.specs.Refusal.{is_bad, most_buckets};
ghost use Rattle.desk_state.specs.Layout as layout;
ghost use Rattle.desk_state.specs.declared.commands.Command.TheVariants as command;
ghost use Rattle.desk_state.specs.parts.Linking.{with_headings, link_changes, set_link, all_key, IsMemory};
ghost use Rattle.desk_state.specs.parts.Stepping.{Answers, IsAllowed};

use crate::following::{bucket_name, link_to};
use crate::names::{ADMIN, ADMINS, GUEST, MAIN, MANIFESTS, NORMAL, SYSTEM};
use crate::{Applied, Desk, LAST_COMMIT, Refusal};
use bucket_store::{Change, Database, MOST_BUCKETS, StoreRefusal};
use cynara_keys::{BucketName, Counted, Field, Key, Kind, PolicyResult};
use std::alloc::{AllocError, Global};

const BUILT_IN_COUNT: usize = 7;

impl Desk {
    pub(crate) fn lay_out(&self) -> Result<Applied, Refusal>
        requires { IsAllowed self.now command.Layout }
        ensures { Answers self.now command.Layout result }
    {
        if self.commit() == LAST_COMMIT {
            return Err(Refusal::Limit(Counted::Commits, LAST_COMMIT));
        }
        if self.database().buckets().len() + BUILT_IN_COUNT > MOST_BUCKETS {
            return Err(Refusal::Limit(Counted::Buckets, MOST_BUCKETS as u64));
        }
        let alloc = self.template().allocator();
        let housed = match with_buckets(alloc, self.database()) {
            Ok(database) => database,
            Err(refusal) => return Err(self.refused_by_store(refusal)),
        };
        let changes = match link_changes(alloc) {
            Ok(changes) => changes,
            Err(error) => return Err(Refusal::Memory(error)),
        };
        let database = match housed.set_policies(&changes) {
            Ok(database) => database,
            Err(refusal) => return Err(self.refused_by_store(refusal)),
        };
        let _ = database.buckets();
        self.on_database(database, 0)
    }
}

// The database with the seven buckets. Want of memory alone stands against it.
fn with_buckets(alloc: Global, database: &Database) -> Result<Database, StoreRefusal>
    requires { length database.now.buckets + 7 ≤ most_buckets }
    ensures next { IfOk result (λ next. next ≡ with_headings database.now) }
    ensures refused { IfErr result IsMemory }
{
    let next = with_bucket(alloc, database, MAIN, Kind::DENY)?;
    let next = with_bucket(alloc, &next, MANIFESTS, Kind::DENY)?;
    let next = with_bucket(alloc, &next, ADMIN, Kind::ALLOW)?;
    let next = with_bucket(alloc, &next, SYSTEM, Kind::ALLOW)?;
    let next = with_bucket(alloc, &next, ADMINS, Kind::ALLOW)?;
    let next = with_bucket(alloc, &next, NORMAL, Kind::ALLOW)?;
    let next = with_bucket(alloc, &next, GUEST, Kind::ALLOW)?;
    Ok(next)
}

// The database with one bucket, for which there is room.
fn with_bucket(
    alloc: Global,
    database: &Database,
    name: &[u8],
    kind: Kind,
) -> Result<Database, StoreRefusal>
    requires room { length database.now.buckets < most_buckets }
    requires name { bucket_name_fault name.now ≡ None }
    requires kind { is_bad (layout.heading name.now kind.0) ≡ false }
    ensures next { IfOk result (λ next. next ≡ with_bucket (layout.heading name.now kind.0) database.now) }
    ensures more { IfOk result (λ next. length next.buckets ≤ length database.now.buckets + 1) }
    ensures refused { IfErr result IsMemory }
{
    let _ = database.buckets();
    let name = match bucket_name(alloc, name) {
        Ok(name) => name,
        Err(error) => return Err(StoreRefusal::Memory(error)),
    };
    let fallback = PolicyResult::without_metadata(alloc, kind);
    match database.set_bucket(&name, &fallback) {
        Ok(next) => Ok(next),
        Err(refusal) => Err(refusal),
    }
}

// The policies that link the buckets.
fn link_changes(alloc: Global) -> Result<Vec<Change>, AllocError>
    ensures { IfOk result (λ changes. changes.items ≡ link_changes) }
{
    let mut changes = Vec::with_capacity(alloc, 6)?;
    changes.push(root_link(alloc)?)?;
    changes.push(all_to(alloc, MAIN, MANIFESTS)?)?;
    changes.push(all_to(alloc, SYSTEM, ADMIN)?)?;
    changes.push(all_to(alloc, ADMINS, ADMIN)?)?;
    changes.push(all_to(alloc, NORMAL, ADMIN)?)?;
    changes.push(all_to(alloc, GUEST, ADMIN)?)?;
    Ok(changes)
}

fn root_link(alloc: Global) -> Result<Change, AllocError>
    ensures { IfOk result (λ change. change ≡ set_link [] layout.main) }
{
    Ok(Change::Set {
        bucket: BucketName::root(alloc),
        key: all_key(alloc)?,
        result: link_to(alloc, MAIN)?,
    })
}

// All questions of a bucket go to another one.
fn all_to(alloc: Global, from: &[u8], target: &[u8]) -> Result<Change, AllocError>
    requires from { bucket_name_fault from.now ≡ None }
    requires text { metadata_fault target.now ≡ None }
    requires name { is_bucket_name target.now ≡ true }
    ensures { IfOk result (λ change. change ≡ set_link from.now target.now) }
{
    Ok(Change::Set {
        bucket: bucket_name(alloc, from)?,
        key: all_key(alloc)?,
        result: link_to(alloc, target)?,
    })
}

fn all_key(alloc: Global) -> Result<Key, AllocError>
    ensures { IfOk result (λ key. key ≡ all_key) }
{
    Key::of_fields(alloc, &Field::Any, &Field::Any, &Field::Any)
}
