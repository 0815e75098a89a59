ghost use Rattle.std.specs.Prelude.{◌≡◌, length, IsTrue, IsFalse, IfOk, IfErr, OnOk, None};
ghost use Rattle.std.specs.List.{position};
ghost use Rattle.cynara_keys.specs.Text.{same_text};
ghost use Rattle.bucket_store.specs.Database.{fresh, database_of};
ghost use Rattle.bucket_store.specs.Change.{listed};
ghost use Rattle.bucket_store.specs.Refusal as request;
ghost use Rattle.bucket_store.specs.Refusal.{fault, Refuses};
ghost use Rattle.bucket_store.specs.WellFormed.{IsWellFormed, IsKept};
ghost use Rattle.bucket_store.specs.parts.Naming.{NamesAbsent, NamesCycle};

mod made;

use crate::batches::{adds_link, changed_buckets, is_over};
use crate::buckets::Bucket;
use crate::copies::all_buckets;
use crate::cycles::least_on_cycle;
use crate::edits::{has_room, is_bad, with_heading, with_policies, without_bucket};
use crate::endings::changes_end;
use crate::limits::{MOST_BUCKETS, MOST_POLICIES};
use crate::named::all_named;
use crate::one_bucket::place_of_changes;
use crate::searches::place_of_bucket;
use crate::selections::{admitted, not_admitted};
use crate::{Change, StoreRefusal};
use cynara_keys::{BucketName, Counted, Filter, Kind, Policy, PolicyResult};
pub use made::has_cycle;
use std::alloc::{AllocError, Global};
use std::marker::Model;

/// The policy database: at most 1,024 buckets in rising order of name, and at most 65,536 policies over all of them.
/// Each change gives a new one, which shares with this one the buckets that it does not touch; so a refusal changes
/// nothing.
#[derive(Drop)]
pub struct Database {
    buckets: Vec<Bucket>,
}

impl Model for Database {
    ghost use Rattle.bucket_store.specs.Database.{Database as Content, database_of};
    ghost use Rattle.bucket_store.specs.WellFormed.{IsKept};

    ghost Value = { Content };

    ghost view = { λ database. database_of database.buckets.items };

    ghost invariant = { λ database. IsKept database.buckets.items };
}

/// What an erasing gives: the database without the policies, and how many they were.
#[derive(Drop)]
pub struct Erased {
    /// The database without them.
    pub database: Database,
    /// How many were erased.
    pub count: u32,
}

impl Database {
    /// The root bucket alone, with the fallback DENY and no policies.
    pub fn fresh(alloc: Global) -> Result<Database, AllocError>
        ensures { IfOk result (λ database. database ≡ fresh) }
    {
        let root = Bucket::new(
            alloc,
            BucketName::root(alloc),
            PolicyResult::without_metadata(alloc, Kind::DENY),
            Vec::new(alloc),
        )?;
        Ok(Database {
            buckets: vec![in alloc; root]?,
        })
    }

    /// The buckets, in rising order of name.
    pub fn buckets(&self) -> &[Bucket]
        ensures buckets { database_of result.now ≡ self.now }
        ensures in_order { IsKept result.now }
        ensures well_formed { IsWellFormed self.now }
    {
        &self.buckets
    }

    /// Where the bucket of this name stands, from 0. Takes no memory.
    pub fn place(&self, name: &BucketName) -> Option<usize>
        ensures { result ≡ position (λ heading. same_text heading.name name.now) self.now.buckets }
    {
        place_of_bucket(&self.buckets, name).ok()
    }

    /// An equal database, which shares all buckets with this one.
    pub fn copy(&self) -> Result<Database, AllocError>
        ensures { IfOk result (λ copy. copy ≡ self.now) }
    {
        Ok(Database {
            buckets: all_buckets(*self.buckets.allocator(), &self.buckets)?,
        })
    }

    /// The policies of the bucket whose keys the filter admits, in order of key. Refuses `NoBucket`.
    pub fn list(&self, name: &BucketName, filter: &Filter) -> Result<Vec<Policy>, StoreRefusal>
        ensures list { IfOk result (λ policies. policies.items ≡ listed name.now filter.now self.now) }
        ensures accepted { OnOk result (fault self.now (request.list name.now self.now) ≡ None) }
        ensures refused { IfErr result (Refuses self.now (request.list name.now self.now)) }
    {
        let Ok(place) = place_of_bucket(&self.buckets, name) else {
            return Err(no_bucket(name));
        };
        let bucket = &self.buckets[place];
        match admitted(*self.buckets.allocator(), bucket.policies(), filter) {
            Ok(policies) => Ok(policies),
            Err(error) => Err(StoreRefusal::Memory(error)),
        }
    }

    /// Makes a bucket with this fallback and no policies, or changes the fallback of the one that is there. Refuses, in
    /// this order, `BadKind` and `Limit`.
    pub fn set_bucket(
        &self,
        name: &BucketName,
        fallback: &PolicyResult,
    ) -> Result<Database, StoreRefusal>
        ensures next { IfOk result (λ next. next ≡ (request.set_bucket name.now fallback.now self.now).next) }
        ensures accepted { OnOk result (fault self.now (request.set_bucket name.now fallback.now self.now) ≡ None) }
        ensures refused { IfErr result (Refuses self.now (request.set_bucket name.now fallback.now self.now)) }
    {
        if is_bad(name, fallback) {
            return Err(StoreRefusal::BadKind(fallback.kind()));
        }
        let place = place_of_bucket(&self.buckets, name);
        if !has_room(&self.buckets, &place) {
            return Err(StoreRefusal::Limit(Counted::Buckets, MOST_BUCKETS as u64));
        }
        match with_heading(
            *self.buckets.allocator(),
            &self.buckets,
            place,
            name,
            fallback,
        ) {
            Ok(buckets) => Ok(Database { buckets }),
            Err(error) => Err(StoreRefusal::Memory(error)),
        }
    }

    /// Removes a bucket with its policies, and the policies of all buckets that point to it. Refuses, in this order,
    /// `NoBucket` and `RootBucket`.
    pub fn remove_bucket(&self, name: &BucketName) -> Result<Database, StoreRefusal>
        ensures next { IfOk result (λ next. next ≡ (request.remove_bucket name.now self.now).next) }
        ensures accepted { OnOk result (fault self.now (request.remove_bucket name.now self.now) ≡ None) }
        ensures refused { IfErr result (Refuses self.now (request.remove_bucket name.now self.now)) }
    {
        let Ok(_) = place_of_bucket(&self.buckets, name) else {
            return Err(no_bucket(name));
        };
        if name.as_slice().is_empty() {
            return Err(StoreRefusal::RootBucket);
        }
        match without_bucket(*self.buckets.allocator(), &self.buckets, name) {
            Ok(buckets) => Ok(Database { buckets }),
            Err(error) => Err(StoreRefusal::Memory(error)),
        }
    }

    /// Erases the policies of the bucket whose keys the filter admits. Refuses `NoBucket`.
    pub fn erase(&self, name: &BucketName, filter: &Filter) -> Result<Erased, StoreRefusal>
        ensures next { IfOk result
            (λ erased. erased.database ≡ (request.erase name.now filter.now self.now).next) }
        ensures count { IfOk result (λ erased. erased.count ≡ length (listed name.now filter.now self.now)) }
        ensures accepted { OnOk result (fault self.now (request.erase name.now filter.now self.now) ≡ None) }
        ensures refused { IfErr result (Refuses self.now (request.erase name.now filter.now self.now)) }
    {
        let Ok(place) = place_of_bucket(&self.buckets, name) else {
            return Err(no_bucket(name));
        };
        let alloc = *self.buckets.allocator();
        let bucket = &self.buckets[place];
        let left = match not_admitted(alloc, bucket.policies(), filter) {
            Ok(left) => left,
            Err(error) => return Err(StoreRefusal::Memory(error)),
        };
        let count = (bucket.policies().len() - left.len()) as u32;
        match with_policies(alloc, &self.buckets, place, left) {
            Ok(buckets) => Ok(Erased {
                database: Database { buckets },
                count,
            }),
            Err(error) => Err(StoreRefusal::Memory(error)),
        }
    }

    /// Makes the changes in their order, so that the last for a key wins; a `Delete` of an absent key changes nothing.
    /// Refuses, in this order and each over all changes, `NoBucket` (a change's own bucket before the one that its
    /// result points to), `Limit` and `Cycle`.
    pub fn set_policies(&self, changes: &[Change]) -> Result<Database, StoreRefusal>
        ensures next { IfOk result (λ next. next ≡ (request.set_policies changes.now self.now).next) }
        ensures accepted { OnOk result (fault self.now (request.set_policies changes.now self.now) ≡ None) }
        ensures refused { IfErr result (Refuses self.now (request.set_policies changes.now self.now)) }
    {
        let alloc = *self.buckets.allocator();
        if let Err(refusal) = all_named(alloc, &self.buckets, changes) {
            return Err(refusal);
        }
        let buckets = match changed_buckets(alloc, &self.buckets, changes) {
            Ok(buckets) => buckets,
            Err(error) => return Err(StoreRefusal::Memory(error)),
        };
        if is_over(&buckets) {
            return Err(StoreRefusal::Limit(Counted::Policies, MOST_POLICIES as u64));
        }
        if !adds_link(changes) {
            return Ok(Database { buckets });
        }
        match changes_end(alloc, &buckets, changes) {
            Ok(true) => return Ok(Database { buckets }),
            Ok(false) => {}
            Err(error) => return Err(StoreRefusal::Memory(error)),
        }
        match least_on_cycle(alloc, &buckets) {
            Ok(None) => Ok(Database { buckets }),
            Ok(Some(at)) => Err(on_cycle(&buckets[at])),
            Err(error) => Err(StoreRefusal::Memory(error)),
        }
    }

    /// Makes the changes in this database, where that can be done without a copy: they are at most 32, all of one
    /// bucket that no other database shares, none puts a policy that points to a bucket, and there are room and memory
    /// for them. Says whether it did. Where it did not nothing has changed, and `set_policies` makes the changes, or
    /// says why not.
    pub fn change_in_place(&mut self, changes: &[Change]) -> bool
        ensures next { IsTrue result → self.new ≡ (request.set_policies changes.now self.old).next }
        ensures accepted { IsTrue result → fault self.old (request.set_policies changes.now self.old) ≡ None }
        ensures kept { IsFalse result → self.new ≡ self.old }
    {
        let alloc = *self.buckets.allocator();
        let Some(at) = place_of_changes(alloc, &self.buckets, changes) else {
            return false;
        };
        if !self.buckets[at].edit(changes) {
            return false;
        }
        true
    }
}

// The refusal of a bucket that is not there.
fn no_bucket(name: &BucketName) -> StoreRefusal
    ensures { NamesAbsent name.now result }
{
    match name.copy() {
        Ok(name) => StoreRefusal::NoBucket(name),
        Err(error) => StoreRefusal::Memory(error),
    }
}

// The refusal of a bucket that would be on a cycle.
fn on_cycle(bucket: &Bucket) -> StoreRefusal
    ensures { NamesCycle bucket.now.name result }
{
    match bucket.name().copy() {
        Ok(name) => StoreRefusal::Cycle(name),
        Err(error) => StoreRefusal::Memory(error),
    }
}
