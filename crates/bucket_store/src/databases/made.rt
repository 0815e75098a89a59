// A database made from its buckets, as where it is read.
ghost use Rattle.std.specs.Prelude.{◌≡◌, is_some, IfOk};
ghost use Rattle.std.specs.List.{AllByRecursion};
ghost use Rattle.std.specs.List.Sorted.{IsStrictlySortedBy};
ghost use Rattle.bucket_store.specs.Database.{database_of};
ghost use Rattle.bucket_store.specs.Order.{bucket_cmp};
ghost use Rattle.bucket_store.specs.Refusal as rule;
ghost use Rattle.bucket_store.specs.WellFormed.{IsKept, IsRooted};

use crate::buckets::Bucket;
use crate::cycles::least_on_cycle;
use crate::databases::Database;
use std::alloc::{AllocError, Global};

impl Database {
    /// The database of these buckets, which keep its rules. Takes no memory.
    pub fn of(buckets: Vec<Bucket>) -> Database
        requires { IsKept buckets.items }
        ensures { result ≡ database_of buckets.items }
    {
        Database { buckets }
    }
}

/// Whether one of these buckets, whose names rise, reaches itself along policies that point to a bucket.
pub fn has_cycle(alloc: Global, buckets: &[Bucket]) -> Result<bool, AllocError>
    requires names_rise { IsStrictlySortedBy bucket_cmp buckets.now }
    requires rooted { AllByRecursion (IsRooted (database_of buckets.now)) (database_of buckets.now).policies }
    ensures { IfOk result (λ has. has ≡ is_some (rule.cycle (database_of buckets.now))) }
{
    match least_on_cycle(alloc, buckets) {
        Ok(None) => Ok(false),
        Ok(Some(_)) => Ok(true),
        Err(error) => Err(error),
    }
}
