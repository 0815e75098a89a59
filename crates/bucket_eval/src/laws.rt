//! What holds of evaluation in each database. These functions do nothing; their clauses are the laws.

ghost use Rattle.bucket_eval.specs.Cycles.{HasNoCycle};
ghost use Rattle.bucket_eval.specs.Depth.{DepthChangesNothing};

use bucket_store::Database;

/// A greater bound on depth changes no answer: what a bucket answers with less than so many policies in turn that point
/// to a bucket is the same for each bound that is not below the number of buckets.
pub fn depth_changes_nothing(database: &Database)
    ensures { DepthChangesNothing database.now }
{
    let _buckets = database.buckets();
}

/// No bucket leads to itself along policies that point to a bucket, by however many of them.
pub fn no_cycle(database: &Database)
    ensures { HasNoCycle database.now }
{
    let _buckets = database.buckets();
}
