use cynara_keys::{BucketName, Counted, Kind};
use std::alloc::AllocError;
use thiserror::Error;

/// Why a change is refused, in the order in which the rules are tested, each over the whole request before the next. A
/// refused change leaves the database as it was.
#[derive(Debug, Drop, Error)]
pub enum StoreRefusal {
    /// The first bucket that the request names and that is not there.
    #[error("a bucket that the request names is not there")]
    NoBucket(BucketName),
    /// The request removes the root bucket.
    #[error("the root bucket is not removed")]
    RootBucket,
    /// The fallback's kind: BUCKET, or NONE for the root bucket.
    #[error("a bucket's fallback is not BUCKET, and the root bucket's is not NONE")]
    BadKind(Kind),
    /// What there would be too many of, and how many there may be.
    #[error("there would be more buckets or policies than the limit of {1}")]
    Limit(Counted, u64),
    /// The least name of a bucket that would reach itself.
    #[error("a bucket would reach itself along policies that point to a bucket")]
    Cycle(BucketName),
    /// Want of memory. No request that removes the root bucket or has a bad kind is answered so.
    #[error("out of memory")]
    Memory(AllocError),
}
