use app_registry::Ident;
use cynara_keys::{BucketName, Counted, Kind};
use std::alloc::AllocError;
use thiserror::Error;

/// Why a command is refused: the first of these that stands against it, in this order. A refused command changes
/// nothing.
#[derive(Debug, Drop, Error)]
pub enum Refusal {
    /// The bucket is kept by the layout, or would have the name of one that the layout makes.
    #[error("the bucket's name is reserved")]
    Reserved(BucketName),
    #[error("the layout is there already")]
    LayoutThere,
    #[error("there is no layout yet")]
    NoLayout,
    /// The first bucket that the command names and that is not there.
    #[error("a bucket that the command names is not there")]
    NoBucket(BucketName),
    #[error("the root bucket is not removed")]
    RootBucket,
    /// The fallback's kind: BUCKET, or NONE for the root bucket.
    #[error("a bucket's fallback is not BUCKET, and the root bucket's is not NONE")]
    BadKind(Kind),
    /// The user of this number is not there.
    #[error("user {0} is not known")]
    UnknownUser(u32),
    /// The application is installed in this other package.
    #[error("the application is installed in another package")]
    OtherPackage(Ident),
    /// The package is installed by this other author, or by none.
    #[error("the package is installed by another author")]
    OtherAuthor(Option<Ident>),
    /// The package is installed as one of this other kind: a hybrid one where this is true, else a plain one.
    #[error("the package is installed as one of the other kind")]
    OtherHybrid(bool),
    #[error("the application is not installed for the scope, or the package has no install")]
    NotInstalled,
    /// What there would be too many of, and how many there may be. Of several, the first in the order of `Counted`.
    #[error("there is room for {1} of them")]
    Limit(Counted, u64),
    /// The least name of a bucket that would reach itself.
    #[error("a bucket would reach itself along policies that point to a bucket")]
    Cycle(BucketName),
    #[error("out of memory")]
    Memory(AllocError),
}
