/// The most bytes of the name of a client, a user or a privilege.
pub const MOST_NAME_BYTES: usize = 255;

/// The most bytes of the name of a bucket.
pub const MOST_BUCKET_NAME_BYTES: usize = 64;

/// The most bytes of metadata.
pub const MOST_METADATA_BYTES: usize = 255;

/// The most bytes of a `Short`.
pub const MOST_SHORT_BYTES: usize = 255;

/// What a limit of the policy state counts. Where several limits are passed at once, the first of these is named.
#[derive(Clone, Copy, Debug, PartialEq, Eq, PartialOrd, Ord)]
pub enum Counted {
    /// Accepted changes, since the state was made.
    Commits,
    /// Registered users.
    Users,
    /// Installed packages.
    Packages,
    /// Installs: an application of a package, for one user or for all.
    Installs,
    /// Privileges granted to an install.
    Grants,
    /// Buckets, the root bucket with them.
    Buckets,
    /// Policies, over all buckets.
    Policies,
}
