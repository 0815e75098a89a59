/// The most buckets of a database, the root bucket with them.
pub const MOST_BUCKETS: usize = 1_024;

/// The most policies of a database, over all buckets.
pub const MOST_POLICIES: usize = 65_536;
