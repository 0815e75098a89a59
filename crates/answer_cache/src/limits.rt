/// The most entries of a cache.
pub const MOST_ENTRIES: u32 = 4096;
