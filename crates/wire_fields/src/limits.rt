/// The least length of a frame: a sequence number and an operation.
pub const LEAST_LENGTH: u32 = 3;

/// The greatest length of a frame. The length counts what follows it.
pub const MOST_LENGTH: u32 = 1_048_576;

/// The most bytes of a frame, the four of its length with them.
pub const MOST_FRAME_BYTES: usize = 1_048_580;

/// The most bytes of a file in one reply `StateFile`.
pub const MOST_PART_BYTES: usize = 65_536;
