ghost use Rattle.std.specs.Prelude.{◌≡◌, alloc_error};
ghost use Rattle.wire_fields.specs.declared.refusals.WireRefusal.TheVariants.{Memory};

use std::alloc::{AllocError, AllocFailed};
use thiserror::Error;

/// Why bytes are no frame of the side that hears them: the first fault from left to right. Places count from the
/// frame's first byte, from 0, and name the first byte of a field.
#[derive(Clone, Copy, Debug, PartialEq, Eq, Error)]
pub enum WireRefusal {
    /// The length of the frame, which is below 3.
    #[error("a frame of length {0} has no room for its sequence number and its operation")]
    TooShort(u32),
    /// The length of the frame, which is above 1,048,576.
    #[error("a frame of length {0} is longer than 1048576")]
    TooLong(u32),
    /// The number of the operation, which is not known at this side.
    #[error("the operation {0} is not known here")]
    BadOperation(u8),
    /// The place of the field that runs past the frame or is not of its type.
    #[error("the field at byte {0} of the frame, counted from 0, is wrong")]
    BadField(u32),
    /// The place of the first byte behind the last field.
    #[error("bytes follow the last field of the frame, from byte {0}, counted from 0")]
    Trailing(u32),
    #[error("out of memory")]
    Memory(AllocError),
}

impl From<AllocError> for WireRefusal {
    ghost from_gives = { λ error refusal. refusal ≡ Memory error };

    fn from(error: AllocError) -> WireRefusal {
        WireRefusal::Memory(error)
    }
}

impl<T: Drop> From<AllocFailed<T>> for WireRefusal {
    ghost from_gives = { λ _ refusal. refusal ≡ Memory alloc_error };

    fn from(failed: AllocFailed<T>) -> WireRefusal {
        WireRefusal::Memory(AllocError::from(failed))
    }
}

/// Why a message is not spelled.
#[derive(Clone, Copy, Debug, PartialEq, Eq, Error)]
pub enum EncodeRefusal {
    /// The length that the frame would have, which is above 1,048,576.
    #[error("the frame would have the length {0}, and may have 1048576")]
    TooLong(u64),
    #[error("out of memory")]
    Memory(AllocError),
}
