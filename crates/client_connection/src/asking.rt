use std::alloc::AllocError;
use wire_messages::{Framed, WireRefusal};

/// What became of a frame that was to be sent and answered. Contracts speak of it; no call gives one.
#[derive(Drop)]
pub enum Outcome<L: Drop> {
    /// This reply came over this link, which may be a new one.
    Replied {
        link: L,
        is_new: bool,
        framed: Framed,
    },
    /// What came is no frame of a reply, or no memory was found to read it. The link was given back.
    Wrong(WireRefusal),
    /// As many dials or links failed as there were tries. Whether the frame was tried to be sent on one.
    Unavailable {
        is_tried: bool,
    },
    /// A dial found no memory. Whether the frame was tried to be sent before.
    Memory {
        error: AllocError,
        is_tried: bool,
    },
}
