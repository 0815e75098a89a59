// Names as a note shows them.

use desk_ports::shown_bytes;
use std::alloc::{AllocError, Global};

/// The most bytes of a name that a note shows, which is all of each name.
const MOST_SHOWN: usize = 400;

/// A name of bytes, for a person.
pub fn shown(alloc: Global, name: &[u8]) -> Result<String, AllocError> {
    shown_bytes(alloc, name, MOST_SHOWN)
}
