// Why a data base is none.
use std::alloc::AllocError;

/// Why a file is not as Cynara writes it.
#[derive(Clone, Copy, Debug, PartialEq, Eq)]
pub enum ImportFault {
    /// The line of this number, from 1, has not as many fields as it must, or its kind is no number.
    Line(u32),
    /// `buckets` has no line of the root, whose name is empty. Cynara always writes it, so the file was cut.
    NoRoot,
    Memory(AllocError),
}

impl From<AllocError> for ImportFault {
    fn from(error: AllocError) -> ImportFault {
        ImportFault::Memory(error)
    }
}
