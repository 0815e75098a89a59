use desk_ports::FileName;
use std::alloc::AllocError;
use thiserror::Error;

/// Why a set of files is no policy state.
#[derive(Debug, Drop, Error)]
pub enum TextRefusal {
    /// The file with the first fault, and the number of its line, from 1. Where the file as a whole is wrong, also
    /// where it
    /// is absent, the line is 0.
    #[error("line {line} of a file is wrong")]
    Damaged { file: FileName, line: u32 },
    #[error("out of memory")]
    Memory(AllocError),
}
