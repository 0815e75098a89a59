use desk_ports::FileName;
use std::alloc::AllocError;
use thiserror::Error;

/// Why the policy state of a folder is not known.
#[derive(Debug, Drop, Error)]
pub enum KeeperRefusal {
    /// A call of the disk failed. Its count of faults rose by one.
    #[error("the disk failed")]
    StoreFault,
    /// The folder stands for no policy state: the file with the first fault, and the number of its line, from 1. The
    /// line is 0 where the file as a whole is wrong or absent.
    #[error("line {line} of a file in the folder is wrong")]
    Damaged { file: FileName, line: u32 },
    #[error("out of memory")]
    Memory(AllocError),
}
