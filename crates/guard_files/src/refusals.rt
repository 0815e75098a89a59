ghost use Rattle.std.specs.Prelude.{◌≡◌};
ghost use Rattle.guard_files.specs.Mounted.{refused};

use desk_ports::{FileName, PortFault};
use std::alloc::AllocError;
use thiserror::Error;

/// Why a store could not be mounted.
#[derive(Debug, Drop, Error)]
pub enum VaultRefusal {
    /// A call of the disk failed. Its count of faults rose by one.
    #[error("the disk failed")]
    StoreFault,
    /// The folder is damaged by this file: a list file that is none, or the first listed file that is absent.
    #[error("a file of the store is damaged")]
    Damaged { file: FileName },
    /// No memory was found.
    #[error("out of memory")]
    Memory(AllocError),
}

/// The refusal that a fault of the disk leads to.
pub fn refusal_of(fault: PortFault) -> VaultRefusal
    ensures { result ≡ refused fault }
{
    match fault {
        PortFault::Failed => VaultRefusal::StoreFault,
        PortFault::Memory(error) => VaultRefusal::Memory(error),
    }
}
