ghost use Rattle.std.specs.Prelude.{◌≡◌};
ghost use Rattle.desk_ports.specs.declared.port_faults.PortFault.TheVariants.{Memory};

use std::alloc::AllocError;
use thiserror::Error;

/// Why a call of an object of the outside that may need memory was refused.
#[derive(Clone, Copy, Debug, PartialEq, Eq, Error)]
pub enum PortFault {
    /// The object failed. Its count of faults rose by one in that call.
    #[error("a call of the outside failed")]
    Failed,
    /// No memory was found. The object's count of faults stays.
    #[error("out of memory")]
    Memory(AllocError),
}

impl From<AllocError> for PortFault {
    ghost from_gives = { λ error fault. fault ≡ Memory error };

    fn from(error: AllocError) -> Self {
        PortFault::Memory(error)
    }
}
