use std::alloc::AllocError;
use thiserror::Error;

/// Why a line gave no step, or its words no value.
#[derive(Clone, Copy, Debug, PartialEq, Eq, Error)]
pub enum LineRefusal {
    /// The line is outside the grammar, where it stands.
    #[error("the line is outside the grammar of scripts")]
    Syntax,
    /// No memory for what the line says. The line may be in the grammar or outside it.
    #[error("out of memory")]
    Memory(AllocError),
}
