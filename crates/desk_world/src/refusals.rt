use std::alloc::AllocError;
use thiserror::Error;

/// Why a list of events is not run to its end.
#[derive(Clone, Copy, Debug, PartialEq, Eq, Error)]
pub enum WorldRefusal {
    /// The place of the first event that is not enabled, from 0.
    #[error("event {0}, counted from 0, is not enabled")]
    NotEnabled(usize),
    #[error("out of memory")]
    Memory(AllocError),
}

/// The limit of questions that wait for an agent, as the agents' table has it.
pub const MOST_WAITING: u32 = 1024;

/// The limit of numbers in a run, as the agents' table has it.
pub const MOST_ENTRIES: u32 = 4_294_967_295;
