use agent_table::PutRefusal;
use std::alloc::AllocError;
use thiserror::Error;

/// Why a check that was put to an agent has no answer of it.
#[derive(Clone, Copy, Debug, PartialEq, Eq, Error)]
pub enum AskRefusal {
    /// The question was not put. A stopped table is no such refusal, but `Stopped`.
    #[error("the question is not put: {0}")]
    Put(PutRefusal),
    /// The agent left before it answered the question of this number.
    #[error("the agent of question {0} has left")]
    Gone(u32),
    #[error("the service is stopped")]
    Stopped,
    /// The table has no question of the number that was put.
    #[error("the question {0} is lost")]
    Lost(u32),
    /// The link of whoever asked the question of this number was found down, and the question was taken away.
    #[error("whoever asked question {0} has left")]
    Withdrawn(u32),
}

/// Why an agent is given no question.
#[derive(Clone, Copy, Debug, PartialEq, Eq, Error)]
pub enum NextRefusal {
    #[error("the service is stopped")]
    Stopped,
    #[error("out of memory")]
    Memory(AllocError),
    /// The agent's link was found down.
    #[error("the agent has left")]
    Left,
}
