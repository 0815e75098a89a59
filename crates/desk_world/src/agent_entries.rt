use cynara_keys::{Kind, Question};

/// A question that was put to an agent. The log keeps all of them, also over stops.
#[derive(Drop)]
pub struct AgentEntry {
    /// The run of the service in which it was put.
    pub run: u32,
    /// Its place among the entries of that run, from 0.
    pub number: u32,
    pub ask: u32,
    pub question: Question,
    pub kind: Kind,
    pub commit: u64,
    pub state: EntryState,
}

#[derive(Clone, Copy, Debug, PartialEq, Eq)]
pub enum EntryState {
    Open,
    /// The agent left, the question was withdrawn, or the service stopped, before there was an answer.
    Gone,
    Answered(bool),
}
