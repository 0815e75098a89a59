use bucket_eval::Verdict;
use cynara_keys::Kind;

/// What a check is answered. Each reply carries the commit of the policies that it was made under.
#[derive(Clone, Copy, Debug, PartialEq, Eq)]
pub enum Reply {
    /// The policies decide.
    Judged(Verdict),
    /// The agent of the kind decides, by its answer to the question that was put under this number.
    FromAgent {
        commit: u64,
        kind: Kind,
        number: u32,
        allowed: bool,
    },
    /// An agent of the kind would decide, and a simple check asks none.
    NotResolved {
        commit: u64,
        kind: Kind,
    },
    /// An agent of the kind would decide, and none is there.
    NoAgent {
        commit: u64,
        kind: Kind,
    },
    /// The agent left before it answered the question of this number.
    AgentGone {
        commit: u64,
        number: u32,
    },
    /// An agent of the kind would decide, and no more than `most` questions are taken.
    AgentFull {
        commit: u64,
        kind: Kind,
        most: u32,
    },
}

/// A reply that a client was given: for which ask, and in which run of the service its link was dialled.
#[derive(Clone, Copy, Debug, PartialEq, Eq)]
pub struct Given {
    pub ask: u32,
    pub run: u32,
    pub reply: Reply,
}
