ghost use Rattle.std.specs.Prelude.{◌≡◌};
ghost use Rattle.cynara_client.specs.Refusing.{keeps_link};

use bucket_eval::Verdict;
use client_connection::ReplyFault;
use cynara_keys::Kind;
use std::alloc::AllocError;
use thiserror::Error;

/// What a check is answered.
#[derive(Clone, Copy, Debug, PartialEq, Eq)]
pub enum Checked {
    /// The policies decide.
    Judged(Verdict),
    /// The agent of the kind decides, by its answer to the question of this number.
    FromAgent {
        commit: u64,
        kind: Kind,
        number: u32,
        allowed: bool,
    },
}

/// Why a check has no answer.
#[derive(Clone, Copy, Debug, PartialEq, Eq, Error)]
pub enum ClientRefusal {
    /// An agent of the kind would have to be asked, and a simple check asks none.
    #[error("an agent would have to be asked")]
    NotResolved { commit: u64, kind: Kind },
    /// No agent of the kind is there.
    #[error("no agent of this kind is there")]
    NoAgent { commit: u64, kind: Kind },
    /// The agent left before it answered the question of this number.
    #[error("the agent left before it answered question {number}")]
    AgentGone { commit: u64, number: u32 },
    /// No further question can be put to an agent of the kind.
    #[error("no more than {most} questions can be put to an agent")]
    AgentFull { commit: u64, kind: Kind, most: u32 },
    /// Three dials or links failed, as the dialler's count says.
    #[error("the service cannot be reached")]
    Unavailable,
    /// The reply is older than the commit that the client was told of.
    #[error("the reply is of commit {got}, and commit {told} was acknowledged")]
    Older { told: u64, got: u64 },
    #[error("{0}")]
    BadReply(ReplyFault),
    #[error("out of memory")]
    Memory(AllocError),
}

impl ClientRefusal {
    /// Whether the client keeps its link after this: the service refused, and its reply was right.
    pub fn keeps_link(&self) -> bool
        ensures { result ≡ keeps_link self.now }
    {
        matches!(
            self,
            ClientRefusal::NotResolved { .. }
                | ClientRefusal::NoAgent { .. }
                | ClientRefusal::AgentGone { .. }
                | ClientRefusal::AgentFull { .. }
        )
    }
}
