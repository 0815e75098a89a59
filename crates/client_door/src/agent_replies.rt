ghost use Rattle.std.specs.Prelude.{◌≡◌};
ghost use Rattle.client_door.specs.Check.{message_of, reply_of};
ghost use Rattle.client_door.specs.Recording.{decision_of};

use crate::Decision;
use cynara_keys::Kind;
use wire_messages::Message;

/// What a check is answered that the policies leave to an agent, with the commit of these policies.
#[derive(Clone, Copy, Debug, PartialEq, Eq)]
pub enum AgentReply {
    /// The agent decided: the number of the question that was put to it, and whether it allows.
    FromAgent {
        commit: u64,
        kind: Kind,
        number: u32,
        allowed: bool,
    },
    /// No agent of the kind is there.
    NoAgent {
        commit: u64,
        kind: Kind,
    },
    /// The agent left before it answered the question of the number.
    AgentGone {
        commit: u64,
        number: u32,
    },
    /// No further question can be put to an agent: so many are open, or so many numbers were given.
    AgentFull {
        commit: u64,
        kind: Kind,
        most: u32,
    },
}

impl AgentReply {
    /// What it decides, if the agent decided.
    pub fn decision(&self) -> Option<Decision>
        ensures { result ≡ decision_of self.now }
    {
        match *self {
            AgentReply::FromAgent {
                commit,
                kind,
                number: _,
                allowed,
            } => Some(Decision {
                commit,
                agent: Some(kind),
                allowed,
            }),
            AgentReply::NoAgent { .. } => None,
            AgentReply::AgentGone { .. } => None,
            AgentReply::AgentFull { .. } => None,
        }
    }

    /// The message that tells it.
    pub fn message(self) -> Message
        ensures { result ≡ message_of (reply_of self) }
    {
        match self {
            AgentReply::FromAgent {
                commit,
                kind,
                number,
                allowed,
            } => Message::FromAgent {
                commit,
                kind,
                number,
                allowed,
            },
            AgentReply::NoAgent { commit, kind } => Message::NoAgent { commit, kind },
            AgentReply::AgentGone { commit, number } => Message::AgentGone { commit, number },
            AgentReply::AgentFull { commit, kind, most } => {
                Message::AgentFull { commit, kind, most }
            }
        }
    }
}
