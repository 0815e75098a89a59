use cynara_keys::{Kind, Question};
use desk_state::Command;

/// One atomic step of the running service or of a client. Clients, links, asks and log entries go by number, from 0.
#[derive(Drop)]
pub enum Event {
    /// One half of the making of a connection.
    Connect {
        half: Half,
    },
    /// A client's call of `check`, or of `simple_check`, begins.
    Ask {
        client: u32,
        question: Question,
        simple: bool,
    },
    /// The client finds its link up and takes the verdict of this entry of its cache: the step of `is_up` in its call.
    Hit {
        client: u32,
        entry: u32,
    },
    /// The client sends its question on its link.
    Send {
        client: u32,
    },
    /// The worker of the link takes the published policies with this commit and evaluates the question: its seat's
    /// reading.
    Read {
        link: u32,
        commit: u64,
    },
    /// The worker sends the reply on its link.
    Write {
        link: u32,
    },
    /// The client receives the reply: its call returns.
    Deliver {
        client: u32,
    },
    /// The client finds its link closed, gives it back and empties its cache.
    Notice {
        client: u32,
    },
    /// A link is closed by either end: by the client's giving back, or by the roll where the worker leaves it.
    Lose {
        link: u32,
    },
    /// The admin worker stores the state that an accepted command leads to, and the disk holds it.
    Stored {
        command: Command,
    },
    /// The store failed in the middle: a recovery will find the state that the command leads to, or the one before.
    Undecided {
        command: Command,
    },
    /// The recovery after it finds the new state, or the one before.
    Decide {
        kept: bool,
    },
    /// The admin worker publishes the last state to all readers.
    Publish,
    /// The admin worker hangs up every connection that entered before the published commit, under the roll's lock.
    Hang,
    /// The admin worker answers that the command is done.
    Acknowledge,
    /// An agent registers for a kind.
    AgentJoin {
        kind: Kind,
    },
    /// The worker of the link puts its question to the agent, in the agents' table: `full` is the limit that refuses
    /// it, if one does.
    AgentPut {
        link: u32,
        full: Option<u32>,
    },
    /// An agent answers the question of this number.
    AgentReply {
        number: u32,
        allowed: bool,
    },
    /// The worker of the link finds it closed, and takes back the question that waits for an agent's answer: the check
    /// has no reply.
    AgentWithdraw {
        link: u32,
    },
    /// The agent of the kind leaves.
    AgentLeave {
        kind: Kind,
    },
    /// The service stops at any moment, in the middle of storing the command or not, and starts again from what the
    /// disk kept.
    Stop {
        command: Option<Command>,
        kept: bool,
    },
    /// Somebody who knows of an acknowledged commit tells the client: `Client::tell`.
    Tell {
        client: u32,
        commit: u64,
    },
}

/// The two halves of the making of a connection.
#[derive(Clone, Copy, Debug, PartialEq, Eq)]
pub enum Half {
    /// The client dials a new link.
    Dial { client: u32 },
    /// The worker that accepted the link enters it in the roll of connections, under the roll's lock.
    Enter { link: u32 },
}
