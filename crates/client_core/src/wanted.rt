// Which replies a message of an administrator is to have.
ghost use Rattle.std.specs.Prelude.{◌≡◌};
ghost use Rattle.client_core.specs.AdminReplies as words;

use crate::steps::Fault;
use wire_messages::{Framed, Message};

/// The most rows of a list, and the most agents: there are no more policies, and no more kinds.
const MOST_ROWS: u32 = 65536;

/// The most parts of a policy state. A state of the greatest size has fewer.
const MOST_PARTS: u32 = 1_048_576;

/// What kind of answer a message is to have.
#[derive(Clone, Copy)]
pub(crate) enum Wanted {
    /// That a command is done or refused, or that the disk failed.
    Command,
    /// A verdict, or a refusal.
    Verdict,
    /// Rows and their count, or a refusal.
    Rows,
    /// The files of a policy state in parts, and then its commit.
    State,
    /// The agents that are there, and then how many workers there are.
    Service,
    /// That the service stops.
    Stop,
}

/// What follows from a reply.
#[derive(Clone, Copy)]
pub(crate) enum Next {
    More,
    Whole,
    Wrong(Fault),
}

/// What answer the message is to have.
pub(crate) fn wanted_of(message: &Message) -> Wanted
    ensures { result ≡ words.wanted_of message.now }
{
    match message {
        Message::Listing { .. } => Wanted::Rows,
        Message::ReadState => Wanted::State,
        Message::ReadService => Wanted::Service,
        Message::AdminCheck { .. } => Wanted::Verdict,
        Message::Stop => Wanted::Stop,
        _ => Wanted::Command,
    }
}

/// What follows from a reply behind so many rows, to a frame of this sequence number.
pub(crate) fn next_of(wanted: Wanted, sequence: u16, rows: u32, framed: &Framed) -> Next
    ensures { result ≡ words.next_of wanted sequence rows framed.now }
{
    if framed.sequence != sequence {
        return Next::Wrong(Fault::Sequence {
            sent: sequence,
            got: framed.sequence,
        });
    }
    if is_row(wanted, rows, &framed.message) {
        return Next::More;
    }
    if is_last(wanted, rows, &framed.message) {
        return Next::Whole;
    }
    Next::Wrong(Fault::Operation(framed.message.operation()))
}

// Whether the reply is a further row.
fn is_row(wanted: Wanted, rows: u32, reply: &Message) -> bool
    ensures { result ≡ words.is_row wanted rows reply.now }
{
    match wanted {
        Wanted::Rows => match reply {
            Message::ListRow { .. } => rows < MOST_ROWS,
            _ => false,
        },
        Wanted::State => match reply {
            Message::StateFile { .. } => rows < MOST_PARTS,
            _ => false,
        },
        Wanted::Service => match reply {
            Message::AgentHere { .. } => rows < MOST_ROWS,
            _ => false,
        },
        _ => false,
    }
}

// Whether the reply ends the answer.
fn is_last(wanted: Wanted, rows: u32, reply: &Message) -> bool
    ensures { result ≡ words.is_last wanted rows reply.now }
{
    match wanted {
        Wanted::Rows => match reply {
            Message::ListEnd { count } => *count == rows,
            Message::Refused { .. } => rows == 0,
            _ => false,
        },
        Wanted::State => match reply {
            Message::StateEnd { .. } => true,
            _ => false,
        },
        Wanted::Service => match reply {
            Message::ServiceEnd { .. } => true,
            _ => false,
        },
        Wanted::Verdict => match reply {
            Message::Judged { .. } => true,
            Message::Refused { .. } => true,
            _ => false,
        },
        Wanted::Stop => match reply {
            Message::Done { .. } => true,
            _ => false,
        },
        Wanted::Command => match reply {
            Message::Done { .. } => true,
            Message::Refused { .. } => true,
            Message::StoreFault => true,
            Message::StoreDamaged { .. } => true,
            _ => false,
        },
    }
}
