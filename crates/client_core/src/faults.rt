// What is wrong with what the service sent.
ghost use Rattle.std.specs.Prelude.{◌≡◌};
ghost use Rattle.client_core.specs.Hearing as hearing;
ghost use Rattle.client_core.specs.Asking as does;

use crate::steps::Fault;
use wire_messages::{Framed, Message, WireRefusal};

/// What bytes that are no frame come to.
pub(crate) fn fault_by(refusal: WireRefusal) -> Fault
    ensures { result ≡ hearing.fault_by refusal }
{
    match refusal {
        WireRefusal::Memory(error) => Fault::Memory(error),
        fault => Fault::Frame(fault),
    }
}

// The commit that a reply to a check tells; none of another message.
fn commit_of(message: &Message) -> Option<u64>
    ensures { result ≡ does.commit_of message.now }
{
    match message {
        Message::Judged { verdict } => Some(verdict.commit()),
        Message::FromAgent { commit, .. } => Some(*commit),
        Message::NotResolved { commit, .. } => Some(*commit),
        Message::NoAgent { commit, .. } => Some(*commit),
        Message::AgentGone { commit, .. } => Some(*commit),
        Message::AgentFull { commit, .. } => Some(*commit),
        _ => None,
    }
}

/// What is wrong with a reply to the check of this sequence number, by a client that was told of this commit.
pub(crate) fn fault_in(sequence: u16, told: u64, framed: &Framed) -> Option<Fault>
    ensures { result ≡ does.fault_in sequence told framed.now }
{
    if framed.sequence != sequence {
        return Some(Fault::Sequence {
            sent: sequence,
            got: framed.sequence,
        });
    }
    let Some(got) = commit_of(&framed.message) else {
        return Some(Fault::Operation(framed.message.operation()));
    };
    if got < told {
        return Some(Fault::Older { told, got });
    }
    None
}
