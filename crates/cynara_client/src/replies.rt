// What a reply says to a check, and what it comes to that there is none.
ghost use Rattle.std.specs.Prelude.{◌≡◌};
ghost use Rattle.cynara_client.specs.Reply as words;

use crate::{Checked, ClientRefusal};
use client_connection::ReplyFault;
use client_core::Fault;
use wire_messages::Message;

// What a message answers to a check, and the commit that it tells.
#[derive(Clone, Copy)]
pub(crate) struct Said {
    pub commit: u64,
    pub answer: Result<Checked, ClientRefusal>,
}

// What the message answers, where it is one of the replies to a check.
pub(crate) fn said_by(message: &Message) -> Option<Said>
    ensures { result ≡ words.said message.now }
{
    match message {
        Message::Judged { verdict } => Some(Said {
            commit: verdict.commit(),
            answer: Ok(Checked::Judged(verdict.verdict())),
        }),
        Message::FromAgent {
            commit,
            kind,
            number,
            allowed,
        } => Some(Said {
            commit: *commit,
            answer: Ok(Checked::FromAgent {
                commit: *commit,
                kind: *kind,
                number: *number,
                allowed: *allowed,
            }),
        }),
        Message::NotResolved { commit, kind } => Some(Said {
            commit: *commit,
            answer: Err(ClientRefusal::NotResolved {
                commit: *commit,
                kind: *kind,
            }),
        }),
        Message::NoAgent { commit, kind } => Some(Said {
            commit: *commit,
            answer: Err(ClientRefusal::NoAgent {
                commit: *commit,
                kind: *kind,
            }),
        }),
        Message::AgentGone { commit, number } => Some(Said {
            commit: *commit,
            answer: Err(ClientRefusal::AgentGone {
                commit: *commit,
                number: *number,
            }),
        }),
        Message::AgentFull { commit, kind, most } => Some(Said {
            commit: *commit,
            answer: Err(ClientRefusal::AgentFull {
                commit: *commit,
                kind: *kind,
                most: *most,
            }),
        }),
        _ => None,
    }
}

// What a message that is a reply to a check answers.
pub(crate) fn answer_by(message: Message) -> Result<Checked, ClientRefusal>
    ensures { result ≡ words.answer_in message (words.said message) }
{
    let answer = match said_by(&message) {
        Some(said) => said.answer,
        None => Err(ClientRefusal::BadReply(ReplyFault::Operation(message.operation()))),
    };
    // Handed on by value, it is not gone through variant by variant here.
    drop(message);
    answer
}

// What it comes to that the machine has no answer.
pub(crate) fn refusal_by(fault: Fault) -> ClientRefusal
    ensures { result ≡ words.refusal_by fault }
{
    match fault {
        Fault::Unavailable => ClientRefusal::Unavailable,
        Fault::Older { told, got } => ClientRefusal::Older { told, got },
        Fault::Frame(refusal) => ClientRefusal::BadReply(ReplyFault::Frame(refusal)),
        Fault::Sequence { sent, got } => ClientRefusal::BadReply(ReplyFault::Sequence {
            sent,
            got,
        }),
        Fault::Operation(operation) => ClientRefusal::BadReply(ReplyFault::Operation(operation)),
        Fault::Memory(error) => ClientRefusal::Memory(error),
    }
}
