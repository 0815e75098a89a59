ghost use Rattle.std.specs.Prelude.{◌≡◌};
ghost use Rattle.admin_client.specs.Answers as words;

use client_connection::ReplyFault;
use client_core::Fault;
use std::alloc::AllocError;
use thiserror::Error;

/// Why a message has no answer.
#[derive(Clone, Copy, Debug, PartialEq, Eq, Error)]
pub enum AdminRefusal {
    /// The dial failed, or the link, before the answer was whole. Nothing is known of whether a command was accepted.
    #[error("the service cannot be reached")]
    Unavailable,
    #[error("{0}")]
    BadReply(ReplyFault),
    /// The length that the frame would have, which is above 1,048,576. Nothing was sent.
    #[error("the frame would have the length {0}, and may have 1048576")]
    TooLong(u64),
    #[error("out of memory")]
    Memory(AllocError),
}

// What it comes to that the machine has no answer. It is told of no commit, so no reply is too old.
pub(crate) fn refusal_of(fault: Fault) -> AdminRefusal
    requires { words.IsNoAge fault }
    ensures { result ≡ words.refusal_of fault }
{
    match fault {
        Fault::Unavailable => AdminRefusal::Unavailable,
        Fault::Older { .. } => unreachable!(),
        Fault::Frame(refusal) => AdminRefusal::BadReply(ReplyFault::Frame(refusal)),
        Fault::Sequence { sent, got } => AdminRefusal::BadReply(ReplyFault::Sequence { sent, got }),
        Fault::Operation(operation) => AdminRefusal::BadReply(ReplyFault::Operation(operation)),
        Fault::Memory(error) => AdminRefusal::Memory(error),
    }
}
