// What a check answers, as a text.
use client_connection::ReplyFault;
use cynara_client::{Checked, ClientRefusal};
use std::alloc::{AllocError, Global};
use wire_messages::WireRefusal;

fn frame_fault(alloc: Global, fault: &WireRefusal) -> Result<String, AllocError> {
    match fault {
        WireRefusal::TooShort(length) => format!(in alloc; "bad:too-short:{length}"),
        WireRefusal::TooLong(length) => format!(in alloc; "bad:too-long:{length}"),
        WireRefusal::BadOperation(operation) => format!(in alloc; "bad:operation:{operation}"),
        WireRefusal::BadField(at) => format!(in alloc; "bad:field:{at}"),
        WireRefusal::Trailing(at) => format!(in alloc; "bad:trailing:{at}"),
        WireRefusal::Memory(_) => format!(in alloc; "memory"),
    }
}

/// What is wrong with a reply, as a text.
pub fn fault_text(alloc: Global, fault: &ReplyFault) -> Result<String, AllocError> {
    match fault {
        ReplyFault::Frame(fault) => frame_fault(alloc, fault),
        ReplyFault::Sequence { sent, got } => format!(in alloc; "bad:sequence:{sent}:{got}"),
        ReplyFault::Operation(operation) => format!(in alloc; "bad:answer:{operation}"),
    }
}

fn refusal(alloc: Global, refusal: &ClientRefusal) -> Result<String, AllocError> {
    match refusal {
        ClientRefusal::NotResolved { commit, kind } => {
            format!(in alloc; "not-resolved:{commit}:{}", kind.0)
        }
        ClientRefusal::NoAgent { commit, kind } => format!(in alloc;
            "no-agent:{commit}:{}",
            kind.0
        ),
        ClientRefusal::AgentGone { commit, number } => {
            format!(in alloc; "agent-gone:{commit}:{number}")
        }
        ClientRefusal::AgentFull { commit, kind, most } => {
            format!(in alloc; "agent-full:{commit}:{}:{most}", kind.0)
        }
        ClientRefusal::Unavailable => format!(in alloc; "unavailable"),
        ClientRefusal::Older { told, got } => format!(in alloc; "older:{told}:{got}"),
        ClientRefusal::BadReply(wrong) => fault_text(alloc, wrong),
        ClientRefusal::Memory(_) => format!(in alloc; "memory"),
    }
}

/// The answer as a text: what the reply said, or why there is none.
pub fn answer_text(
    alloc: Global,
    answer: &Result<Checked, ClientRefusal>,
) -> Result<String, AllocError> {
    match answer {
        Ok(Checked::Judged(verdict)) => {
            format!(in alloc; "judged:{}:{}", verdict.commit, verdict.answer.kind.0)
        }
        Ok(
            Checked::FromAgent {
                commit,
                kind,
                number,
                allowed,
            },
        ) => format!(in alloc; "agent:{commit}:{}:{number}:{allowed}", kind.0),
        Err(wrong) => refusal(alloc, wrong),
    }
}
