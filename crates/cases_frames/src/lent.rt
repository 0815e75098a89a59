// What a message tells of itself, and frames that are spelled from parts of it.
use crate::hearing::{decoded, framed_text};
use bucket_eval::BorrowedAnswer;
use bucket_store::Change;
use cases_words::Failure;
use desk_ports::Bytes;
use std::alloc::Global;
use wire_messages::{
    EncodeRefusal, Framed, Heard, Message, encode_check_into, encode_judged_into,
    encode_message_into, encode_row_into, encode_verdict_into,
};

// The message spelled from its parts where they may be lent, and else as it is lent.
fn put_lent(frame: &mut Bytes, framed: &Framed) -> Result<(), Failure> {
    let sequence = framed.sequence;
    match &framed.message {
        Message::Check { question } => Ok(encode_check_into(frame, sequence, false, question)?),
        Message::SimpleCheck { question } => {
            Ok(encode_check_into(frame, sequence, true, question)?)
        }
        Message::Judged { verdict } => {
            Ok(encode_verdict_into(frame, sequence, &verdict.verdict())?)
        }
        Message::ListRow { policy } => Ok(encode_row_into(frame, sequence, policy)?),
        message => match encode_message_into(frame, sequence, message) {
            Ok(()) => Ok(()),
            Err(EncodeRefusal::Memory(error)) => Err(Failure::Memory(error)),
            Err(_) => Err(Failure::Refused),
        },
    }
}

fn told_of(alloc: Global, framed: &Framed, frame: &[u8]) -> Result<String, Failure> {
    let mut again = Bytes::new(alloc);
    put_lent(&mut again, framed)?;
    let alike = if again.as_slice() == frame {
        "alike"
    } else {
        "otherwise"
    };
    let operation = framed.message.operation();
    match framed.message.commit() {
        Some(commit) => Ok(format!(in alloc; "operation {operation}, commit {commit}, {alike}")?),
        None => Ok(format!(in alloc; "operation {operation}, {alike}")?),
    }
}

/// The number of the operation of a frame's message, the commit that it tells, and whether it is spelled alike from its
/// parts.
pub fn told(alloc: Global, heard: Heard, frame: &[u8]) -> Result<String, Failure> {
    let list = decoded(alloc, heard, frame)?;
    let [framed] = list.as_slice() else {
        return Err(Failure::Refused);
    };
    told_of(alloc, framed, frame)
}

fn put_judged(frame: &mut Bytes, commit: u64, message: &Message) -> Result<(), Failure> {
    match message {
        Message::SetBucket { bucket, fallback } => {
            let answer = BorrowedAnswer {
                result: fallback,
                bucket,
                key: None,
            };
            Ok(encode_judged_into(frame, 1, commit, &answer)?)
        }
        Message::SetPolicies { changes } => match changes.as_slice() {
            [
                Change::Set {
                    bucket,
                    key,
                    result: ruling,
                },
            ] => {
                let answer = BorrowedAnswer {
                    result: ruling,
                    bucket,
                    key: Some(key),
                };
                Ok(encode_judged_into(frame, 1, commit, &answer)?)
            }
            _ => Err(Failure::Words),
        },
        _ => Err(Failure::Words),
    }
}

/// What a reply says that is spelled from the one policy of a `SetPolicies`, or from the fallback of a `SetBucket`,
/// which decides at a commit.
pub fn judged(alloc: Global, commit: u32, frame: &[u8]) -> Result<String, Failure> {
    let list = decoded(alloc, Heard::AtAdmin, frame)?;
    let [framed] = list.as_slice() else {
        return Err(Failure::Refused);
    };
    let mut reply = Bytes::new(alloc);
    put_judged(&mut reply, u64::from(commit), &framed.message)?;
    framed_text(alloc, &decoded(alloc, Heard::Replies, reply.as_slice())?)
}
