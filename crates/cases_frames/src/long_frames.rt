// Frames of many deletions: the longest frame, and those that would be longer.
use crate::hearing::{heard_whole, spelled};
use bucket_store::{Change, Changes};
use cases_words::{Failure, put_some};
use desk_ports::Bytes;
use std::alloc::Global;
use wire_messages::{EncodeRefusal, Framed, Heard, Message, encode};

fn copies(alloc: Global, change: &Change, count: u32) -> Result<Vec<Change>, Failure> {
    let mut list = Vec::new(alloc);
    for _ in 0..count {
        list.push(change.copy()?)?;
    }
    Ok(list)
}

// The first change so many times, and the second.
fn repeated(alloc: Global, changes: &[Change], count: u32) -> Result<Changes, Failure> {
    let [first, second] = changes else {
        return Err(Failure::Words);
    };
    let mut list = copies(alloc, first, count)?;
    list.push(second.copy()?)?;
    Ok(Changes::of(list))
}

fn put_changes(list: &mut Vec<Framed>, changes: Changes) -> Result<(), Failure> {
    let message = Message::SetPolicies { changes };
    put_some(
        list,
        Some(Framed {
            sequence: 1,
            message,
        }),
    )
}

fn changes_of(framed: &Framed) -> Result<&Changes, Failure> {
    match &framed.message {
        Message::SetPolicies { changes } => Ok(changes),
        _ => Err(Failure::Words),
    }
}

// The changes of the one message, with the first so many times.
fn repeated_in(alloc: Global, list: &[Framed], count: u32) -> Result<Changes, Failure> {
    let [framed] = list else {
        return Err(Failure::Refused);
    };
    repeated(alloc, changes_of(framed)?.as_slice(), count)
}

// The message of two deletions, with the first so many times.
fn deletions(alloc: Global, count: u32, frame: &[u8]) -> Result<Vec<Framed>, Failure> {
    let two = heard_whole(alloc, Heard::AtAdmin, frame)?;
    let mut list = Vec::new(alloc);
    put_changes(&mut list, repeated_in(alloc, &two, count)?)?;
    Ok(list)
}

fn encoded(alloc: Global, list: &[Framed]) -> Result<Bytes, EncodeRefusal> {
    let [framed] = list else {
        return Err(EncodeRefusal::TooLong(0));
    };
    encode(alloc, framed)
}

fn is_heard(alloc: Global, frame: &[u8]) -> Result<bool, Failure> {
    let list = heard_whole(alloc, Heard::AtAdmin, frame)?;
    Ok(spelled(alloc, &list)?.as_slice() == frame)
}

fn heard_text(alloc: Global, frame: &[u8]) -> Result<String, Failure> {
    let heard = if is_heard(alloc, frame)? {
        "alike"
    } else {
        "otherwise"
    };
    Ok(format!(in alloc; "{} bytes, heard {heard}", frame.len())?)
}

/// How many bytes the frame has of two deletions, the first of them so many times, and whether it is heard; or why it
/// is refused.
pub fn long(alloc: Global, count: u32, frame: &[u8]) -> Result<String, Failure> {
    let list = deletions(alloc, count, frame)?;
    match encoded(alloc, &list) {
        Ok(frame) => heard_text(alloc, frame.as_slice()),
        Err(EncodeRefusal::Memory(error)) => Err(Failure::Memory(error)),
        Err(refusal) => Ok(format!(in alloc; "{refusal}")?),
    }
}
