// The calls of an administrator's client.
use crate::answers::fault_text;
use crate::links::put_digits;
use admin_client::{AdminLink, AdminRefusal};
use bucket_store::{Change, Changes};
use cases_words::{Failure, frame_bytes, put_some};
use cynara_keys::{BucketName, Field, Key};
use desk_ports::Bytes;
use link_ports::MemDial;
use std::alloc::{AllocError, Global};
use wire_messages::{Feeder, Framed, Heard, Message, encode_message_into};

// So many times the change that deletes the policy of `c`, `u` and `p` from the root bucket.
fn changes(alloc: Global, count: u32) -> Result<Changes, Failure> {
    let bucket = BucketName::root(alloc);
    let client = Field::read(alloc, b"c")?;
    let user = Field::read(alloc, b"u")?;
    let privilege = Field::read(alloc, b"p")?;
    let key = Key::of_fields(alloc, &client, &user, &privilege)?;
    let mut list = Vec::new(alloc);
    for _ in 0..count {
        list.push(Change::Delete {
            bucket: bucket.copy()?,
            key: key.copy()?,
        })?;
    }
    Ok(Changes::of(list))
}

fn put_changes(list: &mut Vec<Framed>, changes: Changes) -> Result<(), Failure> {
    Ok(list.push(Framed {
        sequence: 0,
        message: Message::SetPolicies { changes },
    })?)
}

// Puts the message of a frame that an administrator sends.
fn put_message(alloc: Global, list: &mut Vec<Framed>, frame: &[u8]) -> Result<(), Failure> {
    let mut feeder = Feeder::new(alloc, Heard::AtAdmin);
    match feeder.feed(frame) {
        Ok(()) => put_some(list, feeder.take()),
        Err(_) => Err(Failure::Words),
    }
}

// The message of a word: `unset*N` for so many changes, or a frame.
fn message(alloc: Global, word: &str) -> Result<Vec<Framed>, Failure> {
    let mut list = Vec::new(alloc);
    match word.strip_prefix("unset*") {
        Some(count) => {
            let Ok(count) = count.parse::<u32>() else {
                return Err(Failure::Words);
            };
            put_changes(&mut list, changes(alloc, count)?)?;
        }
        None => put_message(alloc, &mut list, &frame_bytes(alloc, word)?)?,
    }
    Ok(list)
}

// The frame of a reply, with the sequence number 0.
fn put_reply(alloc: Global, text: &mut String, reply: &Message) -> Result<(), Failure> {
    let mut frame = Bytes::new(alloc);
    match encode_message_into(&mut frame, 0, reply) {
        Ok(()) => Ok(put_digits(alloc, text, frame.as_slice())?),
        Err(_) => Err(Failure::Refused),
    }
}

// How many replies there are, and the last one.
fn replies_text(alloc: Global, replies: &[Message]) -> Result<String, Failure> {
    let mut text = format!(in alloc; "{}:", replies.len())?;
    if let Some(last) = replies.last() {
        put_reply(alloc, &mut text, last)?;
    }
    Ok(text)
}

fn refusal_text(alloc: Global, refusal: &AdminRefusal) -> Result<String, AllocError> {
    match refusal {
        AdminRefusal::Unavailable => String::from_str(alloc, "unavailable"),
        AdminRefusal::BadReply(wrong) => fault_text(alloc, wrong),
        AdminRefusal::TooLong(length) => format!(in alloc; "too-long:{length}"),
        AdminRefusal::Memory(_) => String::from_str(alloc, "memory"),
    }
}

fn answer_text(
    alloc: Global,
    answer: &Result<Vec<Message>, AdminRefusal>,
) -> Result<String, Failure> {
    match answer {
        Ok(replies) => replies_text(alloc, replies),
        Err(refusal) => Ok(refusal_text(alloc, refusal)?),
    }
}

fn send(
    alloc: Global,
    link: &mut AdminLink<MemDial>,
    dial: &mut MemDial,
    list: &[Framed],
) -> Result<String, Failure> {
    let [framed] = list else {
        return Err(Failure::Words);
    };
    let answer = link.send(dial, &framed.message);
    answer_text(alloc, &answer)
}

/// What the calls answer.
pub fn answers(alloc: Global, dial: &mut MemDial, calls: &str) -> Result<String, Failure> {
    let mut link = AdminLink::new(alloc);
    send_each(alloc, &mut link, dial, calls)
}

fn send_each(
    alloc: Global,
    link: &mut AdminLink<MemDial>,
    dial: &mut MemDial,
    calls: &str,
) -> Result<String, Failure> {
    let mut text = String::new(alloc);
    for word in calls.split(',') {
        let list = message(alloc, word)?;
        let answer = send(alloc, link, dial, &list)?;
        text.push_str(answer.as_str())?;
        text.push_str(", ")?;
    }
    Ok(text)
}
