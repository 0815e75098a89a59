// What messages say.
use crate::hearing::{decoded, framed_text, spelled};
use bucket_eval::{Cause, Verdict};
use cases_words::{Failure, put_some};
use std::alloc::{AllocError, Global};
use wire_messages::{Framed, Heard, Message, PackedVerdict};

/// What the message of a frame says, its fields by name and its bytes as numbers.
pub fn shown(alloc: Global, heard: Heard, frame: &[u8]) -> Result<String, Failure> {
    let list = decoded(alloc, heard, frame)?;
    framed_text(alloc, &list)
}

fn put_text(text: &mut String, name: &str, bytes: &[u8]) -> Result<(), AllocError> {
    text.push_str(" ")?;
    text.push_str(name)?;
    text.push_str(" [")?;
    for byte in bytes {
        text.push(char::from(*byte))?;
    }
    text.push(']')
}

fn put_cause(text: &mut String, cause: &Cause) -> Result<(), AllocError> {
    put_text(text, "bucket", cause.bucket.as_slice())?;
    if let Some(row) = &cause.row {
        put_text(text, "client", row.client.as_slice())?;
        put_text(text, "user", row.user.as_slice())?;
        put_text(text, "privilege", row.privilege.as_slice())?;
    }
    Ok(())
}

fn verdict_text(alloc: Global, verdict: &Verdict) -> Result<String, AllocError> {
    let mut text = format!(in alloc; "commit {} kind {}", verdict.commit, verdict.answer.kind.0)?;
    put_text(&mut text, "metadata", verdict.answer.metadata.as_slice())?;
    put_cause(&mut text, &verdict.answer.cause)?;
    Ok(text)
}

fn packed_text(alloc: Global, verdict: &PackedVerdict) -> Result<String, AllocError> {
    let mut text = format!(in alloc; "commit {} kind {}", verdict.commit(), verdict.kind().0)?;
    put_text(&mut text, "metadata", verdict.metadata())?;
    put_text(&mut text, "bucket", verdict.bucket())?;
    if let Some(row) = verdict.row() {
        put_text(&mut text, "client", row.client())?;
        put_text(&mut text, "user", row.user())?;
        put_text(&mut text, "privilege", row.privilege())?;
    }
    Ok(text)
}

fn put_judged(
    list: &mut Vec<Framed>,
    sequence: u16,
    verdict: PackedVerdict,
) -> Result<(), Failure> {
    put_some(
        list,
        Some(Framed {
            sequence,
            message: Message::Judged { verdict },
        }),
    )
}

// Puts the message of the same verdict, kept by value and packed again.
fn put_again(list: &mut Vec<Framed>, alloc: Global, framed: &Framed) -> Result<(), Failure> {
    let Message::Judged { verdict } = &framed.message else {
        return Err(Failure::Words);
    };
    let verdict = PackedVerdict::pack(alloc, &verdict.verdict())?;
    put_judged(list, framed.sequence, verdict)
}

fn is_told_again(alloc: Global, list: &[Framed], frame: &[u8]) -> Result<bool, Failure> {
    let [framed] = list else {
        return Err(Failure::Refused);
    };
    let mut again = Vec::new(alloc);
    put_again(&mut again, alloc, framed)?;
    Ok(spelled(alloc, &again)?.as_slice() == frame)
}

// The two texts of the verdict, by value and as it is packed.
fn verdict_texts(alloc: Global, list: &[Framed]) -> Result<String, Failure> {
    let [framed] = list else {
        return Err(Failure::Refused);
    };
    let Message::Judged { verdict } = &framed.message else {
        return Err(Failure::Words);
    };
    let by_value = verdict_text(alloc, &verdict.verdict())?;
    let packed = packed_text(alloc, verdict)?;
    if by_value.as_str() == packed.as_str() {
        return Ok(packed);
    }
    Ok(format!(in alloc; "{by_value}, but packed {packed}")?)
}

/// What a verdict says, by value and as it is packed, and whether it is spelled alike when it is packed again.
pub fn verdict(alloc: Global, frame: &[u8]) -> Result<String, Failure> {
    let list = decoded(alloc, Heard::Replies, frame)?;
    let text = verdict_texts(alloc, &list)?;
    let again = if is_told_again(alloc, &list, frame)? {
        "alike"
    } else {
        "otherwise"
    };
    Ok(format!(in alloc; "{text}; {again}")?)
}
