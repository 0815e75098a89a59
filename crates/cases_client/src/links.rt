// The links of a case, and what is told of them.
use cases_words::{Failure, fails, frame_bytes};
use desk_ports::Bytes;
use link_ports::{MemDial, MemLink};
use std::alloc::{AllocError, Global};

// Puts the bytes of a part, or so many times those behind its `*`.
fn put_part(alloc: Global, bytes: &mut Vec<u8>, part: &str) -> Result<(), Failure> {
    match part.split_once("*") {
        Some((count, text)) => {
            let Ok(count) = count.parse::<u32>() else {
                return Err(Failure::Words);
            };
            let piece = frame_bytes(alloc, text)?;
            for _ in 0..count {
                bytes.extend_from_slice(&piece)?;
            }
        }
        None => bytes.extend_from_slice(&frame_bytes(alloc, part)?)?,
    }
    Ok(())
}

// The bytes that are to come: parts with `+` between them.
fn to_come(alloc: Global, text: &str) -> Result<Bytes, Failure> {
    let mut bytes = Vec::new(alloc);
    for part in text.split('+') {
        put_part(alloc, &mut bytes, part)?;
    }
    Ok(Bytes::of(bytes))
}

fn link(alloc: Global, text: &str) -> Result<MemLink, Failure> {
    let Some((bytes, rest)) = text.split_once(":") else {
        return Err(Failure::Words);
    };
    let Some((closed_after, listed)) = rest.split_once(":") else {
        return Err(Failure::Words);
    };
    let Ok(closed_after) = closed_after.parse::<u64>() else {
        return Err(Failure::Words);
    };
    let bytes = to_come(alloc, bytes)?;
    let fails = fails(alloc, listed)?;
    Ok(MemLink::new(alloc, bytes, closed_after, fails)?)
}

/// The dialler of a case.
pub fn dial(alloc: Global, links: &str, listed: &str) -> Result<MemDial, Failure> {
    let mut made = Vec::new(alloc);
    for text in links.split('/') {
        if text != "-" {
            made.push(link(alloc, text)?)?;
        }
    }
    Ok(MemDial::new(alloc, made, fails(alloc, listed)?)?)
}

/// What a case tells of its dialler.
pub fn put_dial(alloc: Global, text: &mut String, dial: &MemDial) -> Result<(), AllocError> {
    let counts = format!(in alloc; "| dials {} faults {} back", dial.dials(), dial.faults())?;
    text.push_str(counts.as_str())?;
    for link in dial.given_back() {
        put_link(alloc, text, link)?;
    }
    Ok(())
}

/// Adds bytes in hexadecimal.
pub fn put_digits(alloc: Global, text: &mut String, bytes: &[u8]) -> Result<(), AllocError> {
    for byte in bytes {
        let digits = format!(in alloc; "{byte:02x}")?;
        text.push_str(digits.as_str())?;
    }
    Ok(())
}

fn put_link(alloc: Global, text: &mut String, link: &MemLink) -> Result<(), AllocError> {
    text.push(' ')?;
    put_digits(alloc, text, link.sent())?;
    let count = format!(in alloc; "/{}", link.received().len())?;
    text.push_str(count.as_str())
}
