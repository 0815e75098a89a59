// Bytes in pieces.
use crate::hearing::put_taken;
use crate::refusals::short_text;
use cases_words::{Failure, frame_bytes};
use std::alloc::Global;
use wire_messages::{Feeder, Framed, Heard};

fn feed_text(alloc: Global, feeder: &mut Feeder, piece: &[u8]) -> Result<String, Failure> {
    let answer = feeder.feed(piece);
    let short = short_text(alloc, answer.err())?;
    Ok(format!(in alloc; "{short}, {} rest; ", feeder.rest())?)
}

// The sequence number of each message of a list, behind this front.
fn sequences(alloc: Global, front: &str, list: &[Framed]) -> Result<String, Failure> {
    let mut text = String::new(alloc);
    for framed in list {
        text.push_str(format!(in alloc; "{front}{}", framed.sequence)?.as_str())?;
    }
    Ok(text)
}

// The sequence numbers of the messages that wait, at most so many.
fn taken(alloc: Global, front: &str, most: u32, feeder: &mut Feeder) -> Result<String, Failure> {
    let mut list = Vec::new(alloc);
    for _ in 0..most {
        put_taken(&mut list, feeder)?;
    }
    sequences(alloc, front, &list)
}

/// What a feeder answers to each of these pieces, which stand between ` | `, and how many bytes rest then; and at last
/// which messages wait.
pub fn pieces(alloc: Global, heard: Heard, words: &str) -> Result<String, Failure> {
    let mut feeder = Feeder::new(alloc, heard);
    let mut text = String::new(alloc);
    for piece in words.split('|') {
        let bytes = frame_bytes(alloc, piece)?;
        text.push_str(feed_text(alloc, &mut feeder, &bytes)?.as_str())?;
    }
    text.push_str("messages")?;
    text.push_str(taken(alloc, " ", 16, &mut feeder)?.as_str())?;
    Ok(text)
}

// Feeds no more than is wanted, and gives what is left.
fn feed_wanted<'a>(
    alloc: Global,
    feeder: &mut Feeder,
    bytes: &'a [u8],
    text: &mut String,
) -> Result<&'a [u8], Failure> {
    let count = feeder.wanted().min(bytes.len());
    let (piece, left) = bytes.split_at(count);
    let answer = short_text(alloc, feeder.feed(piece).err())?;
    text.push_str(format!(in alloc; "{count} {answer}")?.as_str())?;
    text.push_str(taken(alloc, ", message ", 1, feeder)?.as_str())?;
    text.push_str("; ")?;
    Ok(left)
}

/// The bytes in pieces of what is wanted, at most 16 of them: how many bytes each has, what it is answered, and the
/// message that is heard with it. At last how many more are wanted.
pub fn wanted(alloc: Global, heard: Heard, bytes: &[u8]) -> Result<String, Failure> {
    let mut feeder = Feeder::new(alloc, heard);
    let mut text = String::new(alloc);
    let mut rest = bytes;
    for _ in 0..16 {
        if rest.is_empty() {
            break;
        }
        rest = feed_wanted(alloc, &mut feeder, rest, &mut text)?;
    }
    text.push_str(format!(in alloc; "{} wanted", feeder.wanted())?.as_str())?;
    Ok(text)
}
