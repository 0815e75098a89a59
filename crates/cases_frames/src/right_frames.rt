// A frame that is right: read and spelled, whole and byte by byte, cut and made longer.
use crate::carried::kind_of_message;
use crate::hearing::{decoded, heard_in_bytes, heard_whole, spelled};
use crate::refusals::{refusal, short_text};
use cases_words::Failure;
use desk_ports::Bytes;
use std::alloc::Global;
use wire_messages::Heard;

fn alike(is_alike: bool) -> &'static str {
    if is_alike { "alike" } else { "otherwise" }
}

fn decodes(alloc: Global, heard: Heard, frame: &[u8]) -> Result<bool, Failure> {
    let list = decoded(alloc, heard, frame)?;
    Ok(spelled(alloc, &list)?.as_slice() == frame)
}

fn comes_whole(alloc: Global, heard: Heard, frame: &[u8]) -> Result<bool, Failure> {
    let list = heard_whole(alloc, heard, frame)?;
    Ok(spelled(alloc, &list)?.as_slice() == frame)
}

fn comes_in_bytes(alloc: Global, heard: Heard, frame: &[u8]) -> Result<bool, Failure> {
    let list = heard_in_bytes(alloc, heard, frame)?;
    Ok(spelled(alloc, &list)?.as_slice() == frame)
}

// The frame with this in the place of what follows its length, and a length that counts it.
fn with_length(alloc: Global, rest: &[u8], more: &[u8]) -> Result<Bytes, Failure> {
    let Ok(length) = u32::try_from(rest.len().saturating_add(more.len())) else {
        return Err(Failure::Words);
    };
    let mut frame = Bytes::new(alloc);
    frame.append(&length.to_be_bytes())?;
    frame.append(rest)?;
    frame.append(more)?;
    Ok(frame)
}

fn cut_text(alloc: Global, heard: Heard, rest: &[u8]) -> Result<String, Failure> {
    let cut = with_length(alloc, rest, &[])?;
    Ok(short_text(alloc, refusal(alloc, heard, cut.as_slice()))?)
}

// What refuses the frame cut to each number of bytes behind its operation, each answer with the first such number.
fn cuts(alloc: Global, heard: Heard, frame: &[u8]) -> Result<String, Failure> {
    let mut text = String::new(alloc);
    let mut last = String::new(alloc);
    for count in 7..frame.len() {
        let answer = cut_text(alloc, heard, &frame[4..count])?;
        if answer.as_str() != last.as_str() {
            text.push_str(format!(in alloc; " from {count} {answer},")?.as_str())?;
        }
        last = answer;
    }
    Ok(text)
}

/// What becomes of a right frame.
pub fn right(alloc: Global, heard: Heard, frame: &[u8]) -> Result<String, Failure> {
    let decoded = alike(decodes(alloc, heard, frame)?);
    let whole = alike(comes_whole(alloc, heard, frame)?);
    let in_bytes = alike(comes_in_bytes(alloc, heard, frame)?);
    let kind = kind_of_message(alloc, heard, frame)?;
    let cuts = cuts(alloc, heard, frame)?;
    let longer = with_length(alloc, &frame[4.min(frame.len())..], &[0])?;
    let longer = short_text(alloc, refusal(alloc, heard, longer.as_slice()))?;
    Ok(format!(in alloc; "{decoded} {whole} {in_bytes}, {kind}; cut{cuts} longer {longer}")?)
}
