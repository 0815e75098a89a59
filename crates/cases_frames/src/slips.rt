// A right frame with another byte at a place.
use crate::refusals::{refusal, short_text};
use cases_words::{Failure, frame_bytes};
use std::alloc::Global;
use wire_messages::Heard;

// What refuses the frame with another byte at the place.
fn slip(
    alloc: Global,
    heard: Heard,
    frame: &[u8],
    place: u32,
    byte: u8,
) -> Result<String, Failure> {
    let mut changed = frame.to_vec(alloc)?;
    match changed.get_mut(place as usize) {
        Some(old) => *old = byte,
        None => return Err(Failure::Words),
    }
    Ok(short_text(alloc, refusal(alloc, heard, &changed))?)
}

fn slip_of(alloc: Global, heard: Heard, frame: &[u8], word: &str) -> Result<String, Failure> {
    let Some((place, byte)) = word.split_once("=") else {
        return Err(Failure::Words);
    };
    let Ok(place) = place.parse::<u32>() else {
        return Err(Failure::Words);
    };
    match frame_bytes(alloc, byte)?.first() {
        Some(byte) => slip(alloc, heard, frame, place, *byte),
        None => Err(Failure::Words),
    }
}

/// What refuses the frame with each of these slips, a word `PLACE=BYTE` for each.
pub fn slips(alloc: Global, heard: Heard, frame: &[u8], words: &str) -> Result<String, Failure> {
    let mut text = String::new(alloc);
    for word in words.split(' ') {
        if !text.is_empty() {
            text.push_str(", ")?;
        }
        text.push_str(slip_of(alloc, heard, frame, word)?.as_str())?;
    }
    Ok(text)
}
