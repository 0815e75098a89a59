// The cases of what frames say and how they come, by their words.
use crate::sides::first_side;
use crate::{lent, long_frames, meanings, pieces};
use cases_words::{Failure, first_number, frame_bytes};
use std::alloc::Global;

fn show(alloc: Global, rest: &str) -> Result<String, Failure> {
    let (heard, rest) = first_side(rest)?;
    meanings::shown(alloc, heard, &frame_bytes(alloc, rest)?)
}

fn in_pieces(alloc: Global, rest: &str) -> Result<String, Failure> {
    let (heard, rest) = first_side(rest)?;
    pieces::pieces(alloc, heard, rest)
}

fn wants(alloc: Global, rest: &str) -> Result<String, Failure> {
    let (heard, rest) = first_side(rest)?;
    pieces::wanted(alloc, heard, &frame_bytes(alloc, rest)?)
}

fn tells(alloc: Global, rest: &str) -> Result<String, Failure> {
    let (heard, rest) = first_side(rest)?;
    lent::told(alloc, heard, &frame_bytes(alloc, rest)?)
}

fn judged(alloc: Global, rest: &str) -> Result<String, Failure> {
    let (commit, rest) = first_number(rest)?;
    lent::judged(alloc, commit, &frame_bytes(alloc, rest)?)
}

fn long(alloc: Global, rest: &str) -> Result<String, Failure> {
    let (count, rest) = first_number(rest)?;
    long_frames::long(alloc, count, &frame_bytes(alloc, rest)?)
}

/// The answer to a case of what frames say, by its first word and the rest of its line.
pub fn answer(alloc: Global, word: &str, rest: &str) -> Result<String, Failure> {
    if word == "show" {
        return show(alloc, rest);
    }
    if word == "verdict" {
        return meanings::verdict(alloc, &frame_bytes(alloc, rest)?);
    }
    if word == "pieces" {
        return in_pieces(alloc, rest);
    }
    if word == "wants" {
        return wants(alloc, rest);
    }
    if word == "tells" {
        return tells(alloc, rest);
    }
    if word == "judged" {
        return judged(alloc, rest);
    }
    if word == "long" {
        return long(alloc, rest);
    }
    Err(Failure::Words)
}
