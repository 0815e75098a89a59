//! Cases of frames: how they are spelled, what they say and how they come. Each line of standard input is a case, and
//! each line of the output that case with its answer behind ` => `. A line that begins with `#` says what the lines
//! below it are about. A side is `client`, `admin` or `agent`, a door of the service, or `replies` or `agent-replies`.
//!
//!     right SIDE FRAME            reads and spells it, whole and byte by byte, cuts it at each byte, makes it longer
//!     slips PLACE=BYTE ..         that frame with another byte at a place
//!     wrong SIDE BYTES            why the bytes are refused
//!     knows SIDE                  the operations of a side
//!     show SIDE FRAME             what the message says
//!     verdict FRAME               what a verdict says
//!     pieces SIDE BYTES | BYTES   what a feeder answers to each piece
//!     wants SIDE BYTES            what a feeder answers to pieces of what it wants
//!     tells SIDE FRAME            the operation's number, the commit, and whether it is spelled alike from lent parts
//!     judged COMMIT FRAME         what the reply says that the policy of an administrator's frame decides
//!     long COUNT FRAME            the frame with the first of its two deletions so many times
#![tactic(auto)]

mod carried;
mod hearing;
mod lent;
mod long_frames;
mod meanings;
mod pieces;
mod refusals;
mod right_frames;
mod sayings;
mod sides;
mod slips;
mod wrong_frames;

use cases_words::{Failure, first_word, frame_bytes};
use sides::first_side;
use std::alloc::{AllocError, Global};
use std::io;
use wire_messages::Heard;

/// The last right frame with its side, which slips are about.
#[derive(Drop)]
struct Last {
    heard: Heard,
    frame: Vec<u8>,
}

fn right(alloc: Global, last: &mut Last, rest: &str) -> Result<String, Failure> {
    let (heard, rest) = first_side(rest)?;
    last.heard = heard;
    last.frame = frame_bytes(alloc, rest)?;
    right_frames::right(alloc, heard, &last.frame)
}

fn wrong(alloc: Global, rest: &str) -> Result<String, Failure> {
    let (heard, rest) = first_side(rest)?;
    wrong_frames::wrong(alloc, heard, &frame_bytes(alloc, rest)?)
}

fn answer(alloc: Global, last: &mut Last, line: &str) -> Result<String, Failure> {
    let (word, rest) = first_word(line);
    if word == "right" {
        return right(alloc, last, rest);
    }
    if word == "slips" {
        return slips::slips(alloc, last.heard, &last.frame, rest);
    }
    if word == "wrong" {
        return wrong(alloc, rest);
    }
    if word == "knows" {
        let (heard, _) = first_side(rest)?;
        return wrong_frames::known(alloc, heard);
    }
    sayings::answer(alloc, word, rest)
}

// The answer, or why there is none.
fn told(alloc: Global, last: &mut Last, line: &str) -> Result<String, AllocError> {
    match answer(alloc, last, line) {
        Ok(text) => Ok(text),
        Err(Failure::Words) => String::from_str(alloc, "no such case"),
        Err(Failure::Refused) => String::from_str(alloc, "refused"),
        Err(Failure::Memory(_)) => String::from_str(alloc, "out of memory"),
    }
}

fn main(rt: HostRuntime) -> io::Result<()> {
    let alloc = rt.alloc();
    let mut last = Last {
        heard: Heard::AtClient,
        frame: Vec::new(alloc),
    };
    let text = io::read_to_string(alloc, rt.stdin())?;
    for line in text.lines() {
        if line.is_empty() || line.starts_with("#") {
            continue;
        }
        let answer = told(alloc, &mut last, line)?;
        println!(rt; "{line} => {answer}")?;
    }
    Ok(())
}
