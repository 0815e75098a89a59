// A link in memory whose bytes come in pieces of given sizes.
ghost use Rattle.std.specs.Prelude.{None, ◌≤◌};

use crate::numbers;
use cases_words::{Failure, fails, frame_bytes};
use desk_ports::{Bytes, Failed, PortFault};
use link_ports::{Link, MemEnd, MemLink};
use std::alloc::Global;

/// A link in memory. The next piece that is received has at most the next of these sizes; behind the last it has any.
#[derive(Drop)]
pub struct CutLink {
    link: MemLink,
    sizes: Vec<u64>,
    next: usize,
}

impl CutLink {
    /// The link of these words, over which the bytes of a frame's words are to come.
    pub fn of(alloc: Global, words: &str, bytes: &str) -> Result<CutLink, Failure> {
        CutLink::over(alloc, words, frame_bytes(alloc, bytes)?)
    }

    /// The link of these words, over which these bytes are to come: after how many calls it reads as closed, which
    /// calls fail, and into which sizes the bytes are cut, each with commas, or `-` for none.
    pub fn over(alloc: Global, words: &str, bytes: Vec<u8>) -> Result<CutLink, Failure> {
        let parts: Vec<&str> = words.trim().split(' ').collect(alloc)?;
        let [closed_after, failing, sizes] = parts.as_slice() else {
            return Err(Failure::Words);
        };
        let closed_after = if *closed_after == "-" {
            u64::MAX
        } else {
            match closed_after.parse::<u64>() {
                Ok(number) => number,
                Err(_) => return Err(Failure::Words),
            }
        };
        let to_come = Bytes::of(bytes);
        Ok(CutLink {
            link: MemLink::new(alloc, to_come, closed_after, fails(alloc, failing)?)?,
            sizes: numbers(alloc, sizes)?,
            next: 0,
        })
    }

    /// The bytes that were sent.
    pub fn sent(&self) -> &[u8] {
        self.link.sent()
    }
}

// How many bytes the piece at this place may have, none where it may have any, and no more than fit.
fn most_at(sizes: &[u64], place: usize, most: usize) -> usize
    ensures { result ≤ most }
{
    match sizes.get(place) {
        Some(size) => (*size).min(most as u64) as usize,
        None => 0,
    }
}

impl Link for CutLink {
    type End = MemEnd;

    ghost faults = { λ cut. cut.link.tally.faults };

    ghost marks = { λ cut. cut.link.tally.marks };

    ghost traffic = { λ cut. None };

    ghost content = { λ cut. None };

    fn send(&mut self, from: &[u8]) -> Result<(), Failed> {
        self.link.send(from)
    }

    fn receive(&mut self, into: &mut [u8]) -> Result<usize, Failed> {
        let size = most_at(self.sizes.as_slice(), self.next, into.len());
        self.next = self.next.saturating_add(1);
        if size == 0 {
            return self.link.receive(into);
        }
        self.link.receive(&mut into[..size])
    }

    fn is_up(&mut self) -> bool {
        self.link.is_up()
    }

    fn has_come(&mut self) -> bool {
        self.link.has_come()
    }

    fn hang_end(&mut self) -> Result<MemEnd, PortFault> {
        self.link.hang_end()
    }
}
