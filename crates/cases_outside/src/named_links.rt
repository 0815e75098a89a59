// Links with names, over which a case speaks.
use cases_words::{Failure, frame_bytes, put_word};
use link_ports::Link;
use std::alloc::{AllocError, Global};

// The longest frame that is read.
const MOST_BYTES: u32 = 4_096;

const DIGITS: &[u8; 16] = b"0123456789abcdef";

/// Links, each with a name.
#[derive(Drop)]
pub struct NamedLinks<L> {
    names: Vec<String>,
    links: Vec<L>,
}

impl<L: Link + Drop> NamedLinks<L> {
    /// No links.
    pub fn new(alloc: Global) -> NamedLinks<L> {
        NamedLinks {
            names: Vec::new(alloc),
            links: Vec::new(alloc),
        }
    }

    /// Puts a link behind the others.
    pub fn put(&mut self, alloc: Global, name: &str, link: L) -> Result<(), Failure> {
        self.names.push(String::from_str(alloc, name)?)?;
        self.links.push(link)?;
        Ok(())
    }

    /// Lets all links go.
    pub fn clear(&mut self) {
        self.names.clear();
        self.links.clear();
    }

    fn place(&self, name: &str) -> Result<usize, Failure> {
        match self.names.iter().position(|own| own.as_str() == name) {
            Some(place) => Ok(place),
            None => Err(Failure::Words),
        }
    }

    fn link(&mut self, name: &str) -> Result<&mut L, Failure> {
        let place = self.place(name)?;
        match self.links.get_mut(place) {
            Some(link) => Ok(link),
            None => Err(Failure::Words),
        }
    }

    fn drop_link(&mut self, name: &str) -> Result<(), Failure> {
        let place = self.place(name)?;
        if place >= self.names.len() || place >= self.links.len() {
            return Err(Failure::Words);
        }
        drop(self.names.remove(place));
        drop(self.links.remove(place));
        Ok(())
    }

    /// `X>` sends the bytes of a frame over the link of the name X, `X<` receives a frame and adds it to the text, or
    /// `end` or `cut` where the input ends before or within it, or `long` where it has too many bytes, and `X-` lets
    /// the link go. It may wait for a frame.
    pub fn speak(
        &mut self,
        alloc: Global,
        word: &str,
        rest: &str,
        told: &mut String,
    ) -> Result<(), Failure> {
        if let Some(name) = word.strip_suffix(">") {
            let bytes = frame_bytes(alloc, rest)?;
            let _ = self.link(name)?.send(&bytes);
            return Ok(());
        }
        if let Some(name) = word.strip_suffix("<") {
            let text = read_frame(alloc, self.link(name)?)?;
            return Ok(put_word(told, text.as_str())?);
        }
        if let Some(name) = word.strip_suffix("-") {
            return self.drop_link(name);
        }
        Err(Failure::Words)
    }
}

/// Adds bytes, two digits each.
pub fn put_hex(text: &mut String, bytes: &[u8]) -> Result<(), AllocError> {
    for byte in bytes {
        text.push(char::from(DIGITS[(*byte >> 4) as usize]))?;
        text.push(char::from(DIGITS[(*byte & 15) as usize]))?;
    }
    Ok(())
}

// Receives as many bytes as there is room for. Whether they came.
fn receive_all<L: Link>(link: &mut L, into: &mut [u8]) -> bool {
    let mut done = 0;
    for _ in 0..u64::MAX {
        if done >= into.len() {
            return true;
        }
        match link.receive(&mut into[done..]) {
            Ok(0) => return false,
            Ok(count) => done += count,
            Err(_) => return false,
        }
    }
    false
}

// A frame that comes over the link, in digits, or how the input ended.
fn read_frame<L: Link>(alloc: Global, link: &mut L) -> Result<String, AllocError> {
    let mut head = [0u8; 4];
    let mut room = [0u8; MOST_BYTES as usize];
    if !receive_all(link, &mut head) {
        return String::from_str(alloc, "end");
    }
    let length = u32::from_be_bytes(head);
    if length > MOST_BYTES {
        return String::from_str(alloc, "long");
    }
    let length = length as usize;
    if !receive_all(link, &mut room[..length]) {
        return String::from_str(alloc, "cut");
    }
    let mut text = String::new(alloc);
    put_hex(&mut text, &head)?;
    put_hex(&mut text, &room[..length])?;
    Ok(text)
}
