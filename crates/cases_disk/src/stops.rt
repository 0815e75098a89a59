// What stops leave of a disk.
use crate::{keepers, vaults};
use cases_words::{Failure, Found, Runs};
use desk_ports::MemDisk;
use std::alloc::Global;

/// What is looked for on what a stop left: a store of a set of files, or a policy state.
#[derive(Clone, Copy)]
pub enum Seen {
    Store,
    Keeper,
}

/// What a mount finds after a stop behind so many calls.
pub fn seen_later(
    seen: Seen,
    alloc: Global,
    disk: &MemDisk,
    after: usize,
    pick: u32,
) -> Result<String, Failure> {
    let mut left = disk.stopped(after, pick)?;
    match seen {
        Seen::Store => vaults::mounted(alloc, &mut left),
        Seen::Keeper => keepers::found(alloc, &mut left),
    }
}

/// Stops of a disk, and what was found so far. The numbers below `most` are tried, and the greatest.
#[derive(Drop)]
pub struct Stops<'a> {
    pub seen: Seen,
    pub alloc: Global,
    pub disk: &'a MemDisk,
    pub most: u32,
    pub found: Found,
}

impl Stops<'_> {
    // What stops behind so many calls leave.
    fn letters(&mut self, after: usize) -> Result<String, Failure> {
        let mut letters = String::new(self.alloc);
        for number in 0..=self.most {
            let pick = if number < self.most { number } else { u32::MAX };
            let text = seen_later(self.seen, self.alloc, self.disk, after, pick)?;
            let letter = self.found.letter(text)?;
            if !letters.as_str().contains(letter) {
                letters.push_str(letter)?;
            }
        }
        Ok(letters)
    }

    /// What a mount finds after a stop behind each number of calls from this one on.
    pub fn told(&mut self, from: u32) -> Result<String, Failure> {
        let mut runs = Runs::new(self.alloc);
        for after in from as usize..=self.disk.calls().len() {
            let letters = self.letters(after)?;
            runs.add(self.alloc, letters)?;
        }
        let mut text = runs.told(self.alloc)?;
        self.found.put_texts(&mut text)?;
        Ok(text)
    }
}
