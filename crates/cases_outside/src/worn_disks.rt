// A disk in memory on which files are found absent, or in part, at given calls.
ghost use Rattle.std.specs.Prelude.{None};
ghost use Rattle.cases_outside.specs.Untold.{untold};

use crate::numbers;
use cases_words::{Failure, fails, files};
use desk_ports::{Bytes, Disk, Failed, FileName, MemDisk, PortFault};
use std::alloc::Global;

/// A disk in memory. At some calls a read finds no file, and at some the first half of it.
#[derive(Drop)]
pub struct WornDisk {
    disk: MemDisk,
    gone: Vec<u64>,
    halved: Vec<u64>,
    made: u64,
}

fn disk_of(alloc: Global, words: &str, failing: &str) -> Result<MemDisk, Failure> {
    let words = if words.trim() == "-" { "" } else { words };
    let fails = fails(alloc, failing)?;
    Ok(MemDisk::new(alloc, files(alloc, words)?, fails)?)
}

impl WornDisk {
    /// The disk with these files, and the calls at which it fails, finds no file, and finds a half.
    pub fn of(alloc: Global, words: &str, lists: &str) -> Result<WornDisk, Failure> {
        let parts: Vec<&str> = lists.trim().split(' ').collect(alloc)?;
        let [failing, gone, halved] = parts.as_slice() else {
            return Err(Failure::Words);
        };
        let gone = numbers(alloc, gone)?;
        let halved = numbers(alloc, halved)?;
        match disk_of(alloc, words, failing) {
            Ok(disk) => Ok(WornDisk {
                disk,
                gone,
                halved,
                made: 0,
            }),
            Err(failure) => Err(failure),
        }
    }

    /// How many calls were made.
    pub fn made(&self) -> u64 {
        self.made
    }

    // What a read finds in place of what is there.
    fn worn(&self, found: Option<Bytes>) -> Option<Bytes> {
        let Some(mut bytes) = found else {
            return None;
        };
        if self.gone.contains(&self.made) {
            return None;
        }
        if self.halved.contains(&self.made) {
            bytes.truncate(bytes.len() / 2);
        }
        Some(bytes)
    }
}

impl Disk for WornDisk {
    ghost faults = { λ worn. worn.disk.faults };

    ghost state = { λ worn. None };

    ghost moment = { λ worn. 0 };

    ghost left_since = { λ worn since left. Unit {0} };

    ghost touched_only = { λ worn. untold _ };

    ghost counts_now = { λ worn since left le. untold _ };

    ghost only_now = { λ worn left. untold _ };

    fn names(&mut self) -> Result<Vec<FileName>, PortFault> {
        self.made = self.made.saturating_add(1);
        self.disk.names()
    }

    fn read(&mut self, name: &FileName) -> Result<Option<Bytes>, PortFault> {
        self.made = self.made.saturating_add(1);
        match self.disk.read(name) {
            Ok(found) => Ok(self.worn(found)),
            Err(fault) => Err(fault),
        }
    }

    fn write(&mut self, name: &FileName, bytes: &[u8]) -> Result<(), Failed> {
        self.made = self.made.saturating_add(1);
        self.disk.write(name, bytes)
    }

    fn remove(&mut self, name: &FileName) -> Result<(), Failed> {
        self.made = self.made.saturating_add(1);
        self.disk.remove(name)
    }

    fn sync(&mut self) -> Result<(), Failed> {
        self.made = self.made.saturating_add(1);
        self.disk.sync()
    }

    fn faults(&self) -> u64 {
        self.disk.faults()
    }
}
