//! A disk of which somebody hears when a call fails, at the moment it fails. It does what the disk below it does.
//!
//! A service goes on behind a failing call of its store. Whoever keeps the device reads of it at once, and not when the
//! service ends.
#![tactic(auto)]

ghost use Rattle.std.specs.Prelude.{◌≡◌};

use desk_ports::{Bytes, Disk, Failed, FileName, PortFault};

/// Who hears of calls of a disk that fail. No clause speaks of what they do.
pub trait HearsFailures<D> {
    /// A call of this disk has just failed.
    fn hear(&mut self, disk: &D);
}

/// A disk, and who hears of its failing calls.
#[derive(Drop)]
pub struct NotedDisk<D: Disk + Drop, H: HearsFailures<D> + Drop> {
    disk: D,
    hearer: H,
}

impl<D: Disk + Drop, H: HearsFailures<D> + Drop> NotedDisk<D, H> {
    /// The disk, which this one hears of from now on.
    pub fn over(disk: D, hearer: H) -> NotedDisk<D, H>
        ensures { result ≡ record { disk = disk; hearer = hearer } }
    {
        NotedDisk { disk, hearer }
    }

    /// The disk below.
    pub fn disk(&self) -> &D
        ensures { result.now ≡ self.now.disk }
    {
        &self.disk
    }

    /// Who hears.
    pub fn hearer(&self) -> &H
        ensures { result.now ≡ self.now.hearer }
    {
        &self.hearer
    }
}

impl<D: Disk + Drop, H: HearsFailures<D> + Drop> Disk for NotedDisk<D, H> {
    ghost faults = { λ noted. D.faults noted.disk };

    ghost state = { λ noted. D.state noted.disk };

    ghost moment = { λ noted. D.moment noted.disk };

    ghost left_since = { λ noted since left. D.left_since noted.disk since left };

    ghost touched_only = { λ noted. D.touched_only noted.disk };

    ghost counts_now = { λ noted since left le. D.counts_now noted.disk since left le };

    ghost only_now = { λ noted left. D.only_now noted.disk left };

    fn names(&mut self) -> Result<Vec<FileName>, PortFault> {
        match self.disk.names() {
            Ok(names) => Ok(names),
            Err(fault) => {
                self.hearer.hear(&self.disk);
                Err(fault)
            }
        }
    }

    fn read(&mut self, name: &FileName) -> Result<Option<Bytes>, PortFault> {
        match self.disk.read(name) {
            Ok(found) => Ok(found),
            Err(fault) => {
                self.hearer.hear(&self.disk);
                Err(fault)
            }
        }
    }

    fn write(&mut self, name: &FileName, bytes: &[u8]) -> Result<(), Failed> {
        match self.disk.write(name, bytes) {
            Ok(()) => Ok(()),
            Err(failed) => {
                self.hearer.hear(&self.disk);
                Err(failed)
            }
        }
    }

    fn remove(&mut self, name: &FileName) -> Result<(), Failed> {
        match self.disk.remove(name) {
            Ok(()) => Ok(()),
            Err(failed) => {
                self.hearer.hear(&self.disk);
                Err(failed)
            }
        }
    }

    fn sync(&mut self) -> Result<(), Failed> {
        match self.disk.sync() {
            Ok(()) => Ok(()),
            Err(failed) => {
                self.hearer.hear(&self.disk);
                Err(failed)
            }
        }
    }

    fn faults(&self) -> u64 {
        self.disk.faults()
    }
}
