// What a disk knows of files that are made sure of. It has the room that it was made with: neither names nor bytes are
// kept, but of some files by what the machine shows them again, and what their bytes come to.
ghost use Rattle.std.specs.Prelude.{◌≡◌, ◌<◌, None, vec_len};
ghost use Rattle.std.specs.Prelude.{replicate};

use crate::byte_digests::BytesDigest;
use crate::file_marks::FileMark;
use std::alloc::{AllocError, Global};

/// How many files are known at most.
const PLACES: usize = 4_096;

/// At how many places, one behind the other, a file may be known.
const TRIED: usize = 16;

/// What is known of a file that is made sure of: by what the machine shows it, and what its bytes come to, where that
/// was reckoned.
#[derive(Clone, Copy, Debug)]
pub struct Known {
    pub mark: FileMark,
    pub digest: Option<BytesDigest>,
}

/// What is known of the file of a name, with its name as a number.
#[derive(Clone, Copy, Debug)]
struct KnownFile {
    key: u64,
    known: Known,
}

/// Files that are known, each at one of some places that follow from its name. Where two names give one number, or all
/// places of a file are taken, one of the files is no longer known.
#[derive(Drop)]
pub struct KnownFiles {
    places: Vec<Option<KnownFile>>,
}

impl KnownFiles {
    /// Nothing is known of any file. Takes the memory of all places; fails only for want of it.
    pub fn new(alloc: Global) -> Result<KnownFiles, AllocError> {
        let mut places = Vec::with_capacity(alloc, PLACES)?;
        for _ in 0..PLACES {
            places.push(None)?;
        }
        Ok(KnownFiles { places })
    }

    /// What is known of the file of this name.
    pub fn of(&self, name: &[u8]) -> Option<Known> {
        Some(self.at(self.place_of(key_of(name))?)?.known)
    }

    /// From now on this is known of the file of this name.
    pub fn note(&mut self, name: &[u8], known: Known) {
        let key = key_of(name);
        let place = self.place_for(key);
        if let Some(noted) = self.places.get_mut(place) {
            *noted = Some(KnownFile { key, known });
        }
    }

    /// From now on nothing is known of the file of this name.
    pub fn forget(&mut self, name: &[u8]) {
        let Some(place) = self.place_of(key_of(name)) else {
            return;
        };
        if let Some(known) = self.places.get_mut(place) {
            *known = None;
        }
    }

    /// From now on nothing is known of any file.
    pub fn forget_all(&mut self)
        ensures { self.new.places.items ≡ replicate (vec_len self.old.places) None }
    {
        self.places.as_mut_slice().fill(None);
    }

    fn at(&self, place: usize) -> Option<KnownFile> {
        match self.places.get(place) {
            Some(known) => *known,
            None => None,
        }
    }

    fn has_key(&self, place: usize, key: u64) -> bool {
        match self.places.get(place) {
            Some(Some(known)) => known.key == key,
            _ => false,
        }
    }

    fn is_free(&self, place: usize) -> bool {
        matches!(self.places.get(place), Some(None))
    }

    // The place at which this key is known.
    fn place_of(&self, key: u64) -> Option<usize> {
        for turn in 0..TRIED {
            let place = tried_place(key, turn);
            if self.has_key(place, key) {
                return Some(place);
            }
        }
        None
    }

    // A place that is free.
    fn free_place(&self, key: u64) -> Option<usize> {
        for turn in 0..TRIED {
            let place = tried_place(key, turn);
            if self.is_free(place) {
                return Some(place);
            }
        }
        None
    }

    // The place at which this key is known from now on.
    fn place_for(&self, key: u64) -> usize {
        if let Some(place) = self.place_of(key) {
            return place;
        }
        match self.free_place(key) {
            Some(place) => place,
            None => tried_place(key, 0),
        }
    }
}

fn tried_place(key: u64, turn: usize) -> usize
    requires { turn < 16 }
{
    ((key % PLACES as u64) as usize + turn) % PLACES
}

// A name as a number, by the hash of Fowler, Noll and Vo. Two names may give one number.
fn key_of(name: &[u8]) -> u64 {
    let mut key = 0xcbf2_9ce4_8422_2325u64;
    for byte in name {
        key = (key ^ u64::from(*byte)).wrapping_mul(0x0000_0100_0000_01b3);
    }
    key
}
