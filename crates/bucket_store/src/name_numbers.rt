// The names of keys, numbered in the order in which they are met.
ghost use Rattle.std.specs.Prelude.{◌≡◌, ◌<◌, ◌^◌, [], length, IfOk, OnOk};
ghost use Rattle.bucket_store.specs.parts.Numbering.{HasNumber, IsNext, found_number};

use indexmap::IndexSet;
use std::alloc::{AllocError, Global};
use std::marker::Model;

/// Names in the order in which they were met, without repeats. The number of a name is one more than its place.
#[derive(Drop)]
pub struct NameNumbers<'a> {
    names: IndexSet<&'a [u8]>,
}

impl<'a> Model for NameNumbers<'a> {
    ghost use Rattle.std.specs.Prelude.{List, ℕ, map};
    ghost use Rattle.std.proofs.Common.{Bor};

    ghost Value = { List (List ℕ) };

    ghost view = { λ numbers. map (λ (name : Bor (List ℕ)). name.now) numbers.names.keys };
}

impl<'a> NameNumbers<'a> {
    /// No names. Takes no memory.
    pub fn new(alloc: Global) -> NameNumbers<'a>
        ensures { result ≡ [] }
    {
        NameNumbers {
            names: IndexSet::new(alloc),
        }
    }

    /// The number of a text, 0 for the wildcard. A name that is new is put behind the others.
    pub fn number(&mut self, text: &'a [u8]) -> Result<u32, AllocError>
        requires { length self.old < 2 ^ 31 }
        ensures number { IfOk result (HasNumber self.new text.now) }
        ensures next { OnOk result (IsNext self.old self.new) }
    {
        if text == b"*".as_slice() {
            return Ok(0);
        }
        let (place, _) = self.names.insert_full(text)?;
        Ok(place as u32 + 1)
    }

    /// The number of a name that was met.
    pub fn find(&self, name: &[u8]) -> Option<u32>
        requires { length self.now < 2 ^ 31 }
        ensures { result ≡ found_number self.now name.now }
    {
        match self.names.get_index_of(name) {
            Some(place) => Some(place as u32 + 1),
            None => None,
        }
    }
}
