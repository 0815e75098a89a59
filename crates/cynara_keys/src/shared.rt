// Bytes that do not change, which is what names, buckets' names and metadata keep. They stand in a block that all
// copies share, in any thread, so a copy asks for no memory, and a copy and a move are a few machine words.
ghost use Rattle.std.specs.Prelude.{◌≡◌, [], IfOk};

use std::alloc::{AllocError, Global};
use std::fmt;
use std::marker::Model;
use std::sync::ArcSlice;

/// Bytes that all their copies share.
#[derive(Drop)]
pub struct Shared {
    // None for no bytes, which take no memory.
    block: Option<ArcSlice<u8>>,
}

impl Model for Shared {
    ghost use Rattle.std.specs.Prelude.{List, ℕ, []};
    ghost use Rattle.std.specs.Arc.{arc_slice_items};
    ghost use Rattle.std.specs.Option.{option_map_or};

    ghost Value = { List ℕ };

    ghost view = { λ shared. option_map_or arc_slice_items shared.block [] };
}

impl Shared {
    /// No bytes. Takes no memory.
    pub fn empty() -> Shared
        ensures { result ≡ [] }
    {
        Shared { block: None }
    }

    /// A copy of these bytes in a block of its own. Fails only for want of memory, and never for no bytes.
    pub fn of(alloc: Global, bytes: &[u8]) -> Result<Shared, AllocError>
        ensures { IfOk result (λ shared. shared ≡ bytes.now) }
    {
        if bytes.is_empty() {
            return Ok(Shared::empty());
        }
        let block = ArcSlice::from_slice(alloc, bytes)?;
        Ok(Shared { block: Some(block) })
    }

    /// The bytes. Takes no memory.
    pub fn as_slice(&self) -> &[u8]
        ensures { result.now ≡ self.now }
    {
        match &self.block {
            Some(block) => block.as_slice(),
            None => &[],
        }
    }

    /// The same bytes, in the block that all copies share. Takes no memory; fails only where they have as many owners
    /// as can be counted.
    pub fn copy(&self) -> Result<Shared, AllocError>
        ensures { IfOk result (λ copy. copy ≡ self.now) }
    {
        match &self.block {
            Some(block) => Ok(Shared {
                block: Some(block.clone()?),
            }),
            None => Ok(Shared::empty()),
        }
    }
}

impl fmt::Debug for Shared {
    fn fmt<W: fmt::Write>(&self, f: &mut fmt::Formatter<W>) -> fmt::Result {
        let bytes = self.as_slice();
        write!(f, "{bytes:?}")
    }
}
