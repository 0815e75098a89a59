ghost use Rattle.std.specs.Prelude.{◌≡◌, [], IfOk, IfErr, OnOk};
ghost use Rattle.cynara_keys.specs.Metadata.{metadata_fault, is_metadata, Refuses};
ghost use Rattle.cynara_keys.specs.Text.{same_text, text_cmp};
ghost use Rattle.std.specs.Prelude.{refl};
ghost use Rattle.std.specs.Ordering.{as_partial_cmp};
ghost use Rattle.std.specs.Cmp.{partial_equiv_from_equiv};
ghost use Rattle.std.specs.Cmp.Lexicographic.{texts_ties, texts_po};
ghost use Rattle.std.proofs.lemmas.Cmp.{nat_list_cmp_total, nat_list_eq_equiv};

use crate::bytes::first_not_visible;
use crate::limits::MOST_METADATA_BYTES;
use crate::shared::Shared;
use std::alloc::{AllocError, Global};
use std::cmp::Ordering;
use std::marker::Model;
use thiserror::Error;

/// Why a text is no metadata: the first rule that it breaks.
#[derive(Clone, Copy, Debug, PartialEq, Eq, Error)]
pub enum MetadataRefusal {
    #[error("metadata has at most 255 bytes")]
    TooLong,
    /// The place of the first such byte, from 0.
    #[error("byte {0} of the metadata, counted from 0, is a space, a semicolon or no printable ASCII")]
    BadByte(usize),
    #[error("out of memory")]
    Memory(AllocError),
}

/// What a result carries beside its kind, as the name of a bucket or words for an agent: 0 to 255 bytes of printable
/// ASCII without the space and the semicolon. Metadata is in the order of its bytes.
#[derive(Debug, Drop)]
pub struct Metadata {
    bytes: Shared,
}

impl Model for Metadata {
    ghost use Rattle.std.specs.Prelude.{◌≡◌, List, ℕ, None};
    ghost use Rattle.cynara_keys.specs.Metadata.{metadata_fault};

    ghost Value = { List ℕ };

    ghost view = { λ text. text.bytes };

    ghost invariant = { λ text. metadata_fault text.bytes ≡ None };
}

impl Metadata {
    /// No metadata. Takes no memory.
    pub fn empty(_alloc: Global) -> Metadata
        ensures { result ≡ [] }
    {
        Metadata {
            bytes: Shared::empty(),
        }
    }

    /// Reads metadata from its bytes, all of them. Refuses, in this order, `TooLong` and `BadByte`, and `Memory` only
    /// for bytes that are metadata. One pass.
    pub fn read(alloc: Global, bytes: &[u8]) -> Result<Metadata, MetadataRefusal>
        ensures text { IfOk result (λ text. text ≡ bytes.now) }
        ensures accepted { OnOk result (metadata_fault bytes.now ≡ None) }
        ensures refused { IfErr result (λ refusal. Refuses refusal (metadata_fault bytes.now)) }
    {
        if bytes.len() > MOST_METADATA_BYTES {
            return Err(MetadataRefusal::TooLong);
        }
        if let Some(at) = first_not_visible(bytes) {
            return Err(MetadataRefusal::BadByte(at));
        }
        let bytes = Shared::of(alloc, bytes).map_err(MetadataRefusal::Memory)?;
        Ok(Metadata { bytes })
    }

    /// The bytes of the metadata, as they were read.
    pub fn as_slice(&self) -> &[u8]
        ensures bytes { result.now ≡ self.now }
        ensures text { metadata_fault self.now ≡ None }
    {
        self.bytes.as_slice()
    }

    /// Equal metadata, which shares the bytes: no memory is asked for. Refused only where they have as many owners
    /// already as can be counted, which is 2^63.
    pub fn copy(&self) -> Result<Metadata, AllocError>
        ensures { IfOk result (λ copy. copy ≡ self.now) }
    {
        Ok(Metadata {
            bytes: self.bytes.copy()?,
        })
    }
}

/// Whether the bytes are metadata. Takes no memory. One pass.
pub fn is_metadata(bytes: &[u8]) -> bool
    ensures { result ≡ is_metadata bytes.now }
{
    bytes.len() <= MOST_METADATA_BYTES && first_not_visible(bytes).is_none()
}

impl PartialEq for Metadata {
    ghost eq = { same_text };

    ghost laws = { partial_equiv_from_equiv nat_list_eq_equiv };

    fn eq(&self, other: &Metadata) -> bool {
        self.as_slice() == other.as_slice()
    }
}

impl Eq for Metadata {
    ghost laws = { nat_list_eq_equiv };
}

impl PartialOrd for Metadata {
    ghost partial_cmp = { as_partial_cmp text_cmp };

    ghost laws = { texts_po };

    fn partial_cmp(&self, other: &Metadata) -> Option<Ordering> {
        Some(self.cmp(other))
    }
}

impl Ord for Metadata {
    ghost cmp = { text_cmp };

    ghost total = { nat_list_cmp_total };

    ghost matches_partial_cmp = { λ x y. refl };

    ghost matches_eq = { texts_ties };

    fn cmp(&self, other: &Metadata) -> Ordering {
        self.as_slice().cmp(other.as_slice())
    }
}
