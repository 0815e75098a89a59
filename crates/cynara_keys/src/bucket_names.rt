ghost use Rattle.std.specs.Prelude.{◌≡◌, [], IfOk, IfErr, OnOk};
ghost use Rattle.cynara_keys.specs.BucketName.{bucket_name_fault, is_bucket_name, Refuses};
ghost use Rattle.cynara_keys.specs.Text.{same_text, text_cmp};
ghost use Rattle.std.specs.Prelude.{refl};
ghost use Rattle.std.specs.Ordering.{as_partial_cmp};
ghost use Rattle.std.specs.Cmp.{partial_equiv_from_equiv};
ghost use Rattle.std.specs.Cmp.Lexicographic.{texts_ties, texts_po};
ghost use Rattle.std.proofs.lemmas.Cmp.{nat_list_cmp_total, nat_list_eq_equiv};

use crate::bytes::first_no_word_byte;
use crate::limits::MOST_BUCKET_NAME_BYTES;
use crate::shared::Shared;
use std::alloc::{AllocError, Global};
use std::cmp::Ordering;
use std::marker::Model;
use thiserror::Error;

/// Why a text is no bucket's name: the first rule that it breaks.
#[derive(Clone, Copy, Debug, PartialEq, Eq, Error)]
pub enum BucketNameRefusal {
    #[error("a bucket's name has at most 64 bytes")]
    TooLong,
    /// The place of the first such byte, from 0.
    #[error("byte {0} of the bucket's name, counted from 0, is no letter, digit, `_` or `-`")]
    BadByte(usize),
    #[error("out of memory")]
    Memory(AllocError),
}

/// The name of a bucket: 0 to 64 letters, digits, `_` or `-`. The empty one names the root bucket. Buckets' names are
/// in the order of their bytes.
#[derive(Debug, Drop)]
pub struct BucketName {
    bytes: Shared,
}

impl Model for BucketName {
    ghost use Rattle.std.specs.Prelude.{◌≡◌, List, ℕ, None};
    ghost use Rattle.cynara_keys.specs.BucketName.{bucket_name_fault};

    ghost Value = { List ℕ };

    ghost view = { λ text. text.bytes };

    ghost invariant = { λ text. bucket_name_fault text.bytes ≡ None };
}

impl BucketName {
    /// The name of the root bucket, which is empty. Takes no memory.
    pub fn root(_alloc: Global) -> BucketName
        ensures { result ≡ [] }
    {
        BucketName {
            bytes: Shared::empty(),
        }
    }

    /// Reads a bucket's name from its bytes, all of them. Refuses, in this order, `TooLong` and `BadByte`, and `Memory`
    /// only for bytes that are a bucket's name. One pass.
    pub fn read(alloc: Global, bytes: &[u8]) -> Result<BucketName, BucketNameRefusal>
        ensures text { IfOk result (λ text. text ≡ bytes.now) }
        ensures accepted { OnOk result (bucket_name_fault bytes.now ≡ None) }
        ensures refused { IfErr result (λ refusal. Refuses refusal (bucket_name_fault bytes.now)) }
    {
        if bytes.len() > MOST_BUCKET_NAME_BYTES {
            return Err(BucketNameRefusal::TooLong);
        }
        if let Some(at) = first_no_word_byte(bytes) {
            return Err(BucketNameRefusal::BadByte(at));
        }
        let bytes = Shared::of(alloc, bytes).map_err(BucketNameRefusal::Memory)?;
        Ok(BucketName { bytes })
    }

    /// The bytes of the bucket's name, as they were read.
    pub fn as_slice(&self) -> &[u8]
        ensures bytes { result.now ≡ self.now }
        ensures text { bucket_name_fault self.now ≡ None }
    {
        self.bytes.as_slice()
    }

    /// An equal name, which shares the bytes: no memory is asked for. Refused only where they have as many owners
    /// already as can be counted, which is 2^63.
    pub fn copy(&self) -> Result<BucketName, AllocError>
        ensures { IfOk result (λ copy. copy ≡ self.now) }
    {
        Ok(BucketName {
            bytes: self.bytes.copy()?,
        })
    }
}

/// Whether the bytes are a bucket's name, which the metadata of a result that points to a bucket is. Takes no memory.
/// One pass.
pub fn is_bucket_name(bytes: &[u8]) -> bool
    ensures { result ≡ is_bucket_name bytes.now }
{
    bytes.len() <= MOST_BUCKET_NAME_BYTES && first_no_word_byte(bytes).is_none()
}

impl PartialEq for BucketName {
    ghost eq = { same_text };

    ghost laws = { partial_equiv_from_equiv nat_list_eq_equiv };

    fn eq(&self, other: &BucketName) -> bool {
        self.as_slice() == other.as_slice()
    }
}

impl Eq for BucketName {
    ghost laws = { nat_list_eq_equiv };
}

impl PartialOrd for BucketName {
    ghost partial_cmp = { as_partial_cmp text_cmp };

    ghost laws = { texts_po };

    fn partial_cmp(&self, other: &BucketName) -> Option<Ordering> {
        Some(self.cmp(other))
    }
}

impl Ord for BucketName {
    ghost cmp = { text_cmp };

    ghost total = { nat_list_cmp_total };

    ghost matches_partial_cmp = { λ x y. refl };

    ghost matches_eq = { texts_ties };

    fn cmp(&self, other: &BucketName) -> Ordering {
        self.as_slice().cmp(other.as_slice())
    }
}
