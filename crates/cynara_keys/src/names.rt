ghost use Rattle.std.specs.Prelude.{◌≡◌, None, IfOk, IfErr, IfSome, OnOk};
ghost use Rattle.cynara_keys.specs.Name.{name_fault, Refuses};
ghost use Rattle.cynara_keys.specs.Text.{same_text, text_cmp};
ghost use Rattle.std.specs.Prelude.{refl};
ghost use Rattle.std.specs.Ordering.{as_partial_cmp};
ghost use Rattle.std.specs.Cmp.{partial_equiv_from_equiv};
ghost use Rattle.std.specs.Cmp.Lexicographic.{texts_ties, texts_po};
ghost use Rattle.std.proofs.lemmas.Cmp.{nat_list_cmp_total, nat_list_eq_equiv};

use crate::bytes::first_not_visible;
use crate::limits::MOST_NAME_BYTES;
use crate::shared::Shared;
use std::alloc::{AllocError, Global};
use std::cmp::Ordering;
use std::marker::Model;
use thiserror::Error;

/// Why a text is no name: the first rule that it breaks.
#[derive(Clone, Copy, Debug, PartialEq, Eq, Error)]
pub enum NameRefusal {
    #[error("a name has at least one byte")]
    Empty,
    #[error("a name has at most 255 bytes")]
    TooLong,
    /// The place of the first such byte, from 0.
    #[error("byte {0} of the name, counted from 0, is a space, a semicolon or no printable ASCII")]
    BadByte(usize),
    #[error("`*` and `#` alone are no names, but stand for any name and for every field")]
    Reserved,
    #[error("out of memory")]
    Memory(AllocError),
}

/// The name of a client, a user or a privilege: 1 to 255 bytes of printable ASCII without the space and the
/// semicolon, and not `*` or `#` alone. Names are in the order of their bytes. As in the Cynara wiki; what a name may
/// be made of is this project's profile.
#[derive(Debug, Drop)]
pub struct Name {
    bytes: Shared,
}

impl Model for Name {
    ghost use Rattle.std.specs.Prelude.{◌≡◌, List, ℕ, None};
    ghost use Rattle.cynara_keys.specs.Name.{name_fault};

    ghost Value = { List ℕ };

    ghost view = { λ name. name.bytes };

    ghost invariant = { λ name. name_fault name.bytes ≡ None };
}

/// The first rule of a name that the bytes break: `Empty`, `TooLong`, `BadByte` or `Reserved`. `None` where they are a
/// name. Takes no memory. One pass.
pub fn name_fault(bytes: &[u8]) -> Option<NameRefusal>
    ensures fault { result ≡ name_fault bytes.now }
    ensures refuses { IfSome result (λ refusal. Refuses refusal (name_fault bytes.now)) }
{
    if bytes.is_empty() {
        return Some(NameRefusal::Empty);
    }
    if bytes.len() > MOST_NAME_BYTES {
        return Some(NameRefusal::TooLong);
    }
    if let Some(at) = first_not_visible(bytes) {
        return Some(NameRefusal::BadByte(at));
    }
    if matches!(bytes, b"*" | b"#") {
        return Some(NameRefusal::Reserved);
    }
    None
}

impl Name {
    /// Reads a name from its bytes, all of them. Refuses, in this order, `Empty`, `TooLong`, `BadByte` and `Reserved`,
    /// and `Memory` only for bytes that are a name. One pass.
    pub fn read(alloc: Global, bytes: &[u8]) -> Result<Name, NameRefusal>
        ensures name { IfOk result (λ name. name ≡ bytes.now) }
        ensures accepted { OnOk result (name_fault bytes.now ≡ None) }
        ensures refused { IfErr result (λ refusal. Refuses refusal (name_fault bytes.now)) }
    {
        if let Some(refusal) = name_fault(bytes) {
            return Err(refusal);
        }
        let bytes = Shared::of(alloc, bytes).map_err(NameRefusal::Memory)?;
        Ok(Name { bytes })
    }

    /// The bytes of the name, as they were read.
    pub fn as_slice(&self) -> &[u8]
        ensures bytes { result.now ≡ self.now }
        ensures name { name_fault self.now ≡ None }
    {
        self.bytes.as_slice()
    }

    /// An equal name, which shares the bytes: no memory is asked for. Refused only where they have as many owners
    /// already as can be counted, which is 2^63.
    pub fn copy(&self) -> Result<Name, AllocError>
        ensures { IfOk result (λ copy. copy ≡ self.now) }
    {
        Ok(Name {
            bytes: self.bytes.copy()?,
        })
    }
}

impl PartialEq for Name {
    ghost eq = { same_text };

    ghost laws = { partial_equiv_from_equiv nat_list_eq_equiv };

    fn eq(&self, other: &Name) -> bool {
        self.as_slice() == other.as_slice()
    }
}

impl Eq for Name {
    ghost laws = { nat_list_eq_equiv };
}

impl PartialOrd for Name {
    ghost partial_cmp = { as_partial_cmp text_cmp };

    ghost laws = { texts_po };

    fn partial_cmp(&self, other: &Name) -> Option<Ordering> {
        Some(self.cmp(other))
    }
}

impl Ord for Name {
    ghost cmp = { text_cmp };

    ghost total = { nat_list_cmp_total };

    ghost matches_partial_cmp = { λ x y. refl };

    ghost matches_eq = { texts_ties };

    fn cmp(&self, other: &Name) -> Ordering {
        self.as_slice().cmp(other.as_slice())
    }
}
