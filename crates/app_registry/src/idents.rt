//! Names of packages, authors and applications.

ghost use Rattle.std.specs.Prelude.{◌≡◌, not, refl, IfOk, IfErr, OnOk};
ghost use Rattle.std.specs.List.{position};
ghost use Rattle.std.specs.Ordering.{as_partial_cmp};
ghost use Rattle.std.specs.Cmp.{partial_equiv_from_equiv};
ghost use Rattle.std.specs.Cmp.Lexicographic.{texts_ties, texts_po};
ghost use Rattle.std.proofs.lemmas.Cmp.{nat_list_cmp_total, nat_list_eq_equiv};
ghost use Rattle.cynara_keys.specs.Text.{same_text, text_cmp};
ghost use Rattle.app_registry.specs.Ident.{begins_with_mark, first_bad_byte, ident_fault, is_ident_byte, Refuses};

use std::alloc::{AllocError, Global};
use std::cmp::Ordering;
use std::marker::Model;
use std::sync::ArcSlice;
use thiserror::Error;

/// The most bytes of an ident.
pub const IDENT_LIMIT: usize = 100;

/// Why bytes are no ident: the first of these rules that they break.
#[derive(Clone, Copy, Debug, PartialEq, Eq, Error)]
pub enum IdentRefusal {
    #[error("an ident has at least one byte")]
    Empty,
    #[error("an ident has at most 100 bytes")]
    TooLong,
    /// The place of the first such byte, from 0.
    #[error("byte {0} of the ident, counted from 0, is no letter, digit, `.`, `_` or `-`, or stands in front and is `.` or `-`")]
    BadByte(usize),
    #[error("out of memory")]
    Memory(AllocError),
}

/// The name of a package, an author or an application: 1 to 100 letters, digits, `.`, `_` or `-`, the first of them
/// neither `.` nor `-`. Copies share the bytes.
#[derive(Debug, Drop)]
pub struct Ident {
    bytes: ArcSlice<u8>,
}

impl Model for Ident {
    ghost use Rattle.std.specs.Prelude.{◌≡◌, List, ℕ, None};
    ghost use Rattle.std.specs.Arc.{arc_slice_items};
    ghost use Rattle.app_registry.specs.Ident.{ident_fault};

    ghost Value = { List ℕ };

    ghost view = { λ ident. arc_slice_items ident.bytes };

    ghost invariant = { λ ident. ident_fault (arc_slice_items ident.bytes) ≡ None };
}

impl Ident {
    /// Reads an ident from its bytes, all of them. Refuses, in this order, `Empty`, `TooLong` and `BadByte`.
    pub fn read(alloc: Global, bytes: &[u8]) -> Result<Ident, IdentRefusal>
        ensures ident { IfOk result (λ ident. ident ≡ bytes.now) }
        ensures accepted { OnOk result (ident_fault bytes.now ≡ None) }
        ensures refused { IfErr result (λ refusal. Refuses refusal (ident_fault bytes.now)) }
    {
        if bytes.is_empty() {
            return Err(IdentRefusal::Empty);
        }
        if bytes.len() > IDENT_LIMIT {
            return Err(IdentRefusal::TooLong);
        }
        if let Some(at) = first_bad_byte(bytes) {
            return Err(IdentRefusal::BadByte(at));
        }
        let bytes = ArcSlice::from_slice(alloc, bytes).map_err(IdentRefusal::Memory)?;
        Ok(Ident { bytes })
    }

    /// The bytes of the ident, as they were read.
    pub fn as_slice(&self) -> &[u8]
        ensures bytes { result.now ≡ self.now }
        ensures ident { ident_fault self.now ≡ None }
    {
        self.bytes.as_slice()
    }

    /// An equal ident, which shares the bytes.
    pub fn copy(&self) -> Result<Ident, AllocError>
        ensures { IfOk result (λ copy. copy ≡ self.now) }
    {
        Ok(Ident {
            bytes: self.bytes.clone()?,
        })
    }
}

impl PartialEq for Ident {
    ghost eq = { same_text };

    ghost laws = { partial_equiv_from_equiv nat_list_eq_equiv };

    fn eq(&self, other: &Ident) -> bool {
        self.as_slice() == other.as_slice()
    }
}

impl Eq for Ident {
    ghost laws = { nat_list_eq_equiv };
}

impl PartialOrd for Ident {
    ghost partial_cmp = { as_partial_cmp text_cmp };

    ghost laws = { texts_po };

    fn partial_cmp(&self, other: &Ident) -> Option<Ordering> {
        Some(self.cmp(other))
    }
}

impl Ord for Ident {
    ghost cmp = { text_cmp };

    ghost total = { nat_list_cmp_total };

    ghost matches_partial_cmp = { λ x y. refl };

    ghost matches_eq = { texts_ties };

    fn cmp(&self, other: &Ident) -> Ordering {
        self.as_slice().cmp(other.as_slice())
    }
}

// The place of the first byte that may not stand where it does.
fn first_bad_byte(bytes: &[u8]) -> Option<usize>
    ensures { result ≡ first_bad_byte bytes.now }
{
    if begins_with_mark(bytes) {
        return Some(0);
    }
    first_no_ident_byte(bytes)
}

fn first_no_ident_byte(bytes: &[u8]) -> Option<usize>
    ensures { result ≡ position (λ byte. not (is_ident_byte byte)) bytes.now }
{
    bytes.iter().position(|byte| !is_ident_byte(*byte))
}

fn begins_with_mark(bytes: &[u8]) -> bool
    ensures { result ≡ begins_with_mark bytes.now }
{
    matches!(bytes, [b'.' | b'-', ..])
}

fn is_ident_byte(byte: u8) -> bool
    ensures { result ≡ is_ident_byte byte }
{
    matches!(byte, b'a'..=b'z' | b'A'..=b'Z' | b'0'..=b'9' | b'_' | b'-' | b'.')
}
