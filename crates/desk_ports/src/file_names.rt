ghost use Rattle.std.specs.Prelude.{◌≡◌, not, Some, refl, IfOk, IfErr, OnOk};
ghost use Rattle.std.specs.Ordering.{nat_cmp};
ghost use Rattle.std.specs.Cmp.{partial_equiv_from_equiv};
ghost use Rattle.std.specs.Cmp.Lexicographic.{slice_cmp, texts_po, texts_ties};
ghost use Rattle.std.specs.List.{position};
ghost use Rattle.std.specs.Str.{bytes_eq};
ghost use Rattle.std.proofs.lemmas.Cmp.{nat_list_eq_equiv, nat_list_cmp_total};
ghost use Rattle.desk_ports.specs.FileName.{file_name_fault, IsFileName, RefusesName};
ghost use Rattle.desk_ports.specs.FileName as word;

use std::alloc::{AllocError, Global};
use std::cmp::Ordering;
use std::marker::Model;
use thiserror::Error;

/// The most bytes of a file name.
pub const MOST_FILE_NAME_BYTES: usize = 255;

/// Why bytes are no file name: the first rule that they break.
#[derive(Clone, Copy, Debug, PartialEq, Eq, Error)]
pub enum FileNameRefusal {
    #[error("a file name has at least one byte")]
    Empty,
    #[error("a file name has at most 255 bytes")]
    TooLong,
    /// The place of the first such byte, from 0.
    #[error("byte {0} of the file name, counted from 0, is no letter, digit, `.`, `_`, `-` or `~`")]
    BadByte(usize),
    #[error("out of memory")]
    Memory(AllocError),
}

/// The name of a file in a folder that this product keeps: 1 to 255 bytes, each a letter, a digit, `.`, `_`, `-` or
/// `~`. The names of folders `.` and `..` are file names too; nothing is ever kept under them.
#[derive(Debug, Drop)]
pub struct FileName {
    bytes: Vec<u8>,
}

impl Model for FileName {
    ghost use Rattle.std.specs.Prelude.{List, ℕ};
    ghost use Rattle.desk_ports.specs.FileName.{IsFileName};

    ghost Value = { List ℕ };

    ghost view = { λ name. name.bytes.items };

    ghost invariant = { λ name. IsFileName name.bytes.items };
}

impl FileName {
    /// Reads a file name from its bytes, all of them. Refuses, in this order, `Empty`, `TooLong` and `BadByte`.
    pub fn read(alloc: Global, bytes: &[u8]) -> Result<FileName, FileNameRefusal>
        ensures name { IfOk result (λ name. name ≡ bytes.now) }
        ensures accepted { OnOk result (IsFileName bytes.now) }
        ensures refused { IfErr result (λ refusal. RefusesName refusal (file_name_fault bytes.now)) }
    {
        if bytes.is_empty() {
            return Err(FileNameRefusal::Empty);
        }
        if bytes.len() > MOST_FILE_NAME_BYTES {
            return Err(FileNameRefusal::TooLong);
        }
        if let Some(at) = first_bad_byte(bytes) {
            return Err(FileNameRefusal::BadByte(at));
        }
        let bytes = bytes.to_vec(alloc).map_err(FileNameRefusal::Memory)?;
        Ok(FileName { bytes })
    }

    /// The bytes of the name, as they were read.
    pub fn as_slice(&self) -> &[u8]
        ensures bytes { result.now ≡ self.now }
        ensures name { IsFileName self.now }
    {
        &self.bytes
    }

    /// An equal name in memory of its own.
    pub fn copy(&self) -> Result<FileName, AllocError>
        ensures { IfOk result (λ copy. copy ≡ self.now) }
    {
        Ok(FileName {
            bytes: self.bytes.clone()?,
        })
    }
}

impl PartialEq for FileName {
    ghost eq = { bytes_eq };

    ghost laws = { partial_equiv_from_equiv nat_list_eq_equiv };

    fn eq(&self, other: &FileName) -> bool {
        self.as_slice() == other.as_slice()
    }
}

impl Eq for FileName {
    ghost laws = { nat_list_eq_equiv };
}

impl PartialOrd for FileName {
    ghost partial_cmp = { λ name other. Some (slice_cmp nat_cmp name other) };

    ghost laws = { texts_po };

    fn partial_cmp(&self, other: &FileName) -> Option<Ordering> {
        Some(self.cmp(other))
    }
}

impl Ord for FileName {
    ghost cmp = { slice_cmp nat_cmp };

    ghost total = { nat_list_cmp_total };

    ghost matches_partial_cmp = { λ name other. refl };

    ghost matches_eq = { texts_ties };

    fn cmp(&self, other: &FileName) -> Ordering {
        self.as_slice().cmp(other.as_slice())
    }
}

// The place of the first byte that no file name has.
fn first_bad_byte(bytes: &[u8]) -> Option<usize>
    ensures { result ≡ position (λ byte. not (word.is_file_name_byte byte)) bytes.now }
{
    bytes.iter().position(|byte| !is_file_name_byte(*byte))
}

fn is_file_name_byte(byte: u8) -> bool
    ensures { result ≡ word.is_file_name_byte byte }
{
    matches!(byte, b'a'..=b'z' | b'A'..=b'Z' | b'0'..=b'9' | b'.' | b'_' | b'-' | b'~')
}
