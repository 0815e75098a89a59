// What the machine shows of a plain file: which one it is, and whether it was written since.
use std::fs::Metadata;
use std::os::unix::fs::MetadataExt;

/// Which file of the machine it is, its length, and when it was written last. Two marks are equal where the file is the
/// same and was not written between, but for a writer within one tick of the machine's clock that keeps its length.
#[derive(Clone, Copy, Debug, PartialEq, Eq)]
pub struct FileMark {
    device: u64,
    number: u64,
    length: u64,
    written: i64,
    written_nanos: i64,
}

impl FileMark {
    /// The mark of the file whose metadata these are.
    pub fn of(seen: &Metadata) -> FileMark {
        FileMark {
            device: seen.dev(),
            number: seen.ino(),
            length: seen.size(),
            written: seen.mtime(),
            written_nanos: seen.mtime_nsec(),
        }
    }

    /// Whether both were taken of one file, also where it was written between.
    pub fn is_of_same(&self, other: &FileMark) -> bool {
        self.device == other.device && self.number == other.number
    }

    /// The length of the file, in bytes.
    pub fn length(&self) -> u64 {
        self.length
    }
}

/// A plain file as it was seen: its mark, and how many names it has.
#[derive(Clone, Copy, Debug)]
pub struct PlainFile {
    pub mark: FileMark,
    pub names: u64,
}

impl PlainFile {
    /// The file whose metadata these are: its mark, and its count of hard links.
    pub fn of(seen: &Metadata) -> PlainFile {
        PlainFile {
            mark: FileMark::of(seen),
            names: seen.nlink(),
        }
    }
}
