use crate::{FileName, SetFile};

/// A call of a disk, with what it was given.
#[derive(Debug, Drop)]
pub enum DiskCall {
    Names,
    Read(FileName),
    Write(SetFile),
    Remove(FileName),
    Sync,
}

/// A call of a disk, and whether it was done or failed.
#[derive(Debug, Drop)]
pub struct RecordedCall {
    pub call: DiskCall,
    pub is_done: bool,
}
