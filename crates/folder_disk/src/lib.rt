//! A folder of the machine as a disk.
//!
//! What the machine's calls give and take, no clause can say: this crate is part of what is trusted. It tells nothing
//! of what its files hold; proved of it are the counts of failures, and that names come in order.
#![tactic(auto)]

mod byte_digests;
mod failures;
mod file_marks;
mod file_name_bytes;
mod files;
mod folder_disk;
mod folders;
mod known_files;
mod lock_holders;
mod paths;
mod store_signs;

pub use failures::{Failure, FolderStep};
pub use files::{MOST_FILE_BYTES, write_whole};
pub use folder_disk::FolderDisk;
