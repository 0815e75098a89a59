//! What the product asks of the outside: traits of sources, sinks and disks, and their forms in memory.
//!
//! Each object of the outside has a count of faults that never falls. A call fails only where that count rose in it.
//! An object may tell its content; the clauses on content hold where it does.
//!
//! Beside them stand the two containers that all crates share: bytes, and a value in memory of its own.
#![tactic(auto)]

mod boxed;
mod byte_list;
mod disk_calls;
mod disk_replays;
mod disks;
mod fail_list;
mod file_names;
mod file_sets;
mod mem_disk;
mod mem_sink;
mod mem_source;
mod name_order;
mod port_faults;
mod shown;
mod stops;
mod streams;

pub use boxed::Boxed;
pub use byte_list::Bytes;
pub use disk_calls::{DiskCall, RecordedCall};
pub use disks::Disk;
pub use fail_list::FailList;
pub use file_names::{FileName, FileNameRefusal};
pub use file_sets::{FileSet, SetFile};
pub use mem_disk::MemDisk;
pub use mem_sink::MemSink;
pub use mem_source::MemSource;
pub use name_order::names_in_order;
pub use port_faults::PortFault;
pub use shown::shown_bytes;
pub use stops::set_in_order;
pub use streams::{Failed, Sink, Source, write_all};
