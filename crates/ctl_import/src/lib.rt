//! The script of a data base of Cynara: its buckets with their fallbacks, and the policies in them.
//!
//! The data base is that of Cynara's sources: a file `buckets` with a line `BUCKET;KIND;METADATA` for each bucket, the
//! root's name being empty, and for each bucket a file `_BUCKET` with a line `CLIENT;USER;PRIVILEGE;KIND;METADATA` for
//! each policy. KIND is a number in hexadecimal, as `0xFFFF`. What a device of this project cannot keep, or reads
//! otherwise, is told in comments.
#![tactic(auto)]

mod faults;
mod fields;
mod headings;
mod imports;
mod names;
mod policies;

pub use faults::ImportFault;
pub use headings::Heading;
pub use imports::Import;
