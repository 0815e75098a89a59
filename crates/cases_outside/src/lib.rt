//! What programs of cases speak with, from words: links in memory whose bytes come in pieces, links with names, over
//! which a case speaks, and a disk in memory on which files are found absent, or in part.
#![tactic(auto)]

mod cut_links;
mod named_links;
mod number_lists;
mod worn_disks;

pub use cut_links::CutLink;
pub use named_links::{NamedLinks, put_hex};
pub use number_lists::numbers;
pub use worn_disks::WornDisk;
