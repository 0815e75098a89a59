//! The policy database: buckets that point to one another, and the changes that are made to them, whole or not at all.
//!
//! Buckets, their fallbacks and policies that point to another bucket are those of the Cynara wiki. The limits, the
//! order of the refusals and that no bucket may reach itself are this project's profile.
#![tactic(auto)]

mod batches;
mod buckets;
mod copies;
mod cycles;
mod databases;
mod edits;
mod endings;
mod flags;
mod in_place;
mod key_rows;
mod limits;
mod links;
mod merges;
mod name_numbers;
mod named;
mod one_bucket;
mod policy_changes;
mod refusals;
mod row_copies;
mod searches;
mod selections;

pub use buckets::Bucket;
pub use databases::{Database, Erased, has_cycle};
pub use limits::{MOST_BUCKETS, MOST_POLICIES};
pub use policy_changes::{Change, Changes};
pub use refusals::StoreRefusal;
