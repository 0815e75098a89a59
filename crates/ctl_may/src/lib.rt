//! One question to the service, and a status that a shell can test.
//!
//! The status says no more than the reply did: 0 comes only behind a reply that allows the question that was sent.
#![tactic(auto)]

mod asking;
mod lines;
mod objects;
mod statuses;
mod whys;

pub use asking::{Telling, may};
pub use statuses::{ALLOWED, DENIED, NOT_ASKED, UNDECIDED, zero_allows};
