//! The answers that a client keeps, so that a question which is asked again needs no round trip.
//!
//! Cynara's client library caches answers, as its wiki says. Which answers it may use, and that the cache never holds
//! more than it was made for, is this project's profile: an entry is used only where it is not older than the commit
//! that the client was told of, and whoever keeps a cache empties it where its connection is given up.
#![tactic(auto)]

mod caches;
mod hashing;
mod keys;
mod limits;

pub use caches::AnswerCache;
pub use limits::MOST_ENTRIES;
