//! Frames that are read: whole ones, frames in pieces, and checks that stand at the front of what came.
//!
//! A frame is a length, a sequence number, the number of an operation and the operation's fields. It gives its message,
//! or its first fault from left to right, in whatever pieces it comes.
#![tactic(auto)]

mod decoding;
mod feeding;
mod lent_checks;
mod list_readers;
mod message_readers;
mod refusal_readers;

pub use decoding::decode;
pub use feeding::Feeder;
pub use lent_checks::{LentCheck, check_in_front};
