//! A list that only grows, and exists in the proofs alone. One thread puts entries behind it; others know fronts of it.
//!
//! Which list it is stands in a type parameter, `J`. So whatever two threads know of lists of one `J` are fronts of one
//! list, though they share no more than a number: how many entries it has. A second list goes with it, that of events,
//! whose name is `Events<J>`.
#![tactic(auto)]

mod books;
mod fronts;
mod rules;
mod words;

pub use fronts::Front;
pub use rules::{Events, Naming};
pub use words::{Book, Opened};
