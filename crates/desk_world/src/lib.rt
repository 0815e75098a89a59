//! The policy service as a pure machine over lists of events, for one theorem: over every interleaving of checks,
//! commits, hang-ups, agents' replies and stops, each reply that a client is given, from its cache or from the service,
//! is right at one committed policy state that is no older than any commit acknowledged before the question was asked.
//!
//! Each event is one atomic step of the running service. Nothing here runs in it: its calls are these events, and what
//! their contracts promise is what makes an event enabled.
#![tactic(auto)]

mod agent_entries;
mod agent_events;
mod client_events;
mod clients;
mod commit_events;
mod copies;
mod evaluations;
mod events;
mod known;
mod link_events;
mod links;
mod parts;
mod promise;
mod refusals;
mod replies;
mod running;
mod slots;
mod states;
mod stepping;
mod worlds;

pub use events::{Event, Half};
pub use promise::{each_grows, freshness, never_older, recovery, withdrawn_is_unanswered};
pub use refusals::{MOST_ENTRIES, MOST_WAITING, WorldRefusal};
pub use replies::{Given, Reply};
pub use worlds::{World, run};
