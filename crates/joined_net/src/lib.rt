//! A net for tests with threads. A link is one of two ends that share their bytes under a lock, so that programs on
//! several threads of one process talk to each other as they would over sockets.
//!
//! It tells nothing of its bytes: what another thread does to them no clause can say. Proved are what links,
//! diallers, doors and nets promise of counts and marks, and what each step under the lock does.
#![tactic(auto)]

mod doors;
mod links;
mod nets;
mod queues;
mod wires;

pub use doors::JoinedDoor;
pub use links::{JoinedEnd, JoinedLink};
pub use nets::JoinedNet;
