//! The roll: the connections that a commit has to hang up before it is acknowledged. Each stands in the place of the
//! seat that serves it, with the commit at which it entered.
//!
//! Beside them stands the roll's log: at which commits connections entered, and for which commits connections were hung
//! up, in one order. It exists in the proofs alone. What threads know of it are fronts of one log, named `Events<J>`.
//!
//! The roll is plain data, and stands under a lock where threads share it. No call of it takes memory, but for `new`.
#![tactic(auto)]

mod answers;
mod entries;
mod events;
mod log;
mod rolls;
mod seated;

pub use answers::{Left, Stopped};
pub use events::Event;
pub use rolls::{MOST_SEATS, Roll};
pub use seated::Seated;
