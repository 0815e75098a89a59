//! The last committed policy state, as threads read it without a lock while a publisher brings the next one.
//!
//! There is one published list of states, whose commits rise. The publisher knows all of it, and each seat a front of
//! it. Which list it is stands in the type of both. A check gives the evaluation of the last state that its seat has
//! then seen, whose commit is not below the greatest note that the roll told the seat. Each seat knows a front of the
//! roll's log too, up to the last time that a connection entered in its place.
#![tactic(auto)]

mod copies;
mod publishers;
mod running;
mod seats;
mod starting;
mod verdicts;

pub use copies::DeskCopy;
pub use live_roll::{Event, Left, MOST_SEATS, Roll, Seated, Stopped};
pub use publishers::{Publisher, Ready};
pub use seats::Seat;
pub use starting::start;
pub use state_list::{Events, Front, Naming, Opened};
pub use verdicts::BorrowedVerdict;
