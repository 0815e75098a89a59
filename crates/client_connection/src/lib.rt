//! The connection of a client: what goes over it, and how it ends, in words that the clients' contracts share; and the
//! two calls on a link by which a frame goes out and a reply comes back piece by piece.
#![tactic(auto)]

mod asking;
mod calls;
mod faults;
mod laws;
mod reading;

pub use asking::Outcome;
pub use calls::{receive_some, send_frame};
pub use faults::{Broken, ReplyFault};
pub use laws::no_more_is_taken_than_a_frame;
pub use reading::read_frame;
