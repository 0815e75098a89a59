//! What the doors of a service have in common: frames that come over a link, and how the serving of a connection ends.
#![tactic(auto)]

mod endings;
mod receiving;
mod sending;

pub use endings::Ended;
pub use receiving::{MOST_PIECE, hear_piece, next_frame, receive_more, receive_piece};
pub use sending::send_message;
