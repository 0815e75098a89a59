//! How a run of the program ends: its status, its last line, what it sees of the outside, and what was said by then.
//!
//! Each command is a crate of its own. What it has said is judged here, and the program that runs the commands cites
//! these words once for all of them.
#![tactic(auto)]

mod endings;
mod last_lines;
mod notes;

pub use endings::Ending;
pub use notes::{MOST_SHOWN_BYTES, note_text};
