//! The words of the command line, as `clap` reads them: which command they name, and the word in each of its places.
//!
//! What a word means in its place (a number, a label, a name) is no matter of this crate.
#![tactic(auto)]

mod grammar;
mod lines;
mod reading;
mod texts;

pub use lines::{Line, LineRefusal};
pub use reading::read_line;
pub use texts::{fault_text, form_text, help_text};
