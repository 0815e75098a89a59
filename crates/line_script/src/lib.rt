//! Scripts: the lines that are known, each read into a step.
//!
//! The grammar is this project's profile; docs/use/REFERENCE.md has it as a table.
#![tactic(auto)]

mod changes;
mod commands;
mod installs;
mod levels;
mod lines;
mod progress;
mod questions;
mod reader;
mod sharing;
mod spots;
mod steps;

pub use reader::{MOST_LINE_BYTES, Reader};
pub use script_words::{LineRefusal, Place, VERBS, Verb, read_number};
pub use spots::Spot;
pub use steps::Step;
