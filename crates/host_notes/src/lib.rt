//! What a person is told on standard error around a run of the program: what standard input is read for, and behind a
//! run that failed what failed on what and why, and then what can be done.
//!
//! No clause speaks of it, and no promise of a run depends on it. Where standard error takes nothing, there is no one
//! to tell.
#![tactic(auto)]

mod explanations;
mod folder_steps;
mod greetings;
mod socket_steps;

pub use explanations::{explain, explain_streams, tell_folder_failure};
pub use greetings::{COMMANDS_ARE_READ, RULES_ARE_READ};
