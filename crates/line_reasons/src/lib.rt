//! Why a line was refused: for a line of a script that is outside the grammar, and for a line of a text of Smack rules
//! that is none, the first fault, with its place and a reason for a person.
//!
//! The place is proved: so many bytes of the line, and no more, are the front of a line that is known where it stands.
#![tactic(auto)]

mod byte_runs;
mod faults;
mod fixed_words;
mod forms;
mod grounds;
mod near_words;
mod places;
mod reasons;
mod stands;
mod usages;
mod word_tests;
mod wording;
mod words_wrong;

pub use faults::{LineFault, rule_fault, script_fault};
pub use near_words::is_near;
pub use reasons::Reason;
