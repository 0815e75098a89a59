//! `check` and `simple`: one question to the service, and the line of its answer.
#![tactic(auto)]

mod answer_lines;
mod check_runs;

pub use check_runs::{ask_once, run_check, run_simple};
