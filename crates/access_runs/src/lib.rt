//! `smack-access`: one decision of Smack, under rules that are read from the source.
#![tactic(auto)]

mod access_runs;
mod line_notes;
mod pair_notes;
mod zeros;

pub use access_runs::run_access;
