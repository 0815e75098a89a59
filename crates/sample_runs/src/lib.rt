//! `sample N`: a generated script of so many applications on a fresh policy state, and how its checks are decided.
#![tactic(auto)]

mod lines;
mod sample_runs;
mod samples;
mod tallies;

pub use sample_runs::run_sample;
