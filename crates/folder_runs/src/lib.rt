//! Runs over a folder: mounting it, what a run leaves of it, and `smack-load`.
#![tactic(auto)]

mod load_runs;
mod mounts;

pub use load_runs::run_load;
pub use mounts::ending_of_mount;
