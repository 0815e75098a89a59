//! A script run on a policy state in memory: which state follows, and which of its lines are refused.
//!
//! It is run as a service runs what `admin` sends it, but for its questions, which change nothing and are passed over.
#![tactic(auto)]

mod running;

pub use running::{Ran, RefusedLine, RunFault, run_script};
