//! `local`: a script of commands and questions, answered over the folder.
#![tactic(auto)]

mod local_runs;
mod local_script;

pub use local_runs::run_local;
