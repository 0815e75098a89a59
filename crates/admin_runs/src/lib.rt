//! `admin`: a script of the source, sent to the service step by step, and the answers that come back.
#![tactic(auto)]

mod admin_scripts;
mod reply_lines;
mod runs;
mod step_messages;

pub use runs::run_admin;
