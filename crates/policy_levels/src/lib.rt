//! Policy levels: what a user, or an administrator for a user, sets that an application may do, and the levels that are
//! set.
//!
//! That a user's own levels and an administrator's stand in buckets of their own is security-manager's; which buckets,
//! the agent that asks a person, and the order of the refusals are this project's profile.
#![tactic(auto)]

mod commands;
mod faults;
mod refusals;
mod rows;

pub use commands::level_command;
pub use refusals::LevelRefusal;
pub use rows::{LevelRow, levels_of};
