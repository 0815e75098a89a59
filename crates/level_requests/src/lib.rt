//! Requests for policy levels: what a person sets an application may do for them, or an administrator for a user.
//!
//! Levels set by a user or by an administrator for one are security-manager's; their words are this project's profile.
#![tactic(auto)]

mod levels;
mod requests;

pub use levels::{LEVELS, Level};
pub use requests::{LevelRequest, Setter};
