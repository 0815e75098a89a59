//! The whole policy state of a device: the policy database, users and installs, the rule template, and the number of
//! the last accepted command. A command is accepted and gives the next state, or is refused by the first rule that it
//! breaks.
//!
//! That users get the policies of their type and installs what their packages ask for, by way of buckets that
//! security-manager fills, is Tizen's. The links of these buckets, their fallbacks, the limits and the order of the
//! refusals are this project's profile.
#![tactic(auto)]

mod applying;
mod commands;
mod desks;
mod following;
mod layout_rules;
mod layouts;
mod names;
mod package_rules;
mod refusals;
mod registry_commands;
mod steps;
mod store_commands;

pub use commands::Command;
pub use desks::{Applied, Desk, LAST_COMMIT};
pub use refusals::Refusal;
