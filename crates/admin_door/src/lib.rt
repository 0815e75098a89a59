//! The door for administrators: the messages that come over a connection, each answered along the policy state in the
//! folder.
//!
//! A command is answered as done only once its state is durable and published, and each connection of a client that
//! entered before it was hung up. What an earlier command left undone is settled before the next.
#![tactic(auto)]

mod admin_loops;
mod commands;
mod due_links;
mod laws;
mod publishing;
mod questions;
mod services;
mod settling;
mod states;

pub use admin_loops::admin_loop;
pub use commands::answer_command;
pub use due_links::DueLink;
pub use laws::{
    a_command_is_decided_where_no_call_fails, a_folder_that_is_known_leads_on,
    an_acknowledged_command_lasts, each_frame_of_an_administrator_is_answered,
    each_published_state_is_reached,
};
pub use publishing::KeptPublisher;
