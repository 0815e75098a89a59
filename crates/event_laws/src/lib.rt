//! The calls of a running service and of its clients, and the events of the world of `desk_world`: laws, each of
//! which says that the clause of a call makes its event enabled, and that what the call left stands for the world
//! behind it (`StandsFor`, `CacheStands`). What agents do has none, nor most of what a client sends. The functions do
//! nothing; their clauses are the laws.
#![tactic(auto)]

mod clients;
mod commits;
mod connections;
mod workers;

pub use clients::{
    a_closed_connection_is_noticed, a_hit_is_an_event, a_new_client_stands,
    a_received_reply_is_an_event, a_told_commit_is_an_event,
};
pub use commits::{
    a_command_is_four_events, a_command_that_is_done_was_stored_and_shown, a_commit_is_stored,
    a_failed_commit_is_undecided, a_publication_is_an_event, a_remount_decides,
    a_start_is_behind_a_stop, a_started_service_is_a_fresh_world,
    what_is_answered_as_done_is_acknowledged, what_is_settled_is_acknowledged,
};
pub use connections::{
    a_disconnect_is_an_event, a_stop_disconnects_all, an_entry_is_an_event,
    who_leaves_is_disconnected,
};
pub use workers::{a_check_is_read, a_reply_is_written, what_comes_of_an_agent_is_written};
