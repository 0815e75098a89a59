//! The connections of a service, served by threads over the locks that all of them share: one connection by the loop of
//! its door, and a worker for each door, which accepts connections one after the other, serves each, and gives its link
//! back, until the service is stopped.
//!
//! A worker of clients may record the checks that the policies or an agent decided. Each is recorded once its reply was
//! sent, once and in order, with the time. What a recorder puts, and what it counts as missed, is what `check_monitor`
//! says of each record.
//!
//! A worker starts no thread. Which threads the workers run on is for whoever starts them. That these very locks are
//! handed to the loops no clause says.
#![tactic(auto)]

mod admin_workers;
mod handlers;
mod laws;
mod monitored_workers;
mod monitoring;
mod noted_checks;
mod notes;
mod serving;
mod workers;

pub use admin_workers::work_for_administrators;
pub use handlers::{ClientHandler, Unrecorded};
pub use laws::{
    each_record_puts_or_misses, watched_clients_are_served_as_others,
    what_is_put_is_what_was_judged,
};
pub use monitored_workers::work_for_monitored_clients;
pub use monitoring::serve_monitored;
pub use notes::{Notes, Unheard};
pub use serving::{serve_admin, serve_agent, serve_client};
pub use workers::{WorkerEnd, work_for_agents, work_for_clients};
