//! `serve W`: the service of a device over its folder, with a worker on a thread of its own for each of W connections
//! of clients and for each of nine of agents. The calling thread serves the administrators, one more thread wakes all
//! others once the service is stopped, and each way out ends all of it. Where not all threads can be made, nobody is
//! served.
//!
//! `run_service` is the same service with something done beside: by each worker of clients, and in turns by that one
//! thread.
#![tactic(auto)]

mod beside;
mod doors;
mod endings;
mod laws;
mod musters;
mod pools;
mod runs;
mod serving;
mod tasks;
mod telling;
mod watches;

pub use laws::{
    each_connection_entered_in_the_one_log, each_verdict_is_of_the_one_list,
    no_reply_is_older_than_what_was_acknowledged,
};
pub use pools::AGENT_WORKERS;
pub use runs::{MOST_CLIENT_WORKERS, ServiceRun, run_serve, run_service};
pub use tasks::{NoTask, Task, Turn};
