//! `agent KIND allow` and `agent KIND deny`: an agent that gives each question of its kind the same answer.
//!
//! Which bytes are sent, and which message may come when, the machine of `client_core` says. Here are the calls on the
//! link that it asks for, and the lines. Of the link no byte is taken past the message that is heard, and the line of a
//! question is written before its answer is sent.
#![tactic(auto)]

mod agents;
mod ends;
mod hearing;
mod runs;
mod turns;

pub use agents::agent_client;
pub use runs::run_agent;
