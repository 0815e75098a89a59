//! The door for agents: an agent registers for a kind, is given one question after the other, and answers each under
//! its number, or is told that it was withdrawn. While an agent has a question, or waits for one, it is looked each
//! tenth of a second whether it is still there and the question still open.
#![tactic(auto)]

mod agent_halls;
mod agent_loops;
mod hearing;
mod laws;
mod messages;
mod rounds;
mod sending;
mod waiting;

pub use agent_halls::AgentHall;
pub use agent_loops::agent_loop;
pub use hearing::HeardAnswer;
pub use laws::{a_silent_agent_is_told_nothing, each_frame_of_an_agent_is_heeded};
