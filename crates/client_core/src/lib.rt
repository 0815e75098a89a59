//! The sides of a connection to the policy service, without the connection: a client, an administrator and an agent,
//! each as a machine that its caller drives.
//!
//! A machine makes no system call. Its caller tells it what happened to the connection, and the machine answers what is
//! to be done next: dial, look whether the connection is up, send a frame, receive so many bytes; or what the service
//! said. So whoever has sockets, in whatever language, has the rules of this project's profile with them: which bytes
//! are sent, which bytes are a reply, when a kept answer may be used, and what is forgotten when a connection ends.
#![tactic(auto)]

mod admins;
mod agents;
mod clients;
mod ears;
mod faults;
mod feeding;
mod laws;
mod machines;
mod raw_messages;
mod stages;
mod steps;
mod wanted;

pub use admins::AdminMachine;
pub use agents::AgentMachine;
pub use clients::ClientMachine;
pub use laws::{what_an_administrators_answer_means, what_an_agent_sends, what_an_answer_means};
pub use machines::Machine;
pub use steps::{Fault, Step};
