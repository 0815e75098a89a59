//! An administrator's client of the policy service: a command is sent once, and the caller hears exactly what came
//! back.
//!
//! What is sent is never sent a second time: of a command whose reply was lost nobody knows whether it was accepted,
//! and sending it again might do it twice. Which bytes are sent, and which bytes are an answer, the machine of
//! `client_core` says; here are the calls on the link that it asks for.
#![tactic(auto)]

mod admin_links;
mod beginning;
mod clients;
mod exchanging;
mod refusals;
mod talking;

pub use admin_links::AdminLink;
pub use clients::AdminClient;
pub use refusals::AdminRefusal;
