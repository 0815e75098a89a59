//! A launcher's client of the policy service: it checks, and keeps what it was answered.
//!
//! What a check means is Cynara's, as its wiki says. When an answer that was kept may be used is this project's
//! profile: only while the link that it came over is up, and only where it is not older than a commit that the client
//! was told of. Since the service hangs up all older links before it acknowledges a commit, no answer is older than one
//! that was acknowledged before the question was asked.
//!
//! These rules are those of the machine of `client_core`. This crate is the loop that drives it: it dials, looks, sends
//! and receives as the machine says.
#![tactic(auto)]

mod asking;
mod client_links;
mod clients;
mod refusals;
mod replies;
mod talking;
mod trying;

pub use client_connection::ReplyFault;
pub use client_links::ClientLink;
pub use clients::Client;
pub use refusals::{Checked, ClientRefusal};
