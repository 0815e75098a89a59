//! What `privctl` asks of a running service, through the door for administrators: the policy state as a whole, what the
//! service answers to a question, what it tells of itself, and a command.
#![tactic(auto)]

mod answering;
mod asking;
mod commands;
mod files;
mod frames;
mod refusals;
mod service_frames;
mod services;
mod settling;
mod states;

pub use answering::answers;
pub use asking::verdict_of;
pub use commands::{Obeyed, obey};
pub use refusals::DoorRefusal;
pub use service_frames::ServiceSeen;
pub use services::service_seen;
pub use settling::{Settled, settled_state};
pub use states::state_of_service;
