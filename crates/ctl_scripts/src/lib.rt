//! Scripts of a device: the one that makes it, and what one would change.
#![tactic(auto)]

mod checking;
mod comparing;
mod plans;
mod scripts;

pub use checking::{ExportRefusal, checked_script};
pub use plans::{Planned, plan};
