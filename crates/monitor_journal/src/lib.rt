//! What is written of a monitor: a line for each check that its reader hands out, and at the end one for each worker
//! with the count of its checks that were missed. After a call of the sink has failed nothing further is written.
#![tactic(auto)]

mod causes;
mod entry_lines;
mod journals;
mod last_lines;
mod numbers;
mod writing;

pub use journals::{MOST_AT_ONCE, hand_on};
pub use last_lines::write_end;
pub use writing::Writing;
