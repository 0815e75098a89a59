//! The log of a service, as `watch` writes it: its lines are read, those that are wanted are passed on as they stand,
//! or as lines of JSON.
#![tactic(auto)]

mod entries;
mod logs;
mod objects;
mod reading;
mod times;
mod wants;

pub use entries::{Cause, Decider, Decision, Entry, KeyWords, LogLine};
pub use logs::{LogEnd, pass_on};
pub use reading::read_line;
pub use times::is_time_front;
pub use wants::Wanted;
