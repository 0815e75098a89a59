//! The check monitor: the checks that workers answered, handed to one reader through a queue of a bounded room. A check
//! for which there is no room is counted as missed, and keeps no worker waiting. An alarm wakes the reader's thread
//! where it waits.
//!
//! A recorder is seen as the list of entries that it put, the reader as the list that it handed out, and once the
//! recorders have ended, as what is left. The rule that ties these together over all threads is `Delivers` of
//! `monitor_rule`.
#![tactic(auto)]

mod alarms;
mod opening;
mod readers;
mod recorders;
mod recording;
mod rest;
mod running;

pub use alarms::Alarm;
pub use monitor_rule::{Entry, Moment};
pub use opening::{MOST_ROOM, MOST_WORKERS, open};
pub use readers::Reader;
pub use recorders::{Decided, MOST_PUT, Recorder};
pub use recording::Recorded;
pub use rest::Settled;
