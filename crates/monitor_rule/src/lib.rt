//! What the check monitor keeps of the checks that its workers answered: each worker puts entries into one queue, and
//! one reader hands them out. In what was handed out, followed by what the queue holds, the entries of each worker are
//! what that worker put, in its order.
//!
//! An entry has the time at which it was recorded, in UTC.
//!
//! This crate has no threads: the rule speaks of lists. The functions of `laws` do nothing; their clauses say that each
//! kind of step keeps the rule.
#![tactic(auto)]

mod entries;
mod knowing;
mod laws;
mod moments;

pub use entries::Entry;
pub use knowing::{Account, View};
pub use laws::{
    a_joined_recorder_keeps_the_rule, a_new_reader_keeps_the_rule, a_new_recorder_keeps_the_rule,
    a_push_keeps_the_rule, a_reader_is_told, a_recorder_is_told,
    a_take_after_the_recorders_tells_what_is_left, a_take_keeps_the_rule,
    what_is_left_comes_in_order, what_is_left_is_told,
};
pub use moments::Moment;
