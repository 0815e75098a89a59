//! The audit: which of a user's applications may use which privileges at all, as the policy database decides now.
//!
//! The rows that concern a question are taken by comparing many at once. That an audit asks of the whole database, and
//! not of what installs ask for, is this project's profile.
#![tactic(auto)]

mod audits;
mod choosing;
mod narrowing;
mod numbers;

pub use audits::{AuditRefusal, MOST_PAIRS, Pair, audit};
