//! The words of `privctl`, as `clap` reads them: what is asked for, and the options.
//!
//! What a name, a number or a path means in its place is no matter of this crate.
#![tactic(auto)]

mod grammar;
mod orders;
mod reading;

pub use orders::{Asked, At, LevelWords, LogWords, Order, Style, Subject, Unread};
pub use reading::read_order;
