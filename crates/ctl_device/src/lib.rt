//! The policy state that `privctl` asks: of a copy of a store, which stays as it is.
#![tactic(auto)]

mod copies;
mod readings;

pub use copies::{CopyRefusal, state_of_copy};
