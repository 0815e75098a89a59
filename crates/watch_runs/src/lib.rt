//! `watch W`: the service of a device over its folder, as `serve W` runs it, whose workers of clients also record what
//! they answered. A thread beside them writes each line as it comes, and once all have ended what is left is written,
//! and how many checks of each worker were missed.
#![tactic(auto)]

mod endings;
mod journals;
mod misses;
mod runs;

pub use runs::run_watch;
