//! A policy state as a set of files that a person can read, and back. Each state has one set of files, and a set that
//! is that of no state is refused with the file and the line of its first fault.
//!
//! The files and the order of the faults are this project's profile.
#![tactic(auto)]

mod app_packages;
mod bucket_files;
mod file_names;
mod headings;
mod installs;
mod laws;
mod layouts;
mod lines;
mod load_files;
mod numbers;
mod policies;
mod reading;
mod refusals;
mod registries;
mod results;
mod sets;
mod stamps;
mod templates;
mod users;
mod writing;

pub use laws::{
    faults_are_of_no_state, files_read_back, one_set_for_each_state, one_state_for_each_set,
    what_is_read_is_a_state,
};
pub use reading::read;
pub use refusals::TextRefusal;
pub use writing::{write, write_loads};
