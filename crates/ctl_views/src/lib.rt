//! What is told of a policy state: what a device has, who may use a privilege, and why a question is answered as it is.
#![tactic(auto)]

mod clients;
mod explanation;
mod listings;
mod near_clients;
mod statuses;
mod trees;
mod who;

pub use explanation::explain;
pub use listings::{list_apps, list_buckets, list_packages, list_users};
pub use statuses::{list_service, list_status};
pub use who::list_who;
