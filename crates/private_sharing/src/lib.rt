//! Private sharing: an application shares a named place with another one, as long as a share is open.
//!
//! That the owner writes and the target reads is the idea of security-manager's private sharing; that a share is
//! counted, the label of the place, the limits and the order of the refusals are this project's profile.
#![tactic(auto)]

mod labels;
mod lists;
mod refusals;
mod rules;
mod shares;

pub use refusals::ShareRefusal;
pub use shares::{MOST_OPENS, MOST_SHARES, Share, Shares};
