//! The texts of answers: what a line is answered, and the last line of a run.
//!
//! The texts are this project's profile; docs/use/REFERENCE.md has them as a table.
#![tactic(auto)]

mod answers;
mod level_answers;
mod pieces;
mod print_agents;
mod print_answers;
mod print_levels;
mod print_refusals;
mod print_shares;
mod rules_broken;

pub use answers::{LineAnswer, print, print_decision};
pub use level_answers::{LevelAnswer, ShareAnswer};
pub use rules_broken::RuleBroken;
