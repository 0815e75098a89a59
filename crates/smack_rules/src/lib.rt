//! Smack: labels, access modes, rules and the decision that they give, as in the Linux kernel's
//! `Documentation/admin-guide/LSM/Smack`, with the choices of this project's profile marked where they are made.
#![tactic(auto)]

pub use decision::{Decision, decide};
pub use effective::effective_of;
pub use label::{Label, LabelRefusal, MOST_LABEL_BYTES, label_fault};
pub use modes::{MOST_MODE_WORD_BYTES, Modes};
pub use pair_rules::modes_in_text;
pub use rule::{LineRefusal, Rule};
pub use table::{LoadRefusal, MOST_TEXT_BYTES, RuleTable};
pub use words::split_word;

mod changes;
mod decision;
mod effective;
mod label;
mod line_rule;
mod modes;
mod pair_key;
mod pair_rules;
mod rule;
mod spelling;
mod table;
mod words;
