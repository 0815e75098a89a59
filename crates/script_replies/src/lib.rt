//! Scripts and their answers: how far a script is read, what its bytes say, what each step is answered at a policy
//! state, and what a person is told of a line that is none.
#![tactic(auto)]

mod check_index;
mod deciding;
mod folded_rules;
mod levels;
mod line_notes;
mod next_line;
mod questions;
mod sharing;

pub use folded_rules::FoldedRules;
pub use levels::{print_audit, print_level_refusal, print_levels};
pub use line_notes::{note_open_block, note_past_limit, note_script_line};
pub use next_line::read_next_line;
pub use questions::{print_done, print_from, print_list, print_refusal};
pub use sharing::{print_share_refusal, print_shared, print_shares};

/// The most bytes of a script.
pub const MOST_SCRIPT_BYTES: u32 = 16_777_216;
