//! What a person is told of a script beside its answers: which rule a refused line broke, and what would keep it; which
//! name of a question is not there, and which one may be meant; which link of the layout a command took away; and of a
//! damaged store, what its file has to be.
//!
//! A note goes to `Sink::note`. No contract speaks of its text, no answer and no status depends on it, and where there
//! is no memory for one there is none.
#![tactic(auto)]

mod absent_names;
mod damages;
mod device_labels;
mod large_audits;
mod line_notes;
mod lost_links;
mod near_names;
mod refusal_notes;
mod refusal_words;
mod shown;

pub use damages::note_damage;
pub use line_notes::LineNotes;
pub use refusal_notes::note_refusal;
