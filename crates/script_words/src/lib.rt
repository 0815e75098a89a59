//! The words of a script's lines: which word opens a line, and what each of the others says where it stands.
//!
//! The words are this project's profile; docs/use/REFERENCE.md has them as tables.
#![tactic(auto)]

mod line_words;
mod numbers;
mod phrases;
mod places;
mod refusals;
mod results;
mod verbs;
mod word_forms;

pub use line_words::Words;
pub use numbers::read_number;
pub use phrases::{filter_words, key_words, question_words};
pub use places::Place;
pub use refusals::LineRefusal;
pub use results::result_word;
pub use verbs::{VERBS, Verb};
pub use word_forms::{
    author_word, bucket_word, depth_word, end_word, ident_word, label_word, level_word, name_word,
    package_kind_word, request_word, scope_word, setter_word, uid_word, user_type_word,
};
