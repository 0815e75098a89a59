//! The words of cases: what the programs of cases share. A case is a line of words, and its answer a text.
#![tactic(auto)]

mod byte_words;
mod disk_texts;
mod disk_words;
mod failures;
mod frame_texts;
mod runs;
mod words;

pub use byte_words::{bytes_of, put_bytes};
pub use disk_texts::{calls_text, folder_text};
pub use disk_words::{fails, file_name, files, put_file};
pub use failures::{Failure, put_ok, put_some};
pub use frame_texts::frame_bytes;
pub use runs::{Found, Runs};
pub use words::{first_number, first_word, put_word};
