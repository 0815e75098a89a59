//! Messages on the wire: their operations and fields, how each field is encoded, and how it is read.
//!
//! A field is read from the front of what is left of a frame, or is refused with the place of its first byte. All
//! numbers have their highest byte first. `specs/Message.antt` has the fields of each message, and
//! `proofs/MessageLaws.antt` that what is encoded is read as the message.
#![tactic(auto)]

mod fields;
mod five_texts;
mod limits;
mod messages;
mod name_texts;
mod operations;
pub mod plain_writers;
pub mod readers;
mod refusals;
mod rules;
mod verdicts;

pub use fields::Fields;
pub use limits::{LEAST_LENGTH, MOST_FRAME_BYTES, MOST_LENGTH, MOST_PART_BYTES};
pub use messages::{Framed, Message, operation};
pub use operations::{Heard, Operation};
pub use refusals::{EncodeRefusal, WireRefusal};
pub use rules::Rule;
pub use verdicts::{BorrowedRow, BorrowedRuling, PackedVerdict, lent_row};
