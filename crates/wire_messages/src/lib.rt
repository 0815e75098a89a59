//! Frames: how launchers, installers and agents speak to the service.
//!
//! A frame is a length, a sequence number, the number of an operation and the operation's fields; all numbers have
//! their highest byte first. Each message has one spelling, which is read back as the message, in whatever pieces it
//! comes. The frames are this project's profile. Their fields stand in `wire_fields`, and what reads them in
//! `wire_reading`; this crate spells messages, and hands on the names of both.
#![tactic(auto)]

mod commands;
mod encoding;
mod laws;
mod lent_messages;
mod lent_writers;
mod list_writers;
mod message_writers;
mod right_fields;
mod writers;

pub use commands::{command_of, message_of, refused_of};
pub use encoding::{encode, encode_into, encode_message_into};
pub use laws::{
    no_byte_past_a_frame, one_reading, one_refusal, one_spelling, pieces_do_not_matter,
    what_is_heard_is_spelled, what_is_spelled_is_heard,
};
pub use lent_messages::{
    encode_check_into, encode_judged_behind, encode_judged_into, encode_row_into,
    encode_verdict_into,
};
pub use right_fields::{
    agent_question_is_right, answer_is_right, policy_is_right, question_is_right,
    state_file_is_right,
};
pub use wire_fields::{
    BorrowedRow, EncodeRefusal, Framed, Heard, LEAST_LENGTH, MOST_FRAME_BYTES, MOST_LENGTH,
    MOST_PART_BYTES, Message, Operation, PackedVerdict, WireRefusal,
};
pub use wire_reading::{Feeder, LentCheck, check_in_front, decode};
