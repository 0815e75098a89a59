use thiserror::Error;
use wire_messages::WireRefusal;

/// Why no reply was read from a link.
#[derive(Clone, Copy, Debug, PartialEq, Eq)]
pub enum Broken {
    /// A call of the link failed, or its input ended before the reply was whole.
    Lost,
    /// The bytes are no frame that this side hears, or want of memory to read them.
    Wrong(WireRefusal),
}

/// What is wrong with the bytes that came in reply to a frame.
#[derive(Clone, Copy, Debug, PartialEq, Eq, Error)]
pub enum ReplyFault {
    /// They are no frame that a client hears.
    #[error("the reply is no frame: {0}")]
    Frame(WireRefusal),
    /// The reply has another sequence number than the frame that was sent.
    #[error("the reply has the sequence number {got}, and {sent} was sent")]
    Sequence { sent: u16, got: u16 },
    /// The number of the reply's operation, which is no answer to what was sent.
    #[error("a reply of the operation {0} is no answer here")]
    Operation(u8),
}
