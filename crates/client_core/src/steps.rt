// What a machine answers its caller.

use std::alloc::AllocError;
use wire_messages::{Message, WireRefusal};

/// What the caller of a machine is to do next, or what it is answered.
#[derive(Drop)]
pub enum Step {
    /// Nothing is to be done.
    Idle,
    /// The connection is to be closed, if there is one, and the service is to be dialled.
    Dial,
    /// Whether the connection is up is to be tested.
    Look,
    /// The frame is to be sent, and then as many bytes are to be received as are wanted.
    Send,
    /// As many bytes are to be received as are wanted.
    Wait,
    /// A kept verdict is the answer, and nothing is sent. It is the newest one that is kept.
    Kept,
    /// The service said this, and nothing more of it is to come.
    Reply(Message),
    /// The service said this, and more of the answer is to come.
    Row(Message),
    /// There is no answer, and the connection is to be closed, if there is one.
    Over(Fault),
    /// The service would refuse the message. Nothing changed, and nothing is to be sent.
    Unfit(WireRefusal),
    /// The frame would have more bytes than a frame may have. Nothing changed, and nothing is to be sent.
    TooLong,
    /// No question of the number is to be answered. Nothing changed.
    WrongNumber,
    /// The call has no place now. Nothing changed.
    NotNow,
    /// No byte came, or more than are wanted. Nothing changed.
    BadCount,
}

/// Why there is no answer.
#[derive(Clone, Copy, Debug, PartialEq, Eq)]
pub enum Fault {
    /// The service could not be dialled, or the connection ended before the answer was whole.
    Unavailable,
    /// The reply is older than the commit that the client was told of.
    Older { told: u64, got: u64 },
    /// What came is no frame.
    Frame(WireRefusal),
    /// The reply has another sequence number than the frame that was sent.
    Sequence { sent: u16, got: u16 },
    /// The number of the reply's operation, which is no answer here.
    Operation(u8),
    /// No memory was found.
    Memory(AllocError),
}
