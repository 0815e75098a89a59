// What the exports answer. A C header has the same numbers.

/// Nothing is to be done.
pub const IDLE: u8 = 0;
/// The connection is to be closed, if there is one, and the service is to be dialled.
pub const DIAL: u8 = 1;
/// Whether the connection stands is to be tested.
pub const LOOK: u8 = 2;
/// The frame is to be sent, and then bytes are to be received.
pub const SEND: u8 = 3;
/// Bytes are to be received.
pub const WAIT: u8 = 4;
/// An answer is there.
pub const ANSWER: u8 = 5;
/// One policy of a list is there, and more is to come.
pub const ROW: u8 = 6;
/// The agent is registered.
pub const REGISTERED: u8 = 7;
/// The agent is asked.
pub const QUESTION: u8 = 8;
/// Nobody waited for an answer that was given.
pub const UNKNOWN: u8 = 9;
/// A question is to be answered no more.
pub const WITHDRAWN: u8 = 10;

/// An agent would have to be asked.
pub const NOT_RESOLVED: u8 = 16;
/// No agent of the kind is there.
pub const NO_AGENT: u8 = 17;
/// The agent left before it answered.
pub const AGENT_GONE: u8 = 18;
/// No further question can be put to an agent.
pub const AGENT_FULL: u8 = 19;

/// The service could not be reached.
pub const UNAVAILABLE: u8 = 32;
/// The reply is older than the commit that the client was told of.
pub const OLDER: u8 = 33;
/// What came is no frame.
pub const BAD_FRAME: u8 = 34;
/// The reply has another sequence number.
pub const BAD_SEQUENCE: u8 = 35;
/// The reply is no answer here.
pub const BAD_OPERATION: u8 = 36;
/// No memory was found.
pub const NO_MEMORY: u8 = 37;
/// Another agent of the kind is there.
pub const KIND_TAKEN: u8 = 38;

/// The handle holds none.
pub const NO_CORE: u8 = 64;
/// The call is not for this kind of handle.
pub const WRONG_ROLE: u8 = 65;
/// The call has no place now.
pub const WRONG_ORDER: u8 = 66;
/// The number of entries or of bytes is not one that may be.
pub const BAD_COUNT: u8 = 67;
/// The session is no name.
pub const BAD_SESSION: u8 = 68;
/// The client is no name.
pub const BAD_CLIENT: u8 = 69;
/// The user is no name.
pub const BAD_USER: u8 = 70;
/// The privilege is no name.
pub const BAD_PRIVILEGE: u8 = 71;
/// The kind is no agent's.
pub const BAD_KIND: u8 = 72;
/// The service would refuse the message.
pub const BAD_MESSAGE: u8 = 73;
/// The frame would be too long.
pub const TOO_LONG: u8 = 74;
/// No question of that number is to be answered.
pub const WRONG_NUMBER: u8 = 75;
