use cynara_keys::Question;
use wire_messages::WireRefusal;

/// How the serving of a connection ended. Where several hold, `Hung` comes first, then `Stopped`, and then what the
/// link gave.
#[derive(Debug, Drop, PartialEq, Eq)]
pub enum Ended {
    /// The input ended between frames, or an agent was told that its kind is taken.
    Closed,
    /// The input ended within a frame, of which so many bytes had come.
    Cut(usize),
    /// A commit hung the connection up: it had entered below the roll's note of now.
    Hung {
        entered: u64,
        now: u64,
    },
    /// A call of the link failed.
    LinkFault,
    /// The bytes are no frame that this door knows, or one that is not known where it stands.
    BadFrame(WireRefusal),
    /// The service is stopped.
    Stopped,
    /// Want of memory.
    Memory,
    /// The table of questions has none of the number that this connection put, or another question than its own, which
    /// is given.
    Strayed {
        number: u32,
        found: Option<Question>,
    },
}
