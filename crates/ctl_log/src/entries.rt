// What a line of a log says.

/// The texts of a policy's key.
#[derive(Clone, Copy)]
pub struct KeyWords<'a> {
    pub client: &'a [u8],
    pub user: &'a [u8],
    pub privilege: &'a [u8],
}

/// What decided: the policy of the bucket with this key, or the bucket's fallback.
#[derive(Clone, Copy)]
pub struct Cause<'a> {
    pub bucket: &'a [u8],
    pub key: Option<KeyWords<'a>>,
}

/// When a check was decided, by what, and why. The time is a text of RFC 3339 in UTC, or `-`; `by` is `policy`, or
/// `agent:` and the kind of the agent.
#[derive(Clone, Copy)]
pub struct Decider<'a> {
    pub time: &'a [u8],
    pub by: &'a [u8],
    pub cause: Cause<'a>,
}

/// What was decided of which question, at which commit: the texts of the line.
#[derive(Clone, Copy)]
pub struct Decision<'a> {
    pub result: &'a [u8],
    pub commit: &'a [u8],
    pub client: &'a [u8],
    pub user: &'a [u8],
    pub privilege: &'a [u8],
}

/// A check that was recorded: by which worker, and as which of its checks. A line of the short form says no more than
/// that and the decision.
#[derive(Clone, Copy)]
pub struct Entry<'a> {
    pub worker: &'a [u8],
    pub number: &'a [u8],
    pub decision: Decision<'a>,
    pub decider: Option<Decider<'a>>,
}

/// A line of a log.
#[derive(Clone, Copy)]
pub enum LogLine<'a> {
    Check(Entry<'a>),
    /// So many checks of a worker were not recorded.
    Missed { worker: &'a [u8], count: &'a [u8] },
    /// Any other line.
    Other,
}
