/// What a connection is told that leaves the roll: whether the roll's note, a commit, has risen since it entered, or
/// the roll was stopped.
#[derive(Clone, Copy, Debug, PartialEq, Eq)]
pub enum Left {
    Still,
    Hung { now: u64 },
    Stopped { now: u64 },
}

/// Why a connection doesn't enter: the roll is stopped. `commit` is the roll's note.
#[derive(Clone, Copy, Debug, PartialEq, Eq)]
pub struct Stopped {
    pub commit: u64,
}
