/// What became of a check that was recorded: it was put as the entry with this number, or it was missed, for want of
/// room in the queue or since the recorder has put as many entries as it may. `missed` counts the checks that were
/// missed so far.
#[derive(Clone, Copy, Debug, PartialEq, Eq)]
pub enum Recorded {
    Put(u64),
    Full { missed: u64 },
    Spent { missed: u64 },
}
