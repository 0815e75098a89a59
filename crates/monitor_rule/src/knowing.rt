use crate::entries::Entry;

/// What a worker put in all.
pub struct Account {
    pub worker: u32,
    // A clause reads an array as a list of any length; so below.
    pub put: [Entry; 0],
}

/// What a recorder or the reader knows. No value of it is made.
pub struct View {
    /// It is a recorder's, of this worker, which put these entries.
    pub records: bool,
    pub worker: u32,
    pub put: [Entry; 0],
    /// It is the reader's, which handed out these entries, made recorders for the workers below this number, and took
    /// in these accounts of recorders that have ended.
    pub reads: bool,
    pub handed: [Entry; 0],
    pub made: u32,
    pub joined: [Account; 0],
    /// All recorders were joined, and this is left in the queue.
    pub ends: bool,
    pub left: [Entry; 0],
}
