// What a person who keeps the service is told. No clause speaks of it.
use desk_server::{Notes, WorkerEnd};
use link_ports::DoorKind;

/// The service can be connected to.
pub(crate) fn note_ready<T: Notes>(notes: &T) {
    notes.note("privilege: ready");
}

/// A worker at a door of this kind ended so, though the service was not stopped.
pub(crate) fn note_end<T: Notes>(notes: &T, kind: DoorKind, end: WorkerEnd) {
    match end {
        WorkerEnd::Stopped => {}
        WorkerEnd::DoorFailed => notes.note(failed_line(kind)),
        WorkerEnd::Memory => notes.note(lacking_line(kind)),
        // Why is told where it is decided.
        WorkerEnd::Alone | WorkerEnd::Unstarted => {}
    }
}

fn failed_line(kind: DoorKind) -> &'static str {
    match kind {
        DoorKind::Client => "privilege: a worker of clients ended: its door failed",
        DoorKind::Agent => "privilege: a worker of agents ended: its door failed",
        DoorKind::Admin => "privilege: the worker of administrators ended: its door failed",
    }
}

fn lacking_line(kind: DoorKind) -> &'static str {
    match kind {
        DoorKind::Client => "privilege: a worker of clients ended: out of memory",
        DoorKind::Agent => "privilege: a worker of agents ended: out of memory",
        DoorKind::Admin => "privilege: the worker of administrators ended: out of memory",
    }
}

/// No worker of clients is left.
pub(crate) fn note_alone<T: Notes>(notes: &T) {
    notes.note("privilege: no worker of clients is left, so the service ends");
}

/// Not all threads could be made.
pub(crate) fn note_short<T: Notes>(notes: &T) {
    notes.note("privilege: not every worker has a thread, so nobody is served");
}

/// The service has ended.
pub(crate) fn note_over<T: Notes>(notes: &T) {
    notes.note("privilege: the service has ended");
}
