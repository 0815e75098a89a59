// What a person who keeps a service is told.

/// Who is told of what happens while a service runs, a line each. No clause speaks of it.
pub trait Notes {
    /// Tells this line, which has no end of line.
    fn note(&self, line: &str);
}

/// Tells nobody.
#[derive(Clone, Copy, Debug)]
pub struct Unheard;

impl Notes for Unheard {
    fn note(&self, _line: &str) {}
}

/// An administrator stopped the service.
pub(crate) fn note_stop<T: Notes>(notes: &T) {
    notes.note("privilege: an administrator stopped the service");
}

/// Of a connection of an administrator, by whether it was known before it and behind it what the folder keeps.
pub(crate) fn note_store<T: Notes>(notes: &T, before: bool, after: bool) {
    if before && !after {
        notes.note(
            "privilege: a call of the store failed, and what it keeps is settled at the next command",
        );
    }
    if !before && after {
        notes.note("privilege: what the store keeps is settled");
    }
}
