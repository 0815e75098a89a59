// What is written, and the status of a run.
use desk_ports::{Bytes, Sink, shown_bytes, write_all};
use std::alloc::{AllocError, Global};
use std::io;

/// The status of a run that did its work.
pub(crate) const DONE: u8 = 0;

/// The status of a plan with refused lines.
pub(crate) const REFUSED: u8 = 1;

/// The status of a run that could not do its work.
pub(crate) const NOT_DONE: u8 = 3;

/// The status of words that are no order.
pub(crate) const WRONG_WORDS: u8 = 4;

/// The most bytes of a line that a person is told.
const MOST_TOLD_BYTES: usize = 400;

/// Writes the text, and answers the status; where it was not taken, a person is told, and it is `NOT_DONE`.
pub(crate) fn write_text<K: Sink>(text: &[u8], status: u8, sink: &mut K) -> u8 {
    match write_all(sink, text) {
        Ok(()) => status,
        Err(_) => {
            sink.note("privctl: cannot write standard output");
            NOT_DONE
        }
    }
}

/// Tells a person each line of the text. A byte that is no printable ASCII stands as `\xNN`.
pub(crate) fn tell_lines<K: Sink>(alloc: Global, text: &str, sink: &mut K) {
    for line in text.lines() {
        if let Ok(shown) = shown_bytes(alloc, line.as_bytes(), MOST_TOLD_BYTES) {
            sink.note(shown.as_str());
        }
    }
}

/// Tells a person the bytes behind the text, and answers `NOT_DONE`.
pub(crate) fn tell_wrong<K: Sink>(alloc: Global, text: &str, bytes: &[u8], sink: &mut K) -> u8 {
    if let Ok(shown) = shown_bytes(alloc, bytes, MOST_TOLD_BYTES) {
        if let Ok(line) = format!(in alloc; "privctl: {text} {shown}") {
            sink.note(line.as_str());
        }
    }
    NOT_DONE
}

/// Tells a person why the file of this path cannot be read, and answers `NOT_DONE`.
pub(crate) fn tell_unread<K: Sink>(
    alloc: Global,
    path: &[u8],
    error: &io::Error,
    sink: &mut K,
) -> u8 {
    if let Ok(shown) = shown_bytes(alloc, path, MOST_TOLD_BYTES) {
        if let Ok(line) = format!(in alloc; "privctl: cannot read {shown}: {error}") {
            sink.note(line.as_str());
        }
    }
    NOT_DONE
}

/// Writes the text, where there was memory for it, and answers the status.
pub(crate) fn written<K: Sink>(text: Result<Bytes, AllocError>, status: u8, sink: &mut K) -> u8 {
    match text {
        Ok(text) => write_text(text.as_slice(), status, sink),
        Err(_) => {
            sink.note("privctl: out of memory");
            NOT_DONE
        }
    }
}
