// Who holds the lock on a folder, where the machine tells it.
use arrayvec::ArrayString;
use std::fmt::Write;
use std::fs::{File, Metadata, OpenFile};
use std::io::{Error, ErrorKind};
use std::os::unix::fs::MetadataExt;
use std::rt::Files;
use std::{fs, io};

/// Where the machine lists the locks that are held, a line each.
const LOCKS: &str = "/proc/locks";

/// The place, among the words of such a line, of the kind of the lock, of the process, and of the file.
const KIND: usize = 1;

const PROCESS: usize = 4;

const FILE: usize = 5;

/// A lock that is held by an open file, as `flock` gives it.
const FLOCK: &[u8] = b"FLOCK";

/// Why the lock on this open folder was not given, where another open has it.
pub fn holder_error<R: Files + AllocGlobal + Drop>(rt: &R, opened: &File) -> Error {
    match holder_words(rt, opened) {
        Ok(Some(words)) => Error::new(ErrorKind::WouldBlock, words.as_str()),
        _ => Error::new(ErrorKind::WouldBlock, "another program is using it"),
    }
}

// The words that name the process which has the lock. `None` where the machine tells none.
fn holder_words<R: Files + AllocGlobal + Drop>(
    rt: &R,
    opened: &File,
) -> io::Result<Option<ArrayString<80>>> {
    let Some(file) = file_word(&opened.metadata()?) else {
        return Ok(None);
    };
    let locks = fs::read(rt, LOCKS)?;
    let Some(process) = process_of(&locks, file.as_str().as_bytes()) else {
        return Ok(None);
    };
    let Ok(process) = str::from_utf8(process) else {
        return Ok(None);
    };
    let mut words = ArrayString::new();
    Ok(
        write!(words, "another program is using it, process {process}")
            .ok()
            .map(|()| words),
    )
}

// A file as the list of locks names it: the two numbers of its device in hexadecimal, and its own number.
fn file_word(seen: &Metadata) -> Option<ArrayString<40>> {
    let (device, number) = (seen.dev(), seen.ino());
    let high = (device >> 8) % 0x1000;
    let low = device % 0x100 + (device >> 12) % 0x10_0000 / 0x100 * 0x100;
    let mut word = ArrayString::new();
    write!(word, "{high:02x}:{low:02x}:{number}").ok()?;
    Some(word)
}

// The process that has a lock on this file, where a line of the list says so and names one.
fn process_of<'a>(locks: &'a [u8], file: &[u8]) -> Option<&'a [u8]> {
    for line in locks.split(|byte| *byte == b'\n') {
        if is_lock_on(line, file) {
            return word_at(line, PROCESS);
        }
    }
    None
}

fn is_lock_on(line: &[u8], file: &[u8]) -> bool {
    word_at(line, KIND) == Some(FLOCK) && word_at(line, FILE) == Some(file)
}

// The word at this place of a line.
fn word_at(line: &[u8], place: usize) -> Option<&[u8]> {
    line.split(|byte| *byte == b' ')
        .filter(|word| !word.is_empty())
        .nth(place)
}
