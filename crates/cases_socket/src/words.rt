// The words of a line.
use link_ports::DoorKind;

/// The words of a line: the call, and what it is given.
#[derive(Clone, Copy)]
pub struct Words<'a> {
    pub call: &'a str,
    pub first: &'a str,
    pub second: &'a str,
    pub third: &'a str,
}

impl<'a> Words<'a> {
    /// The first four words of a line, split at single spaces. One that the line lacks is empty.
    pub fn of(line: &'a str) -> Words<'a> {
        let mut words = line.split(' ');
        Words {
            call: words.next().unwrap_or(""),
            first: words.next().unwrap_or(""),
            second: words.next().unwrap_or(""),
            third: words.next().unwrap_or(""),
        }
    }
}

/// A number, or 0 where the word is none.
pub fn number(word: &str) -> usize {
    word.parse::<usize>().unwrap_or(0)
}

/// A kind of door. What is no other is a client's.
pub fn kind(word: &str) -> DoorKind {
    match word {
        "admin" => DoorKind::Admin,
        "agent" => DoorKind::Agent,
        _ => DoorKind::Client,
    }
}
