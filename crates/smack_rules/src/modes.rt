//! Access modes.

ghost use Rattle.std.specs.Prelude.{◌≡◌, Some, [], if◌then◌else◌};
ghost use Rattle.std.specs.List.{list_all};
ghost use Rattle.smack_rules.specs.Modes.{is_empty, union, without, is_within, has, is_request};
ghost use Rattle.smack_rules.specs.Modes.{stands_in, is_mode_byte, is_mode_word, modes_of, spelling};

use std::fmt;

/// The most bytes of a mode word.
pub const MOST_MODE_WORD_BYTES: usize = 64;

/// A set of access modes, each with its letter. The letter `l` is this project's profile.
#[derive(Clone, Copy, Debug, PartialEq, Eq)]
pub struct Modes {
    /// `r`
    pub read: bool,
    /// `w`
    pub write: bool,
    /// `x`
    pub execute: bool,
    /// `a`
    pub append: bool,
    /// `t`
    pub transmute: bool,
    /// `l`
    pub lock: bool,
    /// `b`: the rule is being tried out. It never changes a decision.
    pub bring_up: bool,
}

impl Modes {
    ghost use Rattle.smack_rules.specs.declared.modes.Modes.{Modes};

    /// The set without a mode.
    pub const NO_ACCESS: Modes = Modes {
        read: false,
        write: false,
        execute: false,
        append: false,
        transmute: false,
        lock: false,
        bring_up: false,
    };

    /// The set of all modes.
    pub(crate) const ALL: Modes = Modes {
        read: true,
        write: true,
        execute: true,
        append: true,
        transmute: true,
        lock: true,
        bring_up: true,
    };

    /// Reads a mode word: 1 to 64 bytes, each a letter in either case, or `-`, which adds nothing.
    /// A letter may stand more than once. `None` for every other word.
    pub fn read(word: &[u8]) -> Option<Modes>
        ensures named { result ≡ modes_of word.now }
        // What a set is printed as is read as that set.
        ensures again { (modes : Modes) → word.now ≡ spelling modes → result ≡ Some modes }
    {
        if !is_mode_word(word) {
            return None;
        }
        Some(Modes {
            read: stands_in(word, b'r'),
            write: stands_in(word, b'w'),
            execute: stands_in(word, b'x'),
            append: stands_in(word, b'a'),
            transmute: stands_in(word, b't'),
            lock: stands_in(word, b'l'),
            bring_up: stands_in(word, b'b'),
        })
    }

    /// Whether the set may be asked for: it has a letter, and has no `b`.
    pub fn is_request(self) -> bool
        ensures { result ≡ is_request self }
    {
        !self.is_empty() && !self.bring_up
    }

    /// Whether the set has no mode.
    pub fn is_empty(self) -> bool
        ensures { result ≡ is_empty self }
    {
        !(self.read
            || self.write
            || self.execute
            || self.append
            || self.transmute
            || self.lock
            || self.bring_up)
    }

    /// Whether the set has a mode, named by its small letter. No other byte is in a set.
    pub fn has(self, letter: u8) -> bool
        ensures { result ≡ has self letter }
    {
        match letter {
            b'r' => self.read,
            b'w' => self.write,
            b'x' => self.execute,
            b'a' => self.append,
            b't' => self.transmute,
            b'l' => self.lock,
            b'b' => self.bring_up,
            _ => false,
        }
    }

    /// The modes of either set.
    pub fn union(self, other: Modes) -> Modes
        ensures { result ≡ union self other }
    {
        Modes {
            read: self.read || other.read,
            write: self.write || other.write,
            execute: self.execute || other.execute,
            append: self.append || other.append,
            transmute: self.transmute || other.transmute,
            lock: self.lock || other.lock,
            bring_up: self.bring_up || other.bring_up,
        }
    }

    /// The modes of this set that aren't in the other.
    pub fn without(self, other: Modes) -> Modes
        ensures { result ≡ without self other }
    {
        Modes {
            read: self.read && !other.read,
            write: self.write && !other.write,
            execute: self.execute && !other.execute,
            append: self.append && !other.append,
            transmute: self.transmute && !other.transmute,
            lock: self.lock && !other.lock,
            bring_up: self.bring_up && !other.bring_up,
        }
    }

    /// The set with what is allowed added, and what is denied then taken out.
    pub fn adjusted(self, allow: Modes, deny: Modes) -> Modes
        ensures { result ≡ without (union self allow) deny }
    {
        self.union(allow).without(deny)
    }

    /// Whether each mode of this set is in the other.
    pub fn is_within(self, other: Modes) -> bool
        ensures { result ≡ is_within self other }
    {
        self.without(other).is_empty()
    }
}

impl fmt::Display for Modes {
    ghost output = { λ modes. Some (spelling modes) };

    /// Writes the letters in the order `rwxatlb`, and `-` for the set without one.
    fn fmt<W: fmt::Write>(&self, f: &mut fmt::Formatter<W>) -> fmt::Result {
        if self.is_empty() {
            return write!(f, "-");
        }
        let read = letter_if(self.read, "r");
        let write = letter_if(self.write, "w");
        let execute = letter_if(self.execute, "x");
        let append = letter_if(self.append, "a");
        let transmute = letter_if(self.transmute, "t");
        let lock = letter_if(self.lock, "l");
        let bring_up = letter_if(self.bring_up, "b");
        write!(
            f,
            "{read}{write}{execute}{append}{transmute}{lock}{bring_up}"
        )
    }
}

/// The letter where it is there, and else no text.
fn letter_if(present: bool, letter: &str) -> &str
    ensures { result.now ≡ (if present then letter.now else []) }
{
    if present { letter } else { "" }
}

/// Whether a word names a set of modes.
fn is_mode_word(word: &[u8]) -> bool
    ensures { result ≡ is_mode_word word.now }
{
    let fits = !word.is_empty() && word.len() <= MOST_MODE_WORD_BYTES;
    fits && are_mode_bytes(word)
}

/// Whether each byte of a word may stand in a mode word.
fn are_mode_bytes(word: &[u8]) -> bool
    ensures { result ≡ list_all is_mode_byte word.now }
{
    word.iter().all(|byte| is_mode_byte(*byte))
}

/// Whether a byte is a letter of a mode in either case, or `-`.
fn is_mode_byte(byte: u8) -> bool
    ensures { result ≡ is_mode_byte byte }
{
    matches!(
        byte.to_ascii_lowercase(),
        b'-' | b'r' | b'w' | b'x' | b'a' | b't' | b'l' | b'b'
    )
}

/// Whether a letter stands in a word, in either case.
fn stands_in(word: &[u8], letter: u8) -> bool
    ensures { result ≡ stands_in word.now letter }
{
    word.iter().any(|byte| byte.to_ascii_lowercase() == letter)
}
