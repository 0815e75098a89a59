//! The lines of a file, and the fields of a line.

ghost use Rattle.std.specs.Prelude.{◌≡◌, ◌∷◌, ◌<◌, [], length, IfSome, MatchOption, position};
ghost use Rattle.set_text.specs.Lines.{fields_of, is_semicolon};
ghost use Rattle.set_text.specs.parts.Reads.{fault_at};

use std::alloc::AllocError;

/// Why a line gives no value.
#[derive(Debug, Drop)]
pub enum LineFault {
    /// The line has another form, or breaks a rule with the lines before it.
    Wrong,
    Memory(AllocError),
}

/// Why a file gives no values.
#[derive(Debug, Drop)]
pub enum FileFault {
    /// The number of the first wrong line, from 1.
    Line(u32),
    Memory(AllocError),
}

impl LineFault {
    /// The fault of the file in which this is the line of a number.
    pub fn at(self, number: u32) -> FileFault
        ensures { result ≡ fault_at number self }
    {
        match self {
            LineFault::Wrong => FileFault::Line(number),
            LineFault::Memory(error) => FileFault::Memory(error),
        }
    }
}

/// Cuts a line at its first semicolon: the field before it, and the bytes behind it. `None` where the line has none.
pub fn cut_field(line: &[u8]) -> Option<(&[u8], &[u8])>
    ensures fields { MatchOption result (fields_of line.now ≡ line.now ∷ [])
        (λ cut. fields_of line.now ≡ cut.0.now ∷ fields_of cut.1.now) }
    ensures shorter { IfSome result (λ cut. length cut.1.now < length line.now) }
{
    match first_semicolon(line) {
        Some(end) => Some((&line[..end], &line[end + 1..])),
        None => None,
    }
}

fn first_semicolon(line: &[u8]) -> Option<usize>
    ensures place { result ≡ position is_semicolon line.now }
    ensures within { IfSome result (λ end. end < length line.now) }
{
    line.iter().position(|byte| *byte == b';')
}
