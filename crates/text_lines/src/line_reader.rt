ghost use Rattle.std.specs.Prelude.{◌≡◌, ◌≤◌, ◌<◌, ◌+◌, ◌||◌, true, false, ℕ, List, []};
ghost use Rattle.std.specs.Prelude.{◌∷◌, ◌++◌, length, take, nat_lt, IfOk, IfErr, OnOk, MatchResult};
ghost use Rattle.std.specs.List.{list_any};
ghost use Rattle.text_lines.specs.Lines.{HasNoNewline, is_newline, line_of};
ghost use Rattle.text_lines.specs.declared.TheConstants.{NEWLINE};
ghost use Rattle.desk_ports.specs.Content.{Took};
ghost use Rattle.text_lines.specs.LineReader.{has_line, needs_no_reading};
ghost use Rattle.text_lines.specs.LineReader.{HandsOutNext, EndsReading, CountsReading, Keeps, IsUnfinished};
ghost use Rattle.text_lines.specs.parts.Gathering.{Gathers, IsCut, IsPastLimit};
ghost use Rattle.text_lines.specs.parts.Gathering.{ReadsMore, FailsToRead, HandsOutWaiting};

use crate::refusal::ReadRefusal;
use crate::split_at_newline;
use crate::window::Window;
use desk_ports::Source;
use std::alloc::{AllocError, Global};
use std::marker::Model;

/// How many bytes the window has at first. It grows only where a longer line may stand in the text.
const WINDOW: usize = 262_144;

/// Reads a text from a source line by line. A line is handed out where it stands in the window, without a copy; it is
/// found by one pass over its bytes, in whatever pieces they come.
#[derive(Drop)]
pub struct LineReader {
    window: Window,
    /// The line in hand stands at the front of the window: its length, and the length with its newline.
    line: usize,
    taken: usize,
    /// How many bytes behind that are known to be no newline.
    scanned: usize,
    number: u32,
    room: usize,
    longest: usize,
    is_ended: bool,
}

impl Model for LineReader {
    ghost use Rattle.text_lines.specs.LineReader.{LineReading};

    ghost Value = { LineReading };

    ghost use Rattle.text_lines.specs.parts.Reading.{reading_of, IsScanned};

    ghost view = { reading_of };

    ghost invariant = { IsScanned };
}

impl LineReader {
    /// A reader before the first line of a text, of at most so many bytes, whose lines have at most `longest` bytes
    /// without their newline.
    pub fn new(alloc: Global, longest: usize, most: u32) -> Result<LineReader, AllocError>
        requires { most ≤ 4294967294 }
        ensures { IfOk result (λ reader. reader ≡
            record { line = []; number = 0; waiting = []; room = most; longest = longest; is_ended = false }) }
    {
        Ok(LineReader {
            window: Window::new(alloc, WINDOW)?,
            line: 0,
            taken: 0,
            scanned: 0,
            number: 0,
            room: most as usize,
            longest,
            is_ended: false,
        })
    }

    /// The line in hand, without its newline: the one that the last `Ok(true)` of `next` handed out.
    pub fn line(&self) -> &[u8]
        ensures { result.now ≡ self.now.line }
    {
        &self.window.as_slice()[..self.line]
    }

    /// The number of the line in hand, from 1; 0 before the first.
    pub fn number(&self) -> u32
        ensures { result ≡ self.now.number }
    {
        self.number
    }

    /// Whether a whole line waits, so that `next` reads nothing from the source.
    pub fn has_line(&mut self) -> bool
        ensures found { result ≡ has_line self.old }
        ensures same { self.new ≡ self.old }
    {
        let waiting = &self.window.as_slice()[self.taken..];
        self.scanned = scan(waiting, self.scanned);
        self.scanned < waiting.len()
    }

    /// Whether the line that waits has more bytes than a line may have, as far as it is read: which of the two limits
    /// it is that `PastLimit` speaks of.
    pub fn is_line_too_long(&self) -> bool
        ensures { result ≡ nat_lt self.now.longest (length (line_of self.now.waiting)) }
    {
        let waiting = &self.window.as_slice()[self.taken..];
        cut_line(waiting, self.scanned).line > self.longest
    }

    /// Hands out the next line, which is then in hand. `Ok(false)` where no line is left. Reads from the source as
    /// long as no whole line waits and the source has not given its end.
    ///
    /// Refuses `PastLimit` at a line that is too long or goes past the longest text, as soon as so many bytes of it are
    /// read; `Source` where a call of the source failed, which its count shows; and `Memory`, where the window had to
    /// grow. What was read waits after each refusal.
    pub fn next<S: Source>(&mut self, source: &mut S) -> Result<bool, ReadRefusal>
        ensures next { HandsOutNext (S.left source.old) (S.left source.new) self.old self.new result }
        ensures ended { EndsReading (S.left source.old) (S.left source.new) self.old self.new }
        ensures untouched { needs_no_reading self.old ≡ true → source.new ≡ source.old }
        ensures count { CountsReading result (S.faults source.old) (S.faults source.new) }
    {
        self.gather(source)?;
        self.hand_out()
    }

    // Reads until a whole line waits, or the source is at its end.
    fn gather<S: Source>(&mut self, source: &mut S) -> Result<(), ReadRefusal>
        ensures gathered { Gathers (S.left source.old) (S.left source.new) self.old self.new result }
        ensures ended { EndsReading (S.left source.old) (S.left source.new) self.old self.new }
        ensures untouched { needs_no_reading self.old ≡ true → source.new ≡ source.old }
        ensures count { CountsReading result (S.faults source.old) (S.faults source.new) }
    {
        while !self.has_line() && !self.is_ended {
            self.within_limits()?;
            self.read_more(source)?;
        }
        Ok(())
    }

    // Refuses a line that is past a limit before its end is read.
    fn within_limits(&self) -> Result<(), ReadRefusal>
        requires { has_line self.now ≡ false }
        ensures { MatchResult result (λ _. IsUnfinished self.now) (IsPastLimit self.now) }
    {
        let waiting = self.window.as_slice().len() - self.taken;
        if waiting > self.room || waiting > self.longest {
            return Err(ReadRefusal::PastLimit(self.number + 1));
        }
        Ok(())
    }

    // Reads once from the source. Drops the line in hand.
    fn read_more<S: Source>(&mut self, source: &mut S) -> Result<(), ReadRefusal>
        requires within { length self.old.waiting ≤ self.old.room }
        requires running { self.old.is_ended ≡ false }
        ensures kept { Keeps (S.left source.old) (S.left source.new) self.old self.new }
        ensures more { OnOk result (ReadsMore (S.left source.old) (S.left source.new) self.old self.new) }
        ensures err { IfErr result (FailsToRead self.old self.new) }
        ensures count { CountsReading result (S.faults source.old) (S.faults source.new) }
    {
        self.window.drop_front(self.taken);
        self.line = 0;
        self.taken = 0;
        let most = self.room + 1 - self.window.as_slice().len();
        if !self.window.read(source, most)? {
            self.is_ended = true;
        }
        Ok(())
    }

    // Hands out a line that waits.
    fn hand_out(&mut self) -> Result<bool, ReadRefusal>
        requires { needs_no_reading self.old ≡ true }
        ensures { HandsOutWaiting self.old self.new result }
    {
        let waiting = &self.window.as_slice()[self.taken..];
        let Cut { line, piece } = cut_line(waiting, self.scanned);
        if piece == 0 {
            return Ok(false);
        }
        if piece > self.room || line > self.longest {
            return Err(ReadRefusal::PastLimit(self.number + 1));
        }
        self.window.drop_front(self.taken);
        self.line = line;
        self.taken = piece;
        self.scanned = 0;
        self.number += 1;
        self.room -= piece;
        Ok(true)
    }
}

// How long the first line of some bytes is, without its newline, and as a piece of the text with it.
#[derive(Clone, Copy)]
struct Cut {
    line: usize,
    piece: usize,
}

// Cuts bytes behind their first newline, or at their end where they have none.
fn cut_line(bytes: &[u8], scanned: usize) -> Cut
    requires within { scanned ≤ length bytes.now }
    requires scanned { HasNoNewline (take scanned bytes.now) }
    ensures { IsCut bytes.now result.line result.piece }
{
    let line = scan(bytes, scanned);
    if line < bytes.len() {
        Cut {
            line,
            piece: line + 1,
        }
    } else {
        Cut { line, piece: line }
    }
}

// How many bytes stand before the first newline, or are there without one, where the first so many are known to be
// none.
fn scan(bytes: &[u8], scanned: usize) -> usize
    requires within { scanned ≤ length bytes.now }
    requires scanned { HasNoNewline (take scanned bytes.now) }
    ensures within { result ≤ length bytes.now }
    ensures scanned { HasNoNewline (take result bytes.now) }
    ensures newline { nat_lt result (length bytes.now) ≡ list_any is_newline bytes.now }
    ensures found { result < length bytes.now
        → (rest : List ℕ) × (bytes.now ≡ take result bytes.now ++ NEWLINE ∷ rest) }
{
    match split_at_newline(&bytes[scanned..]) {
        Some((line, _)) => scanned + line.len(),
        None => bytes.len(),
    }
}
