//! The place of the first fault.

ghost use Rattle.std.specs.Prelude.{◌≡◌, ◌≤◌, ◌<◌, ◌+◌, true, false, length, take};
ghost use Rattle.line_reasons.specs.parts.Grounds.{begins_line};

use crate::grounds::Ground;

/// The most bytes of the line that a known line can begin with. Halves the line again and again, so that a long line
/// costs no more than a few readings of it.
pub(crate) fn longest_front(ground: Ground, line: &[u8]) -> usize
    ensures within { result ≤ length line.now }
    ensures begun { begins_line ground (take result line.now) ≡ true }
    ensures parts { result < length line.now → begins_line ground (take (result + 1) line.now) ≡ false }
{
    let mut low = 0;
    let mut past = line.len() + 1;
    while low + 1 < past {
        let middle = low + (past - low) / 2;
        if ground.begins_line(&line[..middle]) {
            low = middle;
        } else {
            past = middle;
        }
    }
    low
}
