// What is done while a service goes on, beside its connections.
ghost use Rattle.std.specs.Prelude.{◌+◌, ℕ};

use std::sync::Wait;
use std::time::Clock;

/// What a turn of a task met.
#[derive(Clone, Copy, Debug, PartialEq, Eq)]
pub enum Turn {
    /// Nothing was there to do.
    Idle,
    /// All that was there is done.
    Done,
    /// More may be there than is done at once.
    Full,
}

/// What a thread of a service does in turns while the service goes on, beside its connections.
pub trait Task {
    /// What it may have become after so many turns, where it was this before.
    ghost goes: { Self → ℕ → Self → Type 0 };

    /// Does it once. It may wait.
    fn turn<R: Wait + Clock>(&mut self, rt: &R) -> Turn
        ensures { goes self.old 1 self.new };

    /// It was not done meanwhile.
    ghost stays: { (task : Self) → goes task 0 task };

    /// It was done in two spans of time, one behind the other.
    ghost goes_further: { (first between last : Self) (some more : ℕ)
        → goes first some between → goes between more last → goes first (some + more) last };
}

/// Nothing is done.
#[derive(Clone, Copy, Debug)]
pub struct NoTask;

impl Task for NoTask {
    ghost goes = { λ old turns new. Unit {0} };

    fn turn<R: Wait + Clock>(&mut self, _rt: &R) -> Turn {
        Turn::Idle
    }

    ghost stays = { λ task. tt };

    ghost goes_further = { λ first between last some more one then. tt };
}
