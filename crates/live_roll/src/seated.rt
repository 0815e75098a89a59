ghost use Rattle.std.specs.Prelude.{◌≡◌, ◌<◌, ℕ, MatchBool};
ghost use Rattle.std.specs.Bool.{OnTrue};
ghost use mathlib.Core.List.{IsPrefix};

use crate::events::Event;
use state_list::{Events, Front, Naming};

/// What has a place of the roll, and keeps the notes that it is told, and what it knows of the roll's log.
pub trait Seated<J: Naming> {
    ghost use Rattle.std.specs.Prelude.{List};
    ghost use Rattle.live_roll.specs.declared.events.Event.{Event};

    /// The number of its place, from 0.
    ghost place: { Self → ℕ };

    /// What it knows of the roll's log.
    ghost known: { Self → List Event };

    /// It, once it was told this note, when this was the roll's log.
    ghost told: { ℕ → List Event → Self → Self };

    /// The number of its place, below 64.
    fn place(&self) -> u32
        ensures place { result ≡ place self.now }
        ensures bound { result < 64 };

    /// Tells it the roll's note, a commit, and the roll's log, unless it knows of more than stands in that; whether it
    /// was told.
    fn tell(&mut self, note: u64, events: &Front<Event, Events<J>>) -> bool
        ensures tells { MatchBool result (self.new ≡ told note events.now self.old) (self.new ≡ self.old) }
        ensures knew { OnTrue result (IsPrefix (known self.old) events.now) };
}
