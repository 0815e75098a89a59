// What a thread knows of a list.
ghost use Rattle.std.specs.Prelude.{◌≡◌, [], length, MatchBool};
ghost use Rattle.std.specs.Bool.{OnTrue};
ghost use mathlib.Core.List.{IsPrefix};

use crate::rules::{Law, Naming};
use logbook::Seen;
use std::marker::{Model, PhantomData};

/// A front of the list. Contracts see it as its entries.
#[derive(Drop)]
pub struct Front<S, J: Naming> {
    count: u64,
    seen: Seen<S, u64, Law>,
    of: PhantomData<J>,
}

impl<S, J: Naming> Model for Front<S, J> {
    ghost use Rattle.std.specs.Prelude.{◌≡◌, List, length};

    ghost Value = { List S };

    ghost view = { λ front. front.seen.log };

    ghost invariant = { λ front. (front.count ≡ length front.seen.log) × (front.seen.book ≡ J.book) };
}

impl<S, J: Naming> Front<S, J> {
    /// The front that has no entries.
    pub(crate) fn of(seen: Seen<S, u64, Law>) -> Front<S, J>
        requires book { seen.book ≡ J.book }
        requires empty { seen.log ≡ [] }
        ensures { result ≡ [] }
    {
        Front::at(0, seen)
    }

    /// The front that was seen, which has so many entries.
    pub(crate) fn at(count: u64, seen: Seen<S, u64, Law>) -> Front<S, J>
        requires book { seen.book ≡ J.book }
        requires count { count ≡ length seen.log }
        ensures { result ≡ seen.log }
    {
        Front {
            count,
            seen,
            of: PhantomData,
        }
    }

    /// How many entries it has.
    pub(crate) fn count(&self) -> u64
        ensures { result ≡ length self.now }
    {
        self.count
    }

    /// What it was seen by.
    pub(crate) fn known(&self) -> &Seen<S, u64, Law>
        ensures log { result.now.log ≡ self.now }
        ensures book { result.now.book ≡ J.book }
    {
        &self.seen
    }

    /// A copy.
    pub fn again(&self) -> Front<S, J>
        ensures { result ≡ self.now }
    {
        Front {
            count: self.count,
            seen: self.seen.again(),
            of: PhantomData,
        }
    }

    /// Becomes the other front, where that has no fewer entries; whether it did. It began that one then.
    pub fn catch_up(&mut self, other: &Front<S, J>) -> bool
        ensures caught { MatchBool result (self.new ≡ other.now) (self.new ≡ self.old) }
        ensures begins { IsPrefix self.old self.new }
    {
        let mut both = self.seen.again();
        both.learn(&other.seen);
        if self.count > other.count {
            return false;
        }
        *self = other.again();
        true
    }

    /// Whether it has no fewer entries than the other, which then begins it.
    pub fn covers(&self, other: &Front<S, J>) -> bool
        ensures { OnTrue result (IsPrefix other.now self.now) }
    {
        let mut both = self.seen.again();
        both.learn(&other.seen);
        other.count <= self.count
    }
}
