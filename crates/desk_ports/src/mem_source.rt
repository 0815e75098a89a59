ghost use Rattle.std.specs.Prelude.{◌≡◌, ◌<◌, ◌≤◌, ◌↔◌, min, length, take, drop, Some, IfOk, OnOk, OnErr, IsErr};
ghost use Rattle.std.specs.List.{Contains};
ghost use Rattle.desk_ports.specs.Faults.{NeverFalls, CountsFailure};
ghost use Rattle.desk_ports.specs.Content.{Took, AtEnd, Stays};
ghost use Rattle.desk_ports.specs.Memory.{next_call};

use crate::{Bytes, FailList, Failed, Source};
use std::alloc::AllocError;
use std::marker::Model;

/// A source in memory, for tests and for text that is at hand. It tells the bytes left. It gives as many bytes as
/// there is room for, and fails at the listed calls alone.
#[derive(Debug, Drop)]
pub struct MemSource {
    bytes: Bytes,
    given: usize,
    calls: u64,
    fails: FailList,
    faults: u64,
}

impl Model for MemSource {
    ghost use Rattle.std.specs.Prelude.{◌≤◌, length, drop};
    ghost use Rattle.desk_ports.specs.Memory.{Stream};

    ghost Value = { Stream };

    ghost view = { λ source. record {
      bytes = drop source.given source.bytes;
      calls = source.calls;
      fails = source.fails;
      faults = source.faults;
    } };

    ghost invariant = { λ source. source.given ≤ length source.bytes };
}

impl MemSource {
    /// A source of these bytes, with no call made yet.
    pub fn new(left: Bytes, fails: FailList) -> Result<MemSource, AllocError>
        ensures { IfOk result (λ source. source ≡ record { bytes = left; calls = 0; fails = fails; faults = 0 }) }
    {
        Ok(MemSource {
            bytes: left,
            given: 0,
            calls: 0,
            fails,
            faults: 0,
        })
    }

    /// The bytes that are left to read, in order.
    pub fn left(&self) -> &[u8]
        ensures { result.now ≡ self.now.bytes }
    {
        &self.bytes.as_slice()[self.given..]
    }

    /// How many calls of it have failed. The count stands still at its last value.
    pub fn faults(&self) -> u64
        ensures { result ≡ self.now.faults }
    {
        self.faults
    }
}

impl Source for MemSource {
    ghost faults = { λ source. source.faults };

    ghost left = { λ source. Some source.bytes };

    fn read(&mut self, into: &mut [u8]) -> Result<usize, Failed>
        ensures within { IfOk result (λ count. count ≤ length into.old) }
        ensures given { IfOk result (λ count. Took (Some self.old.bytes) (take count into.new) (Some self.new.bytes)) }
        ensures ended { 0 < length into.old → IfOk result (λ count. count ≡ 0 → AtEnd (Some self.old.bytes)) }
        ensures kept { OnErr result (Stays (Some self.old.bytes) (Some self.new.bytes)) }
        ensures count { CountsFailure result self.old.faults self.new.faults }
        ensures bound { NeverFalls self.old.faults self.new.faults }

        // More than any source promises: which calls fail, how many bytes one gives, and what stays.
        ensures listed { IsErr result ↔ Contains self.old.fails (next_call self.old) }
        ensures amount { IfOk result (λ count. count ≡ min (length self.old.bytes) (length into.old)) }
        ensures behind { IfOk result (λ count. drop count into.new ≡ drop count into.old) }
        ensures untouched { OnErr result (into.new ≡ into.old) }
        ensures calls { self.new.calls ≡ next_call self.old }
        ensures fails { self.new.fails ≡ self.old.fails }
    {
        let faults = self.faults;
        self.calls = self.calls.saturating_add(1);
        if self.fails.fails(self.calls) {
            self.faults = faults.saturating_add(1);
            return Err(Failed);
        }
        let left = &self.bytes.as_slice()[self.given..];
        let count = left.len().min(into.len());
        into[..count].copy_from_slice(&left[..count]);
        self.given += count;
        Ok(count)
    }
}
