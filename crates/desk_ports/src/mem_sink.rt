ghost use Rattle.std.specs.Prelude.{◌≡◌, ◌<◌, ◌≤◌, length, take, Some, IfOk, OnOk, OnErr, IsErr};
ghost use Rattle.std.specs.List.{Contains};
ghost use Rattle.desk_ports.specs.Faults.{NeverFalls, CountsFailure};
ghost use Rattle.desk_ports.specs.Content.{Appended, Stays};
ghost use Rattle.desk_ports.specs.Memory.{next_call};

use crate::{Bytes, FailList, Failed, Sink};
use std::alloc::AllocError;
use std::marker::Model;

/// A sink in memory, for tests and for text that is kept. It tells the bytes taken. It takes whole pieces, and fails
/// at the listed calls and where it finds no memory.
#[derive(Debug, Drop)]
pub struct MemSink {
    bytes: Bytes,
    calls: u64,
    fails: FailList,
    faults: u64,
}

impl Model for MemSink {
    ghost use Rattle.desk_ports.specs.Memory.{Stream};

    ghost Value = { Stream };

    ghost view = { λ sink.
        record { bytes = sink.bytes; calls = sink.calls; fails = sink.fails; faults = sink.faults } };
}

impl MemSink {
    /// A sink that has taken these bytes already, with no call made yet.
    pub fn new(taken: Bytes, fails: FailList) -> Result<MemSink, AllocError>
        ensures { IfOk result (λ sink. sink ≡ record { bytes = taken; calls = 0; fails = fails; faults = 0 }) }
    {
        Ok(MemSink {
            bytes: taken,
            calls: 0,
            fails,
            faults: 0,
        })
    }

    /// The bytes taken so far, in order.
    pub fn taken(&self) -> &[u8]
        ensures { result.now ≡ self.now.bytes }
    {
        self.bytes.as_slice()
    }

    /// How many calls of it have failed. The count stands still at its last value.
    pub fn faults(&self) -> u64
        ensures { result ≡ self.now.faults }
    {
        self.faults
    }
}

impl Sink for MemSink {
    ghost faults = { λ sink. sink.faults };

    ghost taken = { λ sink. Some sink.bytes };

    fn write(&mut self, from: &[u8]) -> Result<usize, Failed>
        ensures within { IfOk result (λ count. count ≤ length from.now) }
        ensures some { 0 < length from.now → IfOk result (λ count. 0 < count) }
        ensures taken { IfOk result
            (λ count. Appended (Some self.old.bytes) (take count from.now) (Some self.new.bytes)) }
        ensures kept { OnErr result (Stays (Some self.old.bytes) (Some self.new.bytes)) }
        ensures count { CountsFailure result self.old.faults self.new.faults }
        ensures bound { NeverFalls self.old.faults self.new.faults }

        // More than any sink promises: which calls fail, that one takes the whole piece, and what stays.
        ensures listed { Contains self.old.fails (next_call self.old) → IsErr result }
        ensures whole { IfOk result (λ count. count ≡ length from.now) }
        ensures calls { self.new.calls ≡ next_call self.old }
        ensures fails { self.new.fails ≡ self.old.fails }
    {
        let faults = self.faults;
        self.calls = self.calls.saturating_add(1);
        if self.fails.fails(self.calls) || self.bytes.append(from).is_err() {
            self.faults = faults.saturating_add(1);
            return Err(Failed);
        }
        Ok(from.len())
    }
}
