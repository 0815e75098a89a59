// What writes the lines while the service goes on.
ghost use Rattle.std.specs.Prelude.{◌≡◌};
ghost use Rattle.monitor_journal.specs.declared.writing.Writing.TheVariants.{GoesOn};

use check_monitor::Reader;
use desk_ports::{Bytes, Sink};
use desk_server::Notes;
use monitor_journal::{Writing, hand_on};
use serve_runs::{Task, Turn};
use std::alloc::Global;
use std::sync::Wait;
use std::time::Clock;

/// Behind a turn that wrote so many bytes more lines may wait than one turn writes.
const MUCH: usize = 16_384;

/// The reader of what was recorded, how the writing stands, the sink that takes the lines, room for them, and whom a
/// person is told by that no further line is written.
#[derive(Drop)]
pub(crate) struct Journal<'k, K: Sink, T: Notes> {
    pub reader: Reader,
    pub room: Bytes,
    pub writing: Writing,
    pub sink: &'k mut K,
    pub notes: &'k T,
}

impl<'k, K: Sink, T: Notes> Journal<'k, K, T> {
    /// Nothing was written. Takes no memory.
    pub fn new(alloc: Global, reader: Reader, sink: &'k mut K, notes: &'k T) -> Journal<'k, K, T>
        ensures reader { result.reader ≡ reader }
        ensures writing { result.writing ≡ GoesOn }
        ensures sink { result.sink.now ≡ sink.old }
        ensures same { result.sink.ghost_name ≡ sink.entry.ghost_name }
    {
        Journal {
            reader,
            room: Bytes::new(alloc),
            writing: Writing::GoesOn,
            sink,
            notes,
        }
    }

    /// The reader, how the writing stands, and the sink. A caller that lent the sink knows it again by this alone.
    pub fn into_parts(self) -> (Reader, Writing, &'k mut K)
        ensures reader { result.0 ≡ self.entry.reader }
        ensures writing { result.1 ≡ self.entry.writing }
        ensures sink { result.2.now ≡ self.entry.sink.now }
        ensures same_sink { result.2.ghost_name ≡ self.entry.sink.ghost_name }
    {
        let Journal {
            reader,
            writing,
            sink,
            ..
        } = self;
        (reader, writing, sink)
    }
}

/// In each turn what was recorded is written, at most 1,024 lines.
impl<'k, K: Sink, T: Notes> Task for Journal<'k, K, T> {
    ghost use Rattle.std.specs.Prelude.{◌≡◌, refl};
    ghost use Rattle.std.proofs.Common.{◌∙◌};
    ghost use Rattle.run_endings.specs.Outside.{sink_seen};
    ghost use Rattle.monitor_journal.specs.Journal.{Journals};
    ghost use Rattle.monitor_journal.proofs.Writes.{journals_none, journals_then};

    ghost goes = { λ old turns new. (new.sink.ghost_name ≡ old.sink.ghost_name)
        × Journals turns old.reader new.reader old.writing new.writing (sink_seen K.taken K.faults old.sink.now)
        (sink_seen K.taken K.faults new.sink.now) };

    fn turn<R: Wait + Clock>(&mut self, rt: &R) -> Turn {
        let before = self.writing;
        self.writing = hand_on(rt, &mut self.room, before, &mut self.reader, self.sink);
        note_end(self.notes, before, self.writing);
        turn_of(self.room.len())
    }

    ghost stays = { λ journal. (refl, journals_none _ _ _) };

    ghost goes_further = { λ first between last some more one then.
        (then.0 ∙ one.0, journals_then some more _ _ _ _ _ _ _ _ _ one.1 then.1) };
}

// Tells a person that no further line is written, at the turn from which on it is so.
fn note_end<T: Notes>(notes: &T, before: Writing, now: Writing) {
    match (before, now) {
        (Writing::GoesOn, Writing::SinkFailed) => {
            notes.note("privilege: cannot write standard output: no further check is written");
        }
        (Writing::GoesOn, Writing::OutOfMemory) => {
            notes.note("privilege: out of memory: no further check is written");
        }
        _ => {}
    }
}

// What a turn met that wrote so many bytes.
fn turn_of(written: usize) -> Turn {
    if written == 0 {
        return Turn::Idle;
    }
    if written < MUCH {
        return Turn::Done;
    }
    Turn::Full
}
