// The lines of the checks that were recorded.
ghost use Rattle.monitor_journal.specs.Lines.{entry_text, missed_text};
ghost use Rattle.run_endings.specs.Outside.{sink_seen};
ghost use Rattle.monitor_journal.specs.Journal.{HandsOn, Writes};
ghost use Rattle.monitor_journal.specs.parts.Spelling.{Spells, SpellsEntries};

use crate::Writing;
use crate::entry_lines::{append_entry, append_missed};
use check_monitor::Reader;
use desk_ports::{Bytes, Sink, write_all};
use monitor_rule::Entry;
use std::sync::Wait;

/// How many entries are written at once, at most.
pub const MOST_AT_ONCE: u32 = 1_024;

/// Hands out the entries that are there, at most 1,024, and writes a line for each. The room is for the lines. It may
/// wait.
pub fn hand_on<R: Wait, K: Sink>(
    rt: &R,
    room: &mut Bytes,
    writing: Writing,
    reader: &mut Reader,
    sink: &mut K,
) -> Writing
    ensures { HandsOn 1024 reader.old reader.new writing result (sink_seen K.taken K.faults sink.old)
        (sink_seen K.taken K.faults sink.new) }
{
    room.clear();
    let spelled = spell_entries(rt, room, writing, reader);
    write_room(room, spelled, sink)
}

/// Spells the line that says how many checks of a worker were missed.
pub(crate) fn spell_missed(room: &mut Bytes, writing: Writing, worker: u32, count: u64) -> Writing
    ensures { Spells writing room.old (missed_text worker count) result room.new }
{
    match writing {
        Writing::GoesOn => match append_missed(room, worker, count) {
            Ok(()) => Writing::GoesOn,
            Err(_) => Writing::OutOfMemory,
        },
        Writing::SinkFailed => Writing::SinkFailed,
        Writing::OutOfMemory => Writing::OutOfMemory,
    }
}

// Spells the lines of the entries that are there.
fn spell_entries<R: Wait>(
    rt: &R,
    room: &mut Bytes,
    writing: Writing,
    reader: &mut Reader,
) -> Writing
    ensures { SpellsEntries 1024 reader.old reader.new writing result room.old room.new }
{
    let mut spelled = writing;
    let mut taken = 0;
    while taken < MOST_AT_ONCE {
        let Some(entry) = reader.next(rt) else {
            return spelled;
        };
        spelled = spell(room, spelled, &entry);
        taken += 1;
    }
    spelled
}

/// Spells the line of an entry behind those that wait.
pub(crate) fn spell(room: &mut Bytes, writing: Writing, entry: &Entry) -> Writing
    ensures { Spells writing room.old (entry_text entry.now) result room.new }
{
    match writing {
        Writing::GoesOn => match append_entry(room, entry) {
            Ok(()) => Writing::GoesOn,
            Err(_) => Writing::OutOfMemory,
        },
        Writing::SinkFailed => Writing::SinkFailed,
        Writing::OutOfMemory => Writing::OutOfMemory,
    }
}

/// Writes what was spelled.
pub(crate) fn write_room<K: Sink>(room: &Bytes, writing: Writing, sink: &mut K) -> Writing
    ensures { Writes writing room.now (sink_seen K.taken K.faults sink.old) result
        (sink_seen K.taken K.faults sink.new) }
{
    match writing {
        Writing::GoesOn => match write_all(sink, room.as_slice()) {
            Ok(()) => Writing::GoesOn,
            Err(_) => Writing::SinkFailed,
        },
        Writing::SinkFailed => Writing::SinkFailed,
        Writing::OutOfMemory => Writing::OutOfMemory,
    }
}
