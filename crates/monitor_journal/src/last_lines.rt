// What is written once the recorders have ended.
ghost use Rattle.std.specs.Prelude.{[]};
ghost use Rattle.check_monitor.specs.Monitor.{AreOf, Cover};
ghost use Rattle.monitor_journal.specs.Journal.{EndsJournal, entries_text, missed_lines};
ghost use Rattle.run_endings.specs.Outside.{sink_seen};
ghost use Rattle.monitor_journal.specs.declared.writing.Writing.TheVariants.{GoesOn};
ghost use Rattle.monitor_journal.specs.parts.Spelling.{Spells, WritesSpelled};

use crate::Writing;
use crate::journals::{spell, spell_missed, write_room};
use check_monitor::{Reader, Recorder, Settled};
use desk_ports::{Bytes, Sink};
use std::alloc::Global;
use std::sync::Wait;

/// Once all recorders of the reader have ended: writes a line for each entry that is left, and then for each recorder
/// the line that says how many checks it missed. It may wait.
pub fn write_end<R: Wait, K: Sink>(
    rt: &R,
    alloc: Global,
    writing: Writing,
    reader: Reader,
    recorders: Vec<Recorder>,
    sink: &mut K,
) -> Writing
    requires queue { AreOf reader.queue recorders.items }
    requires all { Cover reader.made recorders.items }
    ensures { EndsJournal reader recorders.items writing result (sink_seen K.taken K.faults sink.old)
        (sink_seen K.taken K.faults sink.new) }
{
    let mut missed = Bytes::new(alloc);
    let missed_spelled = spell_each_missed(&mut missed, &recorders);
    let mut settled = reader.settle(rt, recorders);
    let mut left = Bytes::new(alloc);
    let left_spelled = spell_left(rt, &mut left, &mut settled);
    let between = write_spelled(&left, left_spelled, writing, sink);
    write_spelled(&missed, missed_spelled, between, sink)
}

// Spells for each recorder how many checks it missed.
fn spell_each_missed(room: &mut Bytes, recorders: &[Recorder]) -> Writing
    ensures { Spells GoesOn room.old (missed_lines recorders.now) result room.new }
{
    let mut spelled = Writing::GoesOn;
    for recorder in recorders {
        spelled = spell_missed(room, spelled, recorder.worker(), recorder.missed());
    }
    spelled
}

// Spells the lines of all entries that are left.
fn spell_left<R: Wait>(rt: &R, room: &mut Bytes, settled: &mut Settled) -> Writing
    ensures { Spells GoesOn room.old (entries_text settled.old) result room.new }
{
    let mut spelled = Writing::GoesOn;
    while let Some(entry) = settled.next(rt) {
        spelled = spell(room, spelled, &entry);
    }
    spelled
}

// Writes what was spelled, where the writing goes on.
fn write_spelled<K: Sink>(room: &Bytes, spelled: Writing, writing: Writing, sink: &mut K) -> Writing
    ensures { WritesSpelled spelled room.now writing (sink_seen K.taken K.faults sink.old) result
        (sink_seen K.taken K.faults sink.new) }
{
    match writing {
        Writing::GoesOn => write_room(room, spelled, sink),
        Writing::SinkFailed => Writing::SinkFailed,
        Writing::OutOfMemory => Writing::OutOfMemory,
    }
}
