// `watch W`.
ghost use Rattle.std.specs.Prelude.{◌≡◌, ◌<◌, ◌≤◌, ℕ, List, Some, None, length, IfOk, IfErr};
ghost use Rattle.std.specs.List.{AllZip};
ghost use Rattle.live_desk.specs.Seat.{new_seats};
ghost use Rattle.run_endings.specs.Outside.{disk_seen, sink_seen};
ghost use Rattle.monitor_journal.specs.declared.writing.Writing.TheVariants.{GoesOn};
ghost use Rattle.monitor_journal.specs.Journal.{Journals};
ghost use Rattle.check_monitor.specs.Monitor.{IsSame};
ghost use Rattle.desk_server.specs.Monitored.{Post, post_of, VisitsWatched};
ghost use Rattle.serve_runs.specs.Handlers.{states_of};
ghost use Rattle.serve_runs.specs.Run.{RunsServe};
ghost use Rattle.watch_runs.specs.Watching.{recorders_of, RunsWatch};

use crate::endings::ending_with;
use crate::journals::Journal;
use crate::misses::TellingGate;
use check_monitor::{Alarm, MOST_ROOM, Reader, Recorder, open};
use desk_ports::{Disk, Sink};
use desk_server::Notes;
use link_ports::{Dial, Door, Gate, Link, Net};
use monitor_journal::{Writing, write_end};
use run_endings::Ending;
use serve_runs::{ServiceRun, run_service};
use std::alloc::Global;
use std::sync::Wait;
use std::thread::Threads;
use std::time::Clock;

/// Serves as `run_serve` does, and has the sink take a line for each check that a worker answered by the policies: each
/// as it comes, and at the end those that are left and for each worker the count of its checks that were missed, since
/// 4,096 lines waited. After a call of the sink has failed nothing further is written; the service goes on, and ends
/// for that where it would have been done. It may wait.
pub fn run_watch<
    R: Threads + Wait + Clock + Sync,
    D: Disk,
    N: Net + Send,
    G: Gate + Sync,
    T: Notes + Sync,
    K: Sink + Send,
>(
    rt: &R,
    alloc: Global,
    workers: u32,
    disk: &mut D,
    net: &mut N,
    gate: &G,
    notes: &T,
    sink: &mut K,
) -> Ending
where
    N::Door: Send,
    <N::Door as Door>::Link: Send,
    <<N::Door as Door>::Link as Link>::End: Send,
    <N as Dial>::Link: Send,
    <<N as Dial>::Link as Link>::End: Send,
    requires some { 0 < workers }
    requires most { workers ≤ 64 }
    ensures { RunsWatch N.Door.Link.traffic N.Door.Link.marks N.Door.Link.faults N.Door.given_back N.Door.faults
        N.Door.kind workers result (disk_seen D.state D.moment D.left_since D.faults disk.old)
        (disk_seen D.state D.moment D.left_since D.faults disk.new)
        (N.faults net.old) (N.faults net.new) (N.closed net.old) (N.closed net.new)
        (sink_seen K.taken K.faults sink.old) (sink_seen K.taken K.faults sink.new) }
{
    let Ok((recorders, reader)) = open(alloc, workers, MOST_ROOM) else {
        return Ending::Memory;
    };
    let Ok(alarm) = reader.alarm() else {
        return Ending::Memory;
    };
    let served = serve_watched(
        rt, alloc, workers, recorders, reader, &alarm, disk, net, gate, notes, sink,
    );
    let watched = match served {
        Ok(watched) => watched,
        Err(ending) => return ending,
    };
    let Watched {
        ending,
        recorders,
        reader,
        writing,
    } = watched;
    note_missed(&recorders, notes);
    let writing = write_end(rt, alloc, writing, reader, recorders, sink);
    ending_with(ending, writing)
}

// How a service ended that was watched, its recorders, and what has become of the journal.
#[derive(Drop)]
struct Watched {
    ending: Ending,
    recorders: Vec<Recorder>,
    reader: Reader,
    writing: Writing,
}

// Serves, and writes what is recorded meanwhile; or tells how the run ends that served nobody.
fn serve_watched<
    R: Threads + Wait + Clock + Sync,
    D: Disk,
    N: Net + Send,
    G: Gate + Sync,
    T: Notes + Sync,
    K: Sink + Send,
>(
    rt: &R,
    alloc: Global,
    workers: u32,
    recorders: Vec<Recorder>,
    reader: Reader,
    alarm: &Alarm,
    disk: &mut D,
    net: &mut N,
    gate: &G,
    notes: &T,
    sink: &mut K,
) -> Result<Watched, Ending>
where
    N::Door: Send,
    <N::Door as Door>::Link: Send,
    <<N::Door as Door>::Link as Link>::End: Send,
    <N as Dial>::Link: Send,
    <<N as Dial>::Link as Link>::End: Send,
    requires some { 0 < workers }
    requires most { workers ≤ 64 }
    requires recorders { length recorders.items ≡ workers }
    ensures runs { IfOk result (λ watched. (posts : List Post)
        × RunsServe (λ post. post.seat) (VisitsWatched N.Door.Link.traffic N.Door.Link.marks N.Door.Link.faults)
        N.Door.Link.traffic N.Door.Link.marks N.Door.Link.faults N.Door.given_back N.Door.faults N.Door.kind
        (states_of post_of (new_seats workers) recorders.items) (Some posts) watched.ending
        (disk_seen D.state D.moment D.left_since D.faults disk.old)
        (disk_seen D.state D.moment D.left_since D.faults disk.new)
        (N.faults net.old) (N.faults net.new) (N.closed net.old) (N.closed net.new)
        × (recorders_of posts ≡ watched.recorders.items)) }
    ensures same { IfOk result (λ watched. AllZip IsSame recorders.items watched.recorders.items) }
    ensures journal { IfOk result (λ watched. (turns : ℕ) × Journals turns reader watched.reader GoesOn watched.writing
        (sink_seen K.taken K.faults sink.old) (sink_seen K.taken K.faults sink.new)) }
    ensures refuses { IfErr result (λ ending.
        RunsServe (λ post. post.seat) (VisitsWatched N.Door.Link.traffic N.Door.Link.marks N.Door.Link.faults)
        N.Door.Link.traffic N.Door.Link.marks N.Door.Link.faults N.Door.given_back N.Door.faults N.Door.kind
        (states_of post_of (new_seats workers) recorders.items) None ending
        (disk_seen D.state D.moment D.left_since D.faults disk.old)
        (disk_seen D.state D.moment D.left_since D.faults disk.new)
        (N.faults net.old) (N.faults net.new) (N.closed net.old) (N.closed net.new)) }
    ensures untouched { IfErr result (λ ending. sink.new ≡ sink.old) }
{
    let telling = TellingGate::new(rt, gate, alarm, notes);
    let mut journal = Journal::new(alloc, reader, sink, notes);
    let run = run_service(
        rt,
        alloc,
        workers,
        recorders,
        disk,
        net,
        &telling,
        notes,
        alarm,
        &mut journal,
    );
    let ServiceRun { ending, handlers } = run;
    let (reader, writing, lent) = journal.into_parts();
    let _ = lent;
    match handlers {
        Some(recorders) => Ok(Watched {
            ending,
            recorders,
            reader,
            writing,
        }),
        None => Err(ending),
    }
}

// Whether some checks were missed is for a person too.
fn note_missed<T: Notes>(recorders: &[Recorder], notes: &T) {
    if recorders.iter().any(|recorder| recorder.missed() > 0) {
        notes.note("privilege: some checks were not written: the monitor's queue was full");
    }
}
