// Connections of clients whose checks are recorded.
ghost use Rattle.std.specs.Prelude.{List, None, Option};
ghost use Rattle.server_hall.specs.Tally as counted;
ghost use Rattle.server_hall.specs.declared.calls.HallCall as call;
ghost use Rattle.client_door.specs.Serving.{client_side};
ghost use Rattle.check_monitor.specs.Monitor.{IsSame};
ghost use Rattle.desk_server.specs.Monitoring.{ServesMonitored};

use crate::noted_checks::NotedChecks;
use check_monitor::Recorder;
use client_door::recorded_loop;
use door_frames::Ended;
use link_ports::{Gate, Link};
use live_desk::{Naming, Seat};
use live_roll::Roll;
use server_hall::{Hall, Locked, QuestionDesk};
use std::alloc::Global;
use std::sync::{Mutex, Wait};
use std::time::Clock;

/// Serves one connection of a client in the place of the seat, as `serve_client` does, and records each check that the
/// policies or an agent decided, once its reply was sent, with the time that the clock then tells. Where there is no
/// memory to keep a check until then, the connection ends. It may wait.
pub fn serve_monitored<R: Wait + Clock, L: Link, G: Gate, J: Naming>(
    rt: &R,
    alloc: Global,
    seat: &mut Seat<J>,
    roll: &Mutex<Roll<L::End, J>>,
    questions: &QuestionDesk,
    link: &mut L,
    gate: &G,
    recorder: &mut Recorder,
) -> Ended
    ensures served { (tally : counted.Tally) × (calls : Option (List call.HallCall)) × ServesMonitored result
        (client_side seat.old counted.no_calls None (L.traffic link.old) (L.marks link.old) (L.faults link.old))
        (client_side seat.new tally calls (L.traffic link.new) (L.marks link.new) (L.faults link.new))
        recorder.old recorder.new }
    ensures same { IsSame recorder.old recorder.new }
{
    let mut hall = Locked::new(rt, roll, questions);
    serve_noting(rt, alloc, seat, &mut hall, link, gate, recorder)
}

// The same over any hall.
fn serve_noting<R: Wait + Clock, J: Naming, A: Hall<List = J>, L: Link<End = A::End>, G: Gate>(
    rt: &R,
    alloc: Global,
    seat: &mut Seat<J>,
    hall: &mut A,
    link: &mut L,
    gate: &G,
    recorder: &mut Recorder,
) -> Ended
    ensures { ServesMonitored result
        (client_side seat.old (A.tally hall.old) (A.calls hall.old) (L.traffic link.old) (L.marks link.old)
        (L.faults link.old))
        (client_side seat.new (A.tally hall.new) (A.calls hall.new) (L.traffic link.new) (L.marks link.new)
        (L.faults link.new))
        recorder.old recorder.new }
{
    let mut checks = NotedChecks::new(rt, alloc, recorder);
    let ended = recorded_loop(rt, alloc, seat, hall, link, gate, &mut checks);
    let _recorder = checks.into_recorder();
    ended
}
