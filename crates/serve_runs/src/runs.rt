// `serve W`, and what it shares with a service that does more beside.
ghost use Rattle.std.specs.Prelude.{◌≡◌, ◌<◌, ◌≤◌, ℕ, List, Option, length, IfOk, IfNone, OnSome};
ghost use Rattle.live_desk.specs.Seat.{new_seats};
ghost use Rattle.run_endings.specs.Outside.{disk_seen};
ghost use Rattle.serve_runs.specs.Handlers.{states_of, AreLeftOf};
ghost use Rattle.serve_runs.specs.Run.{RunsServe, RunsPlain};
ghost use Rattle.serve_runs.specs.Serving.{IsUndone};

use crate::endings::ending_of;
use crate::serving::serve_folder;
use crate::tasks::{NoTask, Task};
use crate::telling::note_over;
use check_monitor::Alarm;
use desk_keeper::{Keeper, KeptDesk};
use desk_ports::Disk;
use desk_server::{ClientHandler, Notes, Unrecorded};
use folder_runs::ending_of_mount;
use link_ports::{Dial, Door, Gate, Link, Net};
use run_endings::Ending;
use std::alloc::{AllocError, Global};
use std::sync::Wait;
use std::thread::Threads;
use std::time::Clock;

/// How many workers of clients there may be.
pub const MOST_CLIENT_WORKERS: u32 = 64;

/// Mounts the folder, and serves clients by so many workers, agents and administrators, until an administrator stops
/// the service, or the administrators' door fails, or that of each worker of clients. All threads have ended then, and
/// all doors are closed. Where an `accept` found no memory it ends for that, else where the disk failed for that, and
/// else where the net did. Where not all threads can be made nobody is served, and it ends for want of memory. It may
/// wait.
pub fn run_serve<
    R: Threads + Wait + Clock + Sync,
    D: Disk,
    N: Net + Send,
    G: Gate + Sync,
    T: Notes + Sync,
>(rt: &R, alloc: Global, workers: u32, disk: &mut D, net: &mut N, gate: &G, notes: &T) -> Ending
where
    N::Door: Send,
    <N::Door as Door>::Link: Send,
    <<N::Door as Door>::Link as Link>::End: Send,
    <N as Dial>::Link: Send,
    <<N as Dial>::Link as Link>::End: Send,
    requires some { 0 < workers }
    requires most { workers ≤ 64 }
    ensures { RunsPlain N.Door.Link.traffic N.Door.Link.marks N.Door.Link.faults N.Door.given_back N.Door.faults
        N.Door.kind workers result (disk_seen D.state D.moment D.left_since D.faults disk.old)
        (disk_seen D.state D.moment D.left_since D.faults disk.new)
        (N.faults net.old) (N.faults net.new) (N.closed net.old) (N.closed net.new) }
{
    let Ok(handlers) = unrecorded(alloc, workers) else {
        return Ending::Memory;
    };
    let run = run_service(
        rt,
        alloc,
        workers,
        handlers,
        disk,
        net,
        gate,
        notes,
        &Alarm::new(),
        &mut NoTask,
    );
    run.ending
}

// Nothing to do beside, for each of so many workers.
fn unrecorded(alloc: Global, workers: u32) -> Result<Vec<Unrecorded>, AllocError>
    ensures { IfOk result (λ handlers. length handlers.items ≡ workers) }
{
    let mut handlers = Vec::with_capacity(alloc, workers as usize)?;
    for _ in 0..workers {
        handlers.push(Unrecorded)?;
    }
    Ok(handlers)
}

/// How a service ended; and what has become of what its workers of clients did beside, in their order, where there was
/// a service.
#[derive(Drop)]
pub struct ServiceRun<X: Drop> {
    pub ending: Ending,
    pub handlers: Option<Vec<X>>,
}

/// Serves as `run_serve` does, by a worker of clients for each of these handlers, which does that beside answering, and
/// does the task in turns meanwhile, on one more thread, which the alarm wakes. It may wait.
pub fn run_service<
    R: Threads + Wait + Clock + Sync,
    D: Disk,
    N: Net + Send,
    G: Gate + Sync,
    T: Notes + Sync,
    X: ClientHandler + Send,
    C: Task + Send,
>(
    rt: &R,
    alloc: Global,
    workers: u32,
    handlers: Vec<X>,
    disk: &mut D,
    net: &mut N,
    gate: &G,
    notes: &T,
    alarm: &Alarm,
    task: &mut C,
) -> ServiceRun<X>
where
    N::Door: Send,
    <N::Door as Door>::Link: Send,
    <<N::Door as Door>::Link as Link>::End: Send,
    <N as Dial>::Link: Send,
    <<N as Dial>::Link as Link>::End: Send,
    requires some { 0 < workers }
    requires most { workers ≤ 64 }
    requires handlers { length handlers.items ≡ workers }
    ensures runs { (left : Option (List X.State))
        × RunsServe X.seat_of (X.visits N.Door.Link.traffic N.Door.Link.marks N.Door.Link.faults)
        N.Door.Link.traffic N.Door.Link.marks N.Door.Link.faults N.Door.given_back N.Door.faults N.Door.kind
        (states_of X.state (new_seats workers) handlers.items) left result.ending
        (disk_seen D.state D.moment D.left_since D.faults disk.old)
        (disk_seen D.state D.moment D.left_since D.faults disk.new)
        (N.faults net.old) (N.faults net.new) (N.closed net.old) (N.closed net.new)
        × AreLeftOf X.state (λ now. now.items) result.handlers left }
    ensures task { OnSome result.handlers ((turns : ℕ) × C.goes task.old turns task.new) }
    ensures undone { IfNone result.handlers (IsUndone result.ending) }
    ensures untouched { IfNone result.handlers (task.new ≡ task.old) }
{
    let disk_faults = disk.faults();
    let net_faults = net.faults();
    let found = match KeptDesk::find(alloc, disk) {
        Ok(found) => found,
        Err(refusal) => {
            return ServiceRun {
                ending: ending_of_mount(refusal),
                handlers: None,
            };
        }
    };
    let mut keeper = Keeper::of(alloc, disk, found);
    let served = serve_folder(
        rt,
        alloc,
        workers,
        handlers,
        &mut keeper,
        net,
        gate,
        notes,
        alarm,
        task,
    );
    let _ = keeper.into_disk();
    note_over(notes);
    let met = match served {
        Ok(met) => met,
        Err(ending) => {
            return ServiceRun {
                ending,
                handlers: None,
            };
        }
    };
    let ending = ending_of(
        met.lacked_memory,
        met.alone,
        disk_faults,
        disk.faults(),
        net_faults,
        net.faults(),
    );
    ServiceRun {
        ending,
        handlers: Some(met.handlers),
    }
}
