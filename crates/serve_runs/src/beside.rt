// The workers on threads, beside the administrators on the calling one.
ghost use Rattle.std.specs.Prelude.{◌≤◌, ℕ};
ghost use Rattle.live_desk.specs.History.{last_commit};
ghost use Rattle.serve_runs.specs.parts.Pools.{HaveWorked};
ghost use Rattle.serve_runs.specs.parts.Administering.{Knocks, Administers};

use crate::musters::Muster;
use crate::tasks::Task;
use crate::telling::{note_end, note_ready, note_short};
use crate::watches::keep_watch;
use check_monitor::Alarm;
use desk_keeper::Keeper;
use desk_ports::Disk;
use desk_server::{Notes, WorkerEnd, work_for_administrators};
use link_ports::{Dial, Door, DoorKind, HangEnd, Link, Net};
use live_desk::{Event, Events, Front, Naming, Publisher};
use live_roll::Roll;
use server_hall::{Locked, QuestionDesk, StopNews};
use std::alloc::Global;
use std::sync::{Mutex, Wait};
use std::thread;
use std::thread::{Threads, join_mut};
use std::time::Clock;

/// Has each worker do its work on a thread of its own, and serves administrators on the calling one. One more thread
/// does the task, and wakes all workers that wait at their doors once the service is stopped, so many of clients among
/// them. Returns when all are done. Where not all threads can be made, nobody is served.
pub(crate) fn beside<
    R: Threads + Wait + Clock + Sync,
    K: Send,
    F: Fn(usize, &mut K) + Sync,
    D: Disk,
    H: HangEnd,
    L: Link,
    E: Door<Link = L>,
    N: Net + Send,
    T: Notes,
    C: Task + Send,
    J: Naming,
>(
    rt: &R,
    alloc: Global,
    clients: u32,
    workers: &mut [K],
    each: &F,
    keeper: &mut Keeper<'_, D>,
    publisher: &mut Publisher<J>,
    roll: &Mutex<Roll<H, J>>,
    questions: &QuestionDesk,
    hangs: &mut Front<Event, Events<J>>,
    muster: &Muster,
    alarm: &Alarm,
    net: &mut N,
    door: &mut E,
    notes: &T,
    task: &mut C,
) -> WorkerEnd
where
    N::Door: Send,
    <N::Door as Door>::Link: Send,
    <<N::Door as Door>::Link as Link>::End: Send,
    <N as Dial>::Link: Send,
    <<N as Dial>::Link as Link>::End: Send,
    requires workers { F.IsAlwaysCallable each.now }
    requires behind { last_commit 0 publisher.old ≤ keeper.old.desk.commit }
    ensures administers { Administers D.faults D.state D.moment D.left_since L.traffic L.marks L.faults
        E.given_back E.faults E.kind result
        keeper.old keeper.new publisher.old publisher.new door.old door.new hangs.new }
    ensures knocks { Knocks N.faults N.closed net.old net.new }
    ensures task { (turns : ℕ) × C.goes task.old turns task.new }
    ensures workers { HaveWorked F.Fn each.now workers.old workers.new }
{
    let threads = (workers.len() as u64).saturating_add(1);
    let mut front = ||
        requires { F.IsAlwaysCallable each.now }
        ensures { HaveWorked F.Fn each.entry.now workers.entry.now workers.exit.now }
    { each_of(rt, each, workers) };
    let mut rest = || -> WorkerEnd
        requires { last_commit 0 publisher.now ≤ keeper.now.desk.commit }
        ensures administers { Administers D.faults D.state D.moment D.left_since L.traffic L.marks L.faults
            E.given_back E.faults E.kind result
            keeper.entry.now keeper.exit.now publisher.entry.now publisher.exit.now door.entry.now door.exit.now
            hangs.exit.now }
        ensures knocks { Knocks N.faults N.closed net.entry.now net.exit.now }
        ensures task { (turns : ℕ) × C.goes task.entry.now turns task.exit.now }
    {
        attend(
            rt, alloc, clients, threads, keeper, publisher, roll, questions, hangs, muster, alarm,
            net, door, notes, task,
        )
    };
    let ((), end) = join_mut(rt, &mut front, &mut rest);
    end
}

// Has each worker do its work.
fn each_of<R: Threads + Sync, K: Send, F: Fn(usize, &mut K) + Sync>(
    rt: &R,
    each: &F,
    workers: &mut [K],
)
    requires { F.IsAlwaysCallable each.now }
    ensures { HaveWorked F.Fn each.now workers.old workers.new }
{
    if workers.is_empty() {
        return;
    }
    let threads = workers.len();
    thread::for_each_mut(rt, workers, threads, each);
}

// Serves the administrators on the calling thread, and keeps watch on another.
fn attend<
    R: Threads + Wait + Clock + Sync,
    D: Disk,
    H: HangEnd,
    L: Link,
    E: Door<Link = L>,
    N: Net + Send,
    T: Notes,
    C: Task + Send,
    J: Naming,
>(
    rt: &R,
    alloc: Global,
    clients: u32,
    threads: u64,
    keeper: &mut Keeper<'_, D>,
    publisher: &mut Publisher<J>,
    roll: &Mutex<Roll<H, J>>,
    questions: &QuestionDesk,
    hangs: &mut Front<Event, Events<J>>,
    muster: &Muster,
    alarm: &Alarm,
    net: &mut N,
    door: &mut E,
    notes: &T,
    task: &mut C,
) -> WorkerEnd
where
    N::Door: Send,
    <N::Door as Door>::Link: Send,
    <<N::Door as Door>::Link as Link>::End: Send,
    <N as Dial>::Link: Send,
    <<N as Dial>::Link as Link>::End: Send,
    requires { last_commit 0 publisher.old ≤ keeper.old.desk.commit }
    ensures administers { Administers D.faults D.state D.moment D.left_since L.traffic L.marks L.faults
        E.given_back E.faults E.kind result
        keeper.old keeper.new publisher.old publisher.new door.old door.new hangs.new }
    ensures knocks { Knocks N.faults N.closed net.old net.new }
    ensures task { (turns : ℕ) × C.goes task.old turns task.new }
{
    let mut watch = ||
        ensures knocks { Knocks N.faults N.closed net.entry.now net.exit.now }
        ensures task { (turns : ℕ) × C.goes task.entry.now turns task.exit.now }
    { keep_watch(rt, clients, questions, muster, alarm, net, task) };
    let mut administrators = || -> WorkerEnd
        requires { last_commit 0 publisher.now ≤ keeper.now.desk.commit }
        ensures { Administers D.faults D.state D.moment D.left_since L.traffic L.marks L.faults
            E.given_back E.faults E.kind result
            keeper.entry.now keeper.exit.now publisher.entry.now publisher.exit.now door.entry.now door.exit.now
            hangs.exit.now }
    {
        administer(
            rt, alloc, threads, keeper, publisher, roll, questions, hangs, muster, alarm, door,
            notes,
        )
    };
    let ((), end) = join_mut(rt, &mut watch, &mut administrators);
    end
}

// Serves the administrators, once all other threads have begun; nobody where they have not.
fn administer<
    R: Wait + Clock,
    D: Disk,
    H: HangEnd,
    L: Link,
    E: Door<Link = L>,
    T: Notes,
    J: Naming,
>(
    rt: &R,
    alloc: Global,
    threads: u64,
    keeper: &mut Keeper<'_, D>,
    publisher: &mut Publisher<J>,
    roll: &Mutex<Roll<H, J>>,
    questions: &QuestionDesk,
    hangs: &mut Front<Event, Events<J>>,
    muster: &Muster,
    alarm: &Alarm,
    door: &mut E,
    notes: &T,
) -> WorkerEnd
    requires { last_commit 0 publisher.old ≤ keeper.old.desk.commit }
    ensures { Administers D.faults D.state D.moment D.left_since L.traffic L.marks L.faults
        E.given_back E.faults E.kind result
        keeper.old keeper.new publisher.old publisher.new door.old door.new hangs.new }
{
    if !muster.decide(rt, threads) {
        note_short(notes);
        return WorkerEnd::Unstarted;
    }
    note_ready(notes);
    let mut hall = Locked::new(rt, roll, questions);
    let mut news = StopNews::new();
    let end = work_for_administrators(
        rt, alloc, keeper, publisher, roll, questions, hangs, door, &mut hall, notes, &mut news,
    );
    note_end(notes, DoorKind::Admin, end);
    alarm.ring();
    end
}
