// The service, once the folder is mounted.
ghost use Rattle.std.specs.Prelude.{◌≡◌, ◌+◌, ◌<◌, ◌≤◌, ◌∷◌, [], ℕ, length, map, vec_len, vec_capacity, MatchResult};
ghost use Rattle.std.specs.Prelude.{OnErr, OnOk};
ghost use Rattle.std.specs.List.{AllZip};
ghost use Rattle.desk_keeper.specs.Keeper.{IsSameDisk};
ghost use Rattle.state_list.specs.Opening.{book_of};
ghost use Rattle.live_roll.specs.Events.{NoneBelow};
ghost use Rattle.live_desk.specs.History.{last_commit};
ghost use Rattle.live_desk.specs.Seat.{new_seats};
ghost use Rattle.serve_runs.specs.Pool.{posts_with};
ghost use Rattle.serve_runs.specs.Handlers.{states_of};
ghost use Rattle.serve_runs.specs.Serving.{EndsUnopened, ClosesOpened};
ghost use Rattle.serve_runs.specs.parts.Pools.{post_at, HasWorked};
ghost use Rattle.serve_runs.specs.parts.Administering.{Knocks, Administers, RunsWorkers};

use crate::beside::beside;
use crate::doors::{close_doors, open, open_doors};
use crate::endings::{is_alone, lacks_memory};
use crate::musters::Muster;
use crate::pools::{Station, Worker, compare, lacked_memory, stations_of};
use crate::tasks::Task;
use check_monitor::Alarm;
use desk_keeper::Keeper;
use desk_ports::Disk;
use desk_server::{ClientHandler, Notes, WorkerEnd};
use desk_state::Desk;
use link_ports::{Dial, Door, DoorKind, Gate, HangEnd, Link, Net};
use live_desk::{Event, Events, Front, Naming, Opened, Publisher, Seat, start};
use live_roll::Roll;
use run_endings::Ending;
use server_hall::QuestionDesk;
use std::alloc::Global;
use std::marker::Brand;
use std::sync::{Mutex, Wait};
use std::thread::Threads;
use std::time::Clock;

/// What a service met: whether memory or a thread was wanting, and whether no administrator stopped it; and what has
/// become of what the workers of clients did beside.
#[derive(Drop)]
pub(crate) struct Met<X: Drop> {
    pub lacked_memory: bool,
    pub alone: bool,
    pub handlers: Vec<X>,
}

/// Serves over the folder of the keeper, by a worker of clients for each of these handlers, until the service is
/// stopped, and does the task in turns meanwhile. What was met, or why nobody was served. The list of published states and the
/// log of the roll are opened here.
pub(crate) fn serve_folder<
    R: Threads + Wait + Clock + Sync,
    D: Disk,
    N: Net + Send,
    G: Gate + Sync,
    T: Notes + Sync,
    X: ClientHandler + Send,
    C: Task + Send,
>(
    rt: &R,
    alloc: Global,
    workers: u32,
    handlers: Vec<X>,
    keeper: &mut Keeper<'_, D>,
    net: &mut N,
    gate: &G,
    notes: &T,
    alarm: &Alarm,
    task: &mut C,
) -> Result<Met<X>, Ending>
where
    N::Door: Send,
    <N::Door as Door>::Link: Send,
    <<N::Door as Door>::Link as Link>::End: Send,
    <N as Dial>::Link: Send,
    <<N as Dial>::Link as Link>::End: Send,
    requires some { 0 < workers }
    requires most { workers ≤ 64 }
    requires handlers { length handlers.items ≡ workers }
    ensures served { MatchResult result
        (λ met. RunsWorkers X.state X.seat_of (X.visits N.Door.Link.traffic N.Door.Link.marks N.Door.Link.faults)
        D.faults D.state D.moment D.left_since N.Door.Link.traffic N.Door.Link.marks N.Door.Link.faults
        N.Door.given_back N.Door.faults N.Door.kind
        (posts_with (states_of X.state (new_seats workers) handlers.items))
        met.handlers.items met.lacked_memory met.alone
        keeper.old keeper.new (N.faults net.old) (N.faults net.new) (N.closed net.old) (N.closed net.new))
        (λ ending. EndsUnopened ending (N.faults net.old) (N.faults net.new)) }
    ensures closed { OnErr result (ClosesOpened N.Door.kind (N.closed net.old) (N.closed net.new)) }
    ensures kept { OnErr result (keeper.new ≡ keeper.old) }
    ensures same_disk { IsSameDisk keeper.old keeper.new }
    ensures task { OnOk result ((turns : ℕ) × C.goes task.old turns task.new) }
    ensures untouched { OnErr result (task.new ≡ task.old) }
{
    serve_named::<Brand, R, D, N, G, T, X, C>(
        rt,
        alloc,
        Opened::new(),
        Opened::new(),
        workers,
        handlers,
        keeper,
        net,
        gate,
        notes,
        alarm,
        task,
    )
}

// The same. The published states are the first list, and what happens in the roll is the second, which have no entries
// yet.
fn serve_named<
    J: Naming + Send + Sync,
    R: Threads + Wait + Clock + Sync,
    D: Disk,
    N: Net + Send,
    G: Gate + Sync,
    T: Notes + Sync,
    X: ClientHandler + Send,
    C: Task + Send,
>(
    rt: &R,
    alloc: Global,
    opened: Opened<Desk>,
    happened: Opened<Event>,
    workers: u32,
    handlers: Vec<X>,
    keeper: &mut Keeper<'_, D>,
    net: &mut N,
    gate: &G,
    notes: &T,
    alarm: &Alarm,
    task: &mut C,
) -> Result<Met<X>, Ending>
where
    N::Door: Send,
    <N::Door as Door>::Link: Send,
    <<N::Door as Door>::Link as Link>::End: Send,
    <N as Dial>::Link: Send,
    <<N as Dial>::Link as Link>::End: Send,
    requires list { book_of opened ≡ J.book }
    requires log { book_of happened ≡ J.events }
    requires some { 0 < workers }
    requires most { workers ≤ 64 }
    requires handlers { length handlers.items ≡ workers }
    ensures served { MatchResult result
        (λ met. RunsWorkers X.state X.seat_of (X.visits N.Door.Link.traffic N.Door.Link.marks N.Door.Link.faults)
        D.faults D.state D.moment D.left_since N.Door.Link.traffic N.Door.Link.marks N.Door.Link.faults
        N.Door.given_back N.Door.faults N.Door.kind
        (posts_with (states_of X.state (new_seats workers) handlers.items))
        met.handlers.items met.lacked_memory met.alone
        keeper.old keeper.new (N.faults net.old) (N.faults net.new) (N.closed net.old) (N.closed net.new))
        (λ ending. EndsUnopened ending (N.faults net.old) (N.faults net.new)) }
    ensures closed { OnErr result (ClosesOpened N.Door.kind (N.closed net.old) (N.closed net.new)) }
    ensures kept { OnErr result (keeper.new ≡ keeper.old) }
    ensures same_disk { IsSameDisk keeper.old keeper.new }
    ensures task { OnOk result ((turns : ℕ) × C.goes task.old turns task.new) }
    ensures untouched { OnErr result (task.new ≡ task.old) }
{
    let Ok((publisher, seats, roll)) = start::<J, _, R>(
        rt,
        alloc,
        opened,
        happened,
        keeper.desk(),
        workers,
    ) else {
        return Err(Ending::Memory);
    };
    let mut publisher = publisher;
    let served = run_workers(
        rt,
        alloc,
        workers,
        keeper,
        &mut publisher,
        seats,
        handlers,
        roll,
        net,
        gate,
        notes,
        alarm,
        task,
    );
    publisher.end(rt);
    served
}

// The same, with the seats and the roll of a state that was just published.
fn run_workers<
    R: Threads + Wait + Clock + Sync,
    J: Naming + Send + Sync,
    D: Disk,
    N: Net + Send,
    G: Gate + Sync,
    T: Notes + Sync,
    X: ClientHandler + Send,
    C: Task + Send,
>(
    rt: &R,
    alloc: Global,
    clients: u32,
    keeper: &mut Keeper<'_, D>,
    publisher: &mut Publisher<J>,
    seats: Vec<Seat<J>>,
    handlers: Vec<X>,
    roll: Roll<<<N::Door as Door>::Link as Link>::End, J>,
    net: &mut N,
    gate: &G,
    notes: &T,
    alarm: &Alarm,
    task: &mut C,
) -> Result<Met<X>, Ending>
where
    N::Door: Send,
    <N::Door as Door>::Link: Send,
    <<N::Door as Door>::Link as Link>::End: Send,
    <N as Dial>::Link: Send,
    <<N as Dial>::Link as Link>::End: Send,
    requires published { publisher.old ≡ keeper.old.desk ∷ [] }
    requires seats { length handlers.items ≡ length seats.items }
    ensures served { MatchResult result
        (λ met. RunsWorkers X.state X.seat_of (X.visits N.Door.Link.traffic N.Door.Link.marks N.Door.Link.faults)
        D.faults D.state D.moment D.left_since N.Door.Link.traffic N.Door.Link.marks N.Door.Link.faults
        N.Door.given_back N.Door.faults N.Door.kind
        (posts_with (states_of X.state seats.items handlers.items))
        met.handlers.items met.lacked_memory met.alone
        keeper.old keeper.new (N.faults net.old) (N.faults net.new) (N.closed net.old) (N.closed net.new))
        (λ ending. EndsUnopened ending (N.faults net.old) (N.faults net.new)) }
    ensures closed { OnErr result (ClosesOpened N.Door.kind (N.closed net.old) (N.closed net.new)) }
    ensures kept { OnErr result (keeper.new ≡ keeper.old) }
    ensures same_disk { IsSameDisk keeper.old keeper.new }
    ensures task { OnOk result ((turns : ℕ) × C.goes task.old turns task.new) }
    ensures untouched { OnErr result (task.new ≡ task.old) }
{
    let Ok(stations) = stations_of(alloc, seats, handlers) else {
        return Err(Ending::Memory);
    };
    let Ok(pool) = Vec::with_capacity(alloc, stations.len()) else {
        return Err(Ending::Memory);
    };
    let Ok(room) = Vec::with_capacity(alloc, stations.len()) else {
        return Err(Ending::Memory);
    };
    open_and_serve(
        rt, alloc, clients, keeper, publisher, stations, pool, room, roll, net, gate, notes, alarm,
        task,
    )
}

// Opens the doors, serves, and closes them. The list of the pool, and that of what its workers of clients do beside,
// have room.
fn open_and_serve<
    R: Threads + Wait + Clock + Sync,
    J: Naming + Send + Sync,
    D: Disk,
    N: Net + Send,
    G: Gate + Sync,
    T: Notes + Sync,
    X: ClientHandler + Send,
    C: Task + Send,
>(
    rt: &R,
    alloc: Global,
    clients: u32,
    keeper: &mut Keeper<'_, D>,
    publisher: &mut Publisher<J>,
    stations: Vec<Station<J, X>>,
    pool: Vec<Worker<J, N::Door, X>>,
    room: Vec<X>,
    roll: Roll<<<N::Door as Door>::Link as Link>::End, J>,
    net: &mut N,
    gate: &G,
    notes: &T,
    alarm: &Alarm,
    task: &mut C,
) -> Result<Met<X>, Ending>
where
    N::Door: Send,
    <N::Door as Door>::Link: Send,
    <<N::Door as Door>::Link as Link>::End: Send,
    <N as Dial>::Link: Send,
    <<N as Dial>::Link as Link>::End: Send,
    requires published { publisher.old ≡ keeper.old.desk ∷ [] }
    requires nobody { pool.items ≡ [] }
    requires places { length stations.items ≤ vec_capacity pool }
    requires empty { room.items ≡ [] }
    requires room { vec_len room + length stations.items ≤ vec_capacity room }
    ensures served { MatchResult result
        (λ met. RunsWorkers X.state X.seat_of (X.visits N.Door.Link.traffic N.Door.Link.marks N.Door.Link.faults)
        D.faults D.state D.moment D.left_since N.Door.Link.traffic N.Door.Link.marks N.Door.Link.faults
        N.Door.given_back N.Door.faults N.Door.kind
        (map (post_at X.state) stations.items) met.handlers.items met.lacked_memory met.alone
        keeper.old keeper.new (N.faults net.old) (N.faults net.new) (N.closed net.old) (N.closed net.new))
        (λ ending. EndsUnopened ending (N.faults net.old) (N.faults net.new)) }
    ensures closed { OnErr result (ClosesOpened N.Door.kind (N.closed net.old) (N.closed net.new)) }
    ensures kept { OnErr result (keeper.new ≡ keeper.old) }
    ensures same_disk { IsSameDisk keeper.old keeper.new }
    ensures task { OnOk result ((turns : ℕ) × C.goes task.old turns task.new) }
    ensures untouched { OnErr result (task.new ≡ task.old) }
{
    let mut pool = pool;
    let mut door = match open(net, DoorKind::Admin) {
        Ok(door) => door,
        Err(ending) => return Err(ending),
    };
    if let Err(ending) = open_doors(net, stations, &mut pool) {
        net.close(door);
        close_doors(net, room, pool);
        return Err(ending);
    }
    let mut hangs = roll.known().again();
    let (end, events) = serve(
        rt, alloc, clients, keeper, publisher, &mut pool, roll, &mut hangs, net, &mut door, gate,
        notes, alarm, task,
    );
    compare(rt, publisher, &events, &hangs, &pool);
    net.close(door);
    let lacked = lacked_memory(&pool);
    Ok(Met {
        lacked_memory: lacks_memory(lacked, end),
        alone: is_alone(end),
        handlers: close_doors(net, room, pool),
    })
}

// Serves at open doors: the pool on threads, and the administrators on this one. How their worker ended, and what
// happened in the roll.
fn serve<
    R: Threads + Wait + Clock + Sync,
    J: Naming + Send + Sync,
    D: Disk,
    E: Door + Send,
    N: Net + Send,
    G: Gate + Sync,
    T: Notes + Sync,
    X: ClientHandler + Send,
    C: Task + Send,
>(
    rt: &R,
    alloc: Global,
    clients: u32,
    keeper: &mut Keeper<'_, D>,
    publisher: &mut Publisher<J>,
    pool: &mut [Worker<J, E, X>],
    roll: Roll<<E::Link as Link>::End, J>,
    hangs: &mut Front<Event, Events<J>>,
    net: &mut N,
    door: &mut E,
    gate: &G,
    notes: &T,
    alarm: &Alarm,
    task: &mut C,
) -> (WorkerEnd, Front<Event, Events<J>>)
where
    E::Link: Send,
    <E::Link as Link>::End: Send,
    N::Door: Send,
    <N::Door as Door>::Link: Send,
    <<N::Door as Door>::Link as Link>::End: Send,
    <N as Dial>::Link: Send,
    <<N as Dial>::Link as Link>::End: Send,
    requires { last_commit 0 publisher.old ≤ keeper.old.desk.commit }
    ensures administers { Administers D.faults D.state D.moment D.left_since E.Link.traffic E.Link.marks E.Link.faults
        E.given_back E.faults E.kind result.0
        keeper.old keeper.new publisher.old publisher.new door.old door.new hangs.new }
    ensures none_below { NoneBelow result.1 }
    ensures knocks { Knocks N.faults N.closed net.old net.new }
    ensures task { (turns : ℕ) × C.goes task.old turns task.new }
    ensures workers { AllZip (HasWorked X.state (X.visits E.Link.traffic E.Link.marks E.Link.faults)
        E.Link.traffic E.Link.marks E.Link.faults E.given_back E.faults E.kind) pool.old pool.new }
{
    let roll = Mutex::new(roll);
    let questions = QuestionDesk::new(alloc);
    let muster = Muster::new(clients);
    let each = |_: usize, worker: &mut Worker<J, E, X>|
        ensures { HasWorked X.state (X.visits E.Link.traffic E.Link.marks E.Link.faults)
            E.Link.traffic E.Link.marks E.Link.faults E.given_back E.faults E.kind worker.entry.now worker.exit.now }
    { worker.work(rt, alloc, &roll, &questions, &muster, alarm, gate, notes) };
    let end = beside(
        rt, alloc, clients, pool, &each, keeper, publisher, &roll, &questions, hangs, &muster,
        alarm, net, door, notes, task,
    );
    let events = happened(rt, &roll);
    (end, events)
}

// What has happened in the roll.
fn happened<R: Wait, H: HangEnd, J: Naming>(
    rt: &R,
    roll: &Mutex<Roll<H, J>>,
) -> Front<Event, Events<J>>
    ensures { NoneBelow result }
{
    let held = roll.lock(rt);
    held.known().again()
}
