// The workers that run on threads of their own, each at its door.
ghost use Rattle.std.specs.Prelude.{◌≡◌, ◌+◌, ◌<◌, ◌≤◌, ◌++◌, ◌∷◌, [], length, map, replicate, vec_len, vec_capacity};
ghost use Rattle.std.specs.Prelude.{IfOk, OnOk};
ghost use Rattle.std.specs.Bool.{OnTrue};
ghost use mathlib.Core.List.{IsPrefix};
ghost use Rattle.std.specs.List.{AllByRecursion, list_any};
ghost use Rattle.std.specs.Option.{option_to_list};
ghost use Rattle.serve_runs.specs.Pool.{kind_for};
ghost use Rattle.serve_runs.specs.parts.Pools.{handler_at, handler_of, seat_at, stations_with, lacked, worker_lacked};
ghost use Rattle.serve_runs.specs.parts.Pools.{WorksAt, HasWorked, HasSeenOf, SawOnly};
ghost use Rattle.serve_runs.specs.declared.pools.Station.TheVariants.{Agents};

use crate::endings::lacks_memory;
use crate::musters::Muster;
use crate::telling::{note_alone, note_end};
use check_monitor::Alarm;
use desk_server::{ClientHandler, Notes, WorkerEnd, work_for_agents};
use link_ports::{Door, DoorKind, Gate, HangEnd, Link};
use live_desk::{Event, Events, Front, Naming, Publisher, Seat};
use live_roll::Roll;
use server_hall::{Hall, Locked, QuestionDesk, StopNews};
use std::alloc::{AllocError, Global};
use std::sync::{Mutex, Wait};
use std::time::Clock;

/// How many connections of agents are served at once: one more than there may be agents, so that a further one is
/// heard.
pub const AGENT_WORKERS: u32 = 9;

/// Whom a worker serves.
#[derive(Drop)]
pub(crate) enum Station<J: Naming, X: Drop> {
    /// Clients, in the place of this seat, with what is done beside.
    Clients(Seat<J>, X),
    Agents,
}

/// A worker at its door, and how it ended, once it has.
#[derive(Drop)]
pub(crate) struct Worker<J: Naming, D: Drop, X: Drop> {
    station: Station<J, X>,
    door: D,
    end: Option<WorkerEnd>,
}

impl<J: Naming, X: ClientHandler> Station<J, X> {
    // Serves one connection after the other at this door, or nobody where there is no service.
    fn work<R: Wait + Clock, D: Door, G: Gate>(
        &mut self,
        rt: &R,
        alloc: Global,
        door: &mut D,
        roll: &Mutex<Roll<<D::Link as Link>::End, J>>,
        questions: &QuestionDesk,
        muster: &Muster,
        gate: &G,
        news: &mut StopNews,
    ) -> WorkerEnd
        ensures works { WorksAt X.state (X.visits D.Link.traffic D.Link.marks D.Link.faults)
            D.Link.traffic D.Link.marks D.Link.faults D.given_back D.faults
            result self.old self.new door.old door.new news.old news.new }
        ensures kind { D.kind door.new ≡ D.kind door.old }
    {
        if !muster.begin(rt) {
            return WorkerEnd::Unstarted;
        }
        self.serve(rt, alloc, door, roll, questions, gate, news)
    }

    // Serves one connection after the other at this door.
    fn serve<R: Wait + Clock, D: Door, G: Gate>(
        &mut self,
        rt: &R,
        alloc: Global,
        door: &mut D,
        roll: &Mutex<Roll<<D::Link as Link>::End, J>>,
        questions: &QuestionDesk,
        gate: &G,
        news: &mut StopNews,
    ) -> WorkerEnd
        ensures works { WorksAt X.state (X.visits D.Link.traffic D.Link.marks D.Link.faults)
            D.Link.traffic D.Link.marks D.Link.faults D.given_back D.faults
            result self.old self.new door.old door.new news.old news.new }
        ensures kind { D.kind door.new ≡ D.kind door.old }
    {
        match self {
            Station::Clients(seat, handler) => {
                handler.work(rt, alloc, seat, roll, questions, door, gate, news)
            }
            Station::Agents => work_for_agents(rt, alloc, roll, questions, door, news),
        }
    }

    /// The kind of its door.
    pub fn kind(&self) -> DoorKind
        ensures { result ≡ kind_for (seat_at self.now) }
    {
        match self {
            Station::Clients(_, _) => DoorKind::Client,
            Station::Agents => DoorKind::Agent,
        }
    }

    // Whether as many states were published as its seat has seen, and as many events of the roll are known as it knows,
    // where it serves clients.
    fn is_covered(&self, publisher: &Publisher<J>, events: &Front<Event, Events<J>>) -> bool
        ensures { OnTrue result (HasSeenOf publisher.now events.now (seat_at self.now)) }
    {
        match self {
            Station::Clients(seat, _) => {
                if !publisher.covers(seat) {
                    return false;
                }
                if !seat.knows_only(events) {
                    return false;
                }
                true
            }
            Station::Agents => true,
        }
    }

    // What is done beside serving clients, where it serves them.
    fn into_handler(self) -> Option<X>
        ensures { result ≡ handler_at self }
    {
        match self {
            Station::Clients(_, handler) => Some(handler),
            Station::Agents => None,
        }
    }
}

impl<J: Naming, D: Door, X: ClientHandler> Worker<J, D, X> {
    /// One of this station, at this door.
    pub fn at(station: Station<J, X>, door: D) -> Worker<J, D, X>
        ensures station { result.station ≡ station }
        ensures door { result.door ≡ door }
    {
        Worker {
            station,
            door,
            end: None,
        }
    }

    /// Serves one connection after the other, once it is decided that there is a service. The last worker of clients
    /// that ends though the service is not stopped, stops it.
    pub fn work<R: Wait + Clock, G: Gate, T: Notes>(
        &mut self,
        rt: &R,
        alloc: Global,
        roll: &Mutex<Roll<<D::Link as Link>::End, J>>,
        questions: &QuestionDesk,
        muster: &Muster,
        alarm: &Alarm,
        gate: &G,
        notes: &T,
    )
        ensures { HasWorked X.state (X.visits D.Link.traffic D.Link.marks D.Link.faults)
            D.Link.traffic D.Link.marks D.Link.faults D.given_back D.faults D.kind self.old self.new }
    {
        let mut news = StopNews::new();
        let end = self.station.work(
            rt,
            alloc,
            &mut self.door,
            roll,
            questions,
            muster,
            gate,
            &mut news,
        );
        self.end = Some(end);
        let kind = self.station.kind();
        note_end(notes, kind, end);
        if leaves_nobody(kind, end, muster) {
            note_alone(notes);
            stop(rt, roll, questions, alarm);
        }
    }

    /// Whether its door found no memory, or it had no thread.
    pub fn lacked_memory(&self) -> bool
        ensures { result ≡ worker_lacked self.now }
    {
        match self.end {
            Some(end) => lacks_memory(false, end),
            None => false,
        }
    }

    // Whether as many states were published as its seat has seen, and as many events of the roll are known as it knows,
    // where it serves clients.
    fn is_covered(&self, publisher: &Publisher<J>, events: &Front<Event, Events<J>>) -> bool
        ensures { OnTrue result (SawOnly publisher.now events.now self.now) }
    {
        self.station.is_covered(publisher, events)
    }

    /// Its door, and what it does beside serving clients, where it serves them.
    pub fn leave(self) -> (D, Option<X>)
        ensures door { result.0 ≡ self.door }
        ensures handler { result.1 ≡ handler_of self }
    {
        let Worker { station, door, .. } = self;
        (door, station.into_handler())
    }
}

// Whether no worker of clients is left behind a worker that ended so.
fn leaves_nobody(kind: DoorKind, end: WorkerEnd, muster: &Muster) -> bool {
    match (kind, end) {
        (DoorKind::Client, WorkerEnd::DoorFailed) => muster.leave(),
        (DoorKind::Client, WorkerEnd::Memory) => muster.leave(),
        _ => false,
    }
}

// Stops the service.
fn stop<R: Wait + Clock, H: HangEnd, J: Naming>(
    rt: &R,
    roll: &Mutex<Roll<H, J>>,
    questions: &QuestionDesk,
    alarm: &Alarm,
) {
    let mut hall = Locked::new(rt, roll, questions);
    hall.stop();
    alarm.ring();
}

/// A station for each of these seats with the handler of the same place, and those for agents.
pub(crate) fn stations_of<J: Naming, X: ClientHandler>(
    alloc: Global,
    seats: Vec<Seat<J>>,
    handlers: Vec<X>,
) -> Result<Vec<Station<J, X>>, AllocError>
    requires { length handlers.items ≤ length seats.items }
    ensures { IfOk result (λ stations. stations.items ≡ stations_with seats.items handlers.items) }
{
    let count = handlers.len().saturating_add(AGENT_WORKERS as usize);
    let mut stations = Vec::with_capacity(alloc, count)?;
    let mut seats = seats.into_iter();
    for handler in handlers {
        let Some(seat) = seats.next() else {
            unreachable!()
        };
        stations.push(Station::Clients(seat, handler))?;
    }
    match put_agents(&mut stations) {
        Ok(()) => Ok(stations),
        Err(error) => Err(error),
    }
}

// Puts the stations for agents behind the others.
fn put_agents<J: Naming, X: ClientHandler>(
    stations: &mut Vec<Station<J, X>>,
) -> Result<(), AllocError>
    ensures { OnOk result (stations.new.items ≡ stations.old.items ++ replicate 9 Agents) }
{
    for _ in 0..AGENT_WORKERS {
        stations.push(Station::Agents)?;
    }
    Ok(())
}

/// Puts this behind the others. The list has room for it.
pub(crate) fn put<T: Drop>(list: &mut Vec<T>, value: T)
    requires { vec_len list.old < vec_capacity list.old }
    ensures items { list.new.items ≡ list.old.items ++ value ∷ [] }
    ensures len { vec_len list.new ≡ vec_len list.old + 1 }
    ensures capacity { vec_capacity list.old ≤ vec_capacity list.new }
{
    match list.push(value) {
        Ok(()) => {}
        Err(_) => unreachable!(),
    }
}

/// Puts a handler behind the others, where there is one. The list has room for it.
pub(crate) fn put_back<X: Drop>(handlers: &mut Vec<X>, handler: Option<X>)
    requires { vec_len handlers.old < vec_capacity handlers.old }
    ensures items { handlers.new.items ≡ handlers.old.items ++ option_to_list handler }
    ensures len { vec_len handlers.new ≤ vec_len handlers.old + 1 }
    ensures capacity { vec_capacity handlers.old ≤ vec_capacity handlers.new }
{
    let Some(handler) = handler else {
        return;
    };
    match handlers.push(handler) {
        Ok(()) => {}
        Err(_) => unreachable!(),
    }
}

/// Whether one of the pool found no memory at its door, or had no thread.
pub(crate) fn lacked_memory<J: Naming, D: Door, X: ClientHandler>(pool: &[Worker<J, D, X>]) -> bool
    ensures { result ≡ list_any worker_lacked pool.now }
{
    pool.iter().any(|worker| worker.lacked_memory())
}

/// Compares what the seats of the pool have seen with what was published, and what they and the administrators know of
/// the roll's log with these events; returns where none has seen or knows more. None can: but that only the publisher
/// puts states into the list, and only the roll events into the log, is known of their code, and not by a proof. So a
/// run of which that is wrong does not return, and one that returns has compared.
pub(crate) fn compare<R: Wait, J: Naming, D: Door, X: ClientHandler>(
    rt: &R,
    publisher: &Publisher<J>,
    events: &Front<Event, Events<J>>,
    hangs: &Front<Event, Events<J>>,
    pool: &[Worker<J, D, X>],
)
    ensures pool { AllByRecursion (SawOnly publisher.now events.now) pool.now }
    ensures hangs { IsPrefix hangs.now events.now }
{
    for _ in rt.forever() {
        if is_one_log(publisher, events, hangs, pool) {
            return;
        }
    }
}

// Whether neither the administrators know more than these events, nor a seat, which has seen no more than was
// published.
fn is_one_log<J: Naming, D: Door, X: ClientHandler>(
    publisher: &Publisher<J>,
    events: &Front<Event, Events<J>>,
    hangs: &Front<Event, Events<J>>,
    pool: &[Worker<J, D, X>],
) -> bool
    ensures pool { OnTrue result (AllByRecursion (SawOnly publisher.now events.now) pool.now) }
    ensures hangs { OnTrue result (IsPrefix hangs.now events.now) }
{
    if !events.covers(hangs) {
        return false;
    }
    are_covered(publisher, events, pool)
}

// Whether none of their seats has seen more than was published, or knows more than these events.
fn are_covered<J: Naming, D: Door, X: ClientHandler>(
    publisher: &Publisher<J>,
    events: &Front<Event, Events<J>>,
    pool: &[Worker<J, D, X>],
) -> bool
    ensures { OnTrue result (AllByRecursion (SawOnly publisher.now events.now) pool.now) }
{
    for worker in pool {
        if !worker.is_covered(publisher, events) {
            return false;
        }
    }
    true
}
