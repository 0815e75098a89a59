// Workers of clients and of agents.
ghost use Rattle.std.specs.Prelude.{◌≡◌, ℕ, List, Option, IfOk, MatchResult};
ghost use Rattle.std.specs.Bool.{OnTrue, OnFalse};
ghost use Rattle.link_ports.specs.LinkMarks.{fresh_marks};
ghost use Rattle.link_ports.specs.Traffic.{IsSilent};
ghost use Rattle.live_desk.specs.Seat.{SeatState};
ghost use Rattle.door_frames.specs.declared.endings.Ended.TheVariants.{Stopped as EndedByStop};
ghost use Rattle.server_hall.specs.StopNews.{StopsTold};
ghost use Rattle.desk_server.specs.Visit.{Works, EndsWorking, GoesOn, GoesOnTold, IsOver, IsNotOver};
ghost use Rattle.desk_server.specs.Clients.{VisitsClients};
ghost use Rattle.desk_server.specs.Agents.{VisitsAgents};
ghost use Rattle.desk_server.specs.parts.Turn.{SoFar, RefusesLink};

use crate::serving::{serve_agent, serve_client};
use desk_ports::PortFault;
use door_frames::Ended;
use link_ports::{Door, Gate, HangEnd, Link};
use live_desk::{Naming, Seat};
use live_roll::Roll;
use server_hall::{QuestionDesk, StopNews};
use std::alloc::Global;
use std::sync::{Mutex, Wait};
use std::time::Clock;

/// Why a worker serves no further connection.
#[derive(Clone, Copy, Debug, PartialEq, Eq)]
pub enum WorkerEnd {
    /// The service is stopped.
    Stopped,
    /// An `accept` of its door failed.
    DoorFailed,
    /// An `accept` of its door found no memory.
    Memory,
    /// Of administrators: the service is stopped, and by none of them, since no worker of clients is left.
    Alone,
    /// Not all workers of its service had threads, so it served nobody.
    Unstarted,
}

/// Serves connections of clients, one after the other, in the place of the seat. It ends behind one that ended for a
/// stop, or at whose end it is told that the service is stopped, or where its door accepts none. What it is told is
/// kept in `news`. It may wait.
pub fn work_for_clients<
    R: Wait + Clock,
    H: HangEnd,
    L: Link<End = H>,
    D: Door<Link = L>,
    G: Gate,
    J: Naming,
>(
    rt: &R,
    alloc: Global,
    seat: &mut Seat<J>,
    roll: &Mutex<Roll<H, J>>,
    questions: &QuestionDesk,
    door: &mut D,
    gate: &G,
    news: &mut StopNews,
) -> WorkerEnd
    ensures worked { Works (VisitsClients L.traffic L.marks L.faults) (EndsWorking news.old news.new) L.marks L.faults
        result
        seat.old seat.new (D.given_back door.old) (D.given_back door.new) (D.faults door.old) (D.faults door.new) }
    ensures kind { D.kind door.new ≡ D.kind door.old }
{
    for _ in rt.forever() {
        if let Err(end) = serve_next_client(rt, alloc, seat, roll, questions, door, gate, news) {
            return end;
        }
    }
    unreachable!()
}

// Serves the next client, and says whether the worker ends behind it.
fn serve_next_client<
    R: Wait + Clock,
    H: HangEnd,
    L: Link<End = H>,
    D: Door<Link = L>,
    G: Gate,
    J: Naming,
>(
    rt: &R,
    alloc: Global,
    seat: &mut Seat<J>,
    roll: &Mutex<Roll<H, J>>,
    questions: &QuestionDesk,
    door: &mut D,
    gate: &G,
    news: &mut StopNews,
) -> Result<(), WorkerEnd>
    ensures worked { (told : StopsTold) (start : SeatState) (given : Option (List L)) (count : ℕ)
        → SoFar (VisitsClients L.traffic L.marks L.faults) (GoesOnTold told news.old) L.marks L.faults start seat.old
        given (D.given_back door.old) count (D.faults door.old) → MatchResult result
        (λ _. SoFar (VisitsClients L.traffic L.marks L.faults) (GoesOnTold told news.new) L.marks L.faults start
        seat.new given (D.given_back door.new) count (D.faults door.new))
        (λ end. Works (VisitsClients L.traffic L.marks L.faults) (EndsWorking told news.new) L.marks L.faults end start
        seat.new given (D.given_back door.new) count (D.faults door.new)) }
    ensures kind { D.kind door.new ≡ D.kind door.old }
{
    let mut link = match accept(door) {
        Ok(link) => link,
        Err(end) => return Err(end),
    };
    let ended = serve_client(rt, alloc, seat, roll, questions, &mut link, gate);
    door.give_back(link);
    if is_over(rt, questions, news, &ended) {
        return Err(WorkerEnd::Stopped);
    }
    Ok(())
}

/// Serves connections of agents, one after the other. It ends as a worker of clients does. It may wait.
pub fn work_for_agents<R: Wait + Clock, H: HangEnd, L: Link, D: Door<Link = L>, J: Naming>(
    rt: &R,
    alloc: Global,
    roll: &Mutex<Roll<H, J>>,
    questions: &QuestionDesk,
    door: &mut D,
    news: &mut StopNews,
) -> WorkerEnd
    ensures worked { Works (VisitsAgents L.traffic L.marks L.faults) (EndsWorking news.old news.new) L.marks L.faults
        result tt tt
        (D.given_back door.old) (D.given_back door.new) (D.faults door.old) (D.faults door.new) }
    ensures kind { D.kind door.new ≡ D.kind door.old }
{
    for _ in rt.forever() {
        if let Err(end) = serve_next_agent(rt, alloc, roll, questions, door, news) {
            return end;
        }
    }
    unreachable!()
}

// Serves the next agent, and says whether the worker ends behind it.
fn serve_next_agent<R: Wait + Clock, H: HangEnd, L: Link, D: Door<Link = L>, J: Naming>(
    rt: &R,
    alloc: Global,
    roll: &Mutex<Roll<H, J>>,
    questions: &QuestionDesk,
    door: &mut D,
    news: &mut StopNews,
) -> Result<(), WorkerEnd>
    ensures worked { (told : StopsTold) (given : Option (List L)) (count : ℕ)
        → SoFar (VisitsAgents L.traffic L.marks L.faults) (GoesOnTold told news.old) L.marks L.faults tt tt
        given (D.given_back door.old) count (D.faults door.old) → MatchResult result
        (λ _. SoFar (VisitsAgents L.traffic L.marks L.faults) (GoesOnTold told news.new) L.marks L.faults tt tt
        given (D.given_back door.new) count (D.faults door.new))
        (λ end. Works (VisitsAgents L.traffic L.marks L.faults) (EndsWorking told news.new) L.marks L.faults end tt tt
        given (D.given_back door.new) count (D.faults door.new)) }
    ensures kind { D.kind door.new ≡ D.kind door.old }
{
    let mut link = match accept(door) {
        Ok(link) => link,
        Err(end) => return Err(end),
    };
    let ended = serve_agent(rt, alloc, roll, questions, &mut link);
    door.give_back(link);
    if is_over(rt, questions, news, &ended) {
        return Err(WorkerEnd::Stopped);
    }
    Ok(())
}

/// The next link of the door.
pub(crate) fn accept<D: Door>(door: &mut D) -> Result<D::Link, WorkerEnd>
    ensures fresh { IfOk result (λ link. D.Link.faults link ≡ 0) }
    ensures unmarked { IfOk result (λ link. D.Link.marks link ≡ fresh_marks) }
    ensures silent { IfOk result (λ link. IsSilent (D.Link.traffic link)) }
    ensures kept { D.given_back door.new ≡ D.given_back door.old }
    ensures kind { D.kind door.new ≡ D.kind door.old }
    ensures count { MatchResult result (λ _. D.faults door.new ≡ D.faults door.old)
        (λ end. RefusesLink end (D.faults door.old) (D.faults door.new)) }
{
    match door.accept() {
        Ok(link) => Ok(link),
        Err(PortFault::Failed) => Err(WorkerEnd::DoorFailed),
        Err(PortFault::Memory(_)) => Err(WorkerEnd::Memory),
    }
}

/// Whether the worker ends behind a connection that ended so: for a stop, or since the service is stopped.
#[tactic(auto, using(crate::proofs::Visits::over_told, crate::proofs::Visits::on_told))]
pub(crate) fn is_over<R: Wait>(
    rt: &R,
    questions: &QuestionDesk,
    news: &mut StopNews,
    ended: &Ended,
) -> bool
    ensures over { OnTrue result (IsOver ended.now news.old news.new) }
    ensures on { OnFalse result (IsNotOver ended.now news.old news.new) }
{
    if is_stop(ended) {
        return true;
    }
    news.is_stopped(rt, questions)
}

/// Whether a connection ended for a stop of the service.
pub(crate) fn is_stop(ended: &Ended) -> bool
    ensures stop { OnTrue result (ended.now ≡ EndedByStop) }
    ensures other { OnFalse result (GoesOn ended.now) }
{
    matches!(ended, Ended::Stopped)
}
