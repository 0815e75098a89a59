// Workers of clients whose checks are recorded.
ghost use Rattle.std.specs.Prelude.{◌≡◌, ℕ, List, Option, MatchResult};
ghost use Rattle.check_monitor.specs.Monitor.{IsSame};
ghost use Rattle.server_hall.specs.StopNews.{StopsTold};
ghost use Rattle.desk_server.specs.Visit.{Works, EndsWorking, GoesOnTold};
ghost use Rattle.desk_server.specs.Monitored.{Post, post_of, VisitsWatched};
ghost use Rattle.desk_server.specs.parts.Turn.{SoFar};

use crate::monitoring::serve_monitored;
use crate::workers::{WorkerEnd, accept, is_over};
use check_monitor::Recorder;
use link_ports::{Door, Gate, HangEnd, Link};
use live_desk::{Naming, Seat};
use live_roll::Roll;
use server_hall::{QuestionDesk, StopNews};
use std::alloc::Global;
use std::sync::{Mutex, Wait};
use std::time::Clock;

/// Serves connections of clients as `work_for_clients` does, and records their checks. It may wait.
#[tactic(auto, using(crate::proofs::Watched::same_then))]
pub fn work_for_monitored_clients<
    R: Wait + Clock,
    H: HangEnd,
    L: Link<End = H>,
    D: Door<Link = L>,
    G: Gate,
    J: Naming,
>(
    rt: &R,
    alloc: Global,
    seat: &mut Seat<J>,
    roll: &Mutex<Roll<H, J>>,
    questions: &QuestionDesk,
    door: &mut D,
    gate: &G,
    recorder: &mut Recorder,
    news: &mut StopNews,
) -> WorkerEnd
    ensures worked { Works (VisitsWatched L.traffic L.marks L.faults) (EndsWorking news.old news.new) L.marks L.faults
        result (post_of seat.old recorder.old) (post_of seat.new recorder.new)
        (D.given_back door.old) (D.given_back door.new) (D.faults door.old) (D.faults door.new) }
    ensures same { IsSame recorder.old recorder.new }
    ensures kind { D.kind door.new ≡ D.kind door.old }
{
    for _ in rt.forever() {
        if let Err(end) = serve_next_monitored(
            rt, alloc, seat, roll, questions, door, gate, recorder, news,
        ) {
            return end;
        }
    }
    unreachable!()
}

// Serves the next client, and says whether the worker ends behind it.
fn serve_next_monitored<
    R: Wait + Clock,
    H: HangEnd,
    L: Link<End = H>,
    D: Door<Link = L>,
    G: Gate,
    J: Naming,
>(
    rt: &R,
    alloc: Global,
    seat: &mut Seat<J>,
    roll: &Mutex<Roll<H, J>>,
    questions: &QuestionDesk,
    door: &mut D,
    gate: &G,
    recorder: &mut Recorder,
    news: &mut StopNews,
) -> Result<(), WorkerEnd>
    ensures worked { (told : StopsTold) (start : Post) (given : Option (List L)) (count : ℕ)
        → SoFar (VisitsWatched L.traffic L.marks L.faults) (GoesOnTold told news.old) L.marks L.faults
        start (post_of seat.old recorder.old) given (D.given_back door.old) count (D.faults door.old)
        → MatchResult result
        (λ _. SoFar (VisitsWatched L.traffic L.marks L.faults) (GoesOnTold told news.new) L.marks L.faults
        start (post_of seat.new recorder.new) given (D.given_back door.new) count (D.faults door.new))
        (λ end. Works (VisitsWatched L.traffic L.marks L.faults) (EndsWorking told news.new) L.marks L.faults end start
        (post_of seat.new recorder.new) given (D.given_back door.new) count (D.faults door.new)) }
    ensures same { IsSame recorder.old recorder.new }
    ensures kind { D.kind door.new ≡ D.kind door.old }
{
    let mut link = match accept(door) {
        Ok(link) => link,
        Err(end) => return Err(end),
    };
    let ended = serve_monitored(rt, alloc, seat, roll, questions, &mut link, gate, recorder);
    door.give_back(link);
    if is_over(rt, questions, news, &ended) {
        return Err(WorkerEnd::Stopped);
    }
    Ok(())
}
