// What a worker of clients does with each connection: it serves it, and may do something besides.
ghost use Rattle.std.specs.Prelude.{◌≡◌, ℕ, Option};
ghost use Rattle.link_ports.specs.Traffic.{Traffic};
ghost use Rattle.link_ports.specs.LinkMarks.{LinkMarks};
ghost use Rattle.live_desk.specs.Seat.{SeatState};
ghost use Rattle.desk_server.specs.Visit.{Visit, Works, EndsWorking};

use crate::monitored_workers::work_for_monitored_clients;
use crate::workers::{WorkerEnd, work_for_clients};
use check_monitor::Recorder;
use link_ports::{Door, Gate, HangEnd, Link};
use live_desk::{Naming, Seat};
use live_roll::Roll;
use server_hall::{QuestionDesk, StopNews};
use std::alloc::Global;
use std::sync::{Mutex, Wait};
use std::time::Clock;

/// What a worker of clients does with each connection: it serves it, and may do something besides.
pub trait ClientHandler: Drop {
    /// What its worker hands on from one connection to the next.
    ghost State: { Type 0 };

    /// That of a worker in the place of this seat.
    ghost state: { SeatState → Self → State };

    /// The seat in it.
    ghost seat_of: { State → SeatState };

    /// What serving a connection makes of it, over a link of which this is told.
    ghost visits: { {L : Type 0} → (L → Option Traffic) → (L → LinkMarks) → (L → ℕ) → State → Visit L → State
        → Type 0 };

    /// Serves connections of clients, one after the other, as `work_for_clients` does. It may wait.
    fn work<R: Wait + Clock, H: HangEnd, L: Link<End = H>, D: Door<Link = L>, G: Gate, J: Naming>(
        &mut self,
        rt: &R,
        alloc: Global,
        seat: &mut Seat<J>,
        roll: &Mutex<Roll<H, J>>,
        questions: &QuestionDesk,
        door: &mut D,
        gate: &G,
        news: &mut StopNews,
    ) -> WorkerEnd
        ensures worked { Works (visits L.traffic L.marks L.faults)
            (EndsWorking news.old news.new) L.marks L.faults result
            (state seat.old self.old) (state seat.new self.new)
            (D.given_back door.old) (D.given_back door.new) (D.faults door.old) (D.faults door.new) }
        ensures kind { D.kind door.new ≡ D.kind door.old };

    ghost seat_is: { (seat : SeatState) (handler : Self) → seat_of (state seat handler) ≡ seat };
}

/// Nothing besides.
#[derive(Debug, Drop)]
pub struct Unrecorded;

impl ClientHandler for Unrecorded {
    ghost use Rattle.std.specs.Prelude.{refl};
    ghost use Rattle.live_desk.specs.Seat.{SeatState};
    ghost use Rattle.desk_server.specs.Clients.{VisitsClients};

    ghost State = { SeatState };

    ghost state = { λ seat handler. seat };

    ghost seat_of = { λ seat. seat };

    ghost visits = { VisitsClients };

    fn work<R: Wait + Clock, H: HangEnd, L: Link<End = H>, D: Door<Link = L>, G: Gate, J: Naming>(
        &mut self,
        rt: &R,
        alloc: Global,
        seat: &mut Seat<J>,
        roll: &Mutex<Roll<H, J>>,
        questions: &QuestionDesk,
        door: &mut D,
        gate: &G,
        news: &mut StopNews,
    ) -> WorkerEnd {
        work_for_clients(rt, alloc, seat, roll, questions, door, gate, news)
    }

    ghost seat_is = { λ seat handler. refl };
}

/// Its checks are recorded.
impl ClientHandler for Recorder {
    ghost use Rattle.std.specs.Prelude.{refl};
    ghost use Rattle.desk_server.specs.Monitored.{Post, post_of, VisitsWatched};

    ghost State = { Post };

    ghost state = { post_of };

    ghost seat_of = { λ post. post.seat };

    ghost visits = { VisitsWatched };

    fn work<R: Wait + Clock, H: HangEnd, L: Link<End = H>, D: Door<Link = L>, G: Gate, J: Naming>(
        &mut self,
        rt: &R,
        alloc: Global,
        seat: &mut Seat<J>,
        roll: &Mutex<Roll<H, J>>,
        questions: &QuestionDesk,
        door: &mut D,
        gate: &G,
        news: &mut StopNews,
    ) -> WorkerEnd {
        work_for_monitored_clients(rt, alloc, seat, roll, questions, door, gate, self, news)
    }

    ghost seat_is = { λ seat handler. refl };
}
