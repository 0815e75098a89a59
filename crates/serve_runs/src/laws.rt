// What holds of all services. These functions do nothing; their clauses are the laws.
ghost use Rattle.std.specs.Prelude.{◌≤◌, ℕ, List};
ghost use Rattle.std.specs.List.{AllByRecursion};
ghost use mathlib.Core.List.{IsPrefix};
ghost use Rattle.desk_state.specs.DeskState.{DeskState};
ghost use Rattle.live_roll.specs.declared.events.Event.{Event};
ghost use Rattle.live_desk.specs.History.{GoesOn};
ghost use Rattle.live_desk.specs.Seat.{SeatState};
ghost use Rattle.desk_server.specs.Visit.{Visit, InTurn};
ghost use Rattle.desk_server.specs.Clients.{VisitsClients};
ghost use Rattle.admin_door.specs.Hanging.{HasHungTo};
ghost use Rattle.client_door.specs.Answered.{Answered};
ghost use Rattle.serve_runs.specs.OneList.{EachOfList, EachEntered, IsEntered};

use link_ports::Link;

/// A worker whose seat has seen a front of a list of states, as `WorksFor` says of that of published ones, has sent no
/// reply but that of a state of this list, or of the agent that was asked by one.
pub fn each_verdict_is_of_the_one_list<L: Link>()
    ensures { (published : List DeskState) (seat : SeatState) (visits : List (Visit L)) (seat_now : SeatState)
        (in_turn : InTurn (VisitsClients L.traffic L.marks L.faults) seat visits seat_now)
        → GoesOn seat_now.seen published
        → EachOfList L.traffic L.marks L.faults published seat visits seat_now in_turn }
{}

/// Each connection of a worker whose seat knows a front of a log, as `WorksFor` says of that of the roll, stands in it
/// as one that entered; nobody was disconnected before it for a higher commit, and each of its replies is of a state no
/// older.
pub fn each_connection_entered_in_the_one_log<L: Link>()
    ensures { (events : List Event) (seat : SeatState) (visits : List (Visit L)) (seat_now : SeatState)
        (in_turn : InTurn (VisitsClients L.traffic L.marks L.faults) seat visits seat_now)
        → IsPrefix seat_now.events events
        → EachEntered L.traffic L.marks L.faults events seat visits seat_now in_turn }
{}

/// Where a connection entered behind a disconnect up to a commit, as there is one for each command that is answered as
/// done (`AreHung`), each of its replies is of a state with that commit or a later one.
pub fn no_reply_is_older_than_what_was_acknowledged()
    ensures { (events : List Event) (entered commit : ℕ) (answered : List Answered)
        (entry : IsEntered events entered answered) → HasHungTo entry.front commit
        → AllByRecursion (λ (one : Answered). commit ≤ one.desk.commit) answered }
{}
