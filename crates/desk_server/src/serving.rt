ghost use Rattle.std.specs.Prelude.{◌≤◌, List, None, Option};
ghost use Rattle.desk_keeper.specs.Keeper.{IsSameDisk};
ghost use Rattle.live_desk.specs.History.{last_commit, Rises};
ghost use Rattle.server_hall.specs.Tally as counted;
ghost use Rattle.server_hall.specs.declared.calls.HallCall as call;
ghost use Rattle.client_door.specs.Serving.{client_side, Serves as ServesClient};
ghost use Rattle.agent_door.specs.Serving.{agent_side, Serves as ServesAgent};
ghost use Rattle.admin_door.specs.Adding.{AddsSome};
ghost use Rattle.admin_door.specs.Side.{side_of};
ghost use Rattle.admin_door.specs.Serving.{talk_of, Serves as ServesAdmin};
ghost use Rattle.admin_door.specs.Running.{RunsOver};
ghost use Rattle.admin_door.specs.Hanging.{HangsOn};

use admin_door::admin_loop;
use agent_door::agent_loop;
use client_door::client_loop;
use desk_keeper::Keeper;
use desk_ports::Disk;
use door_frames::Ended;
use link_ports::{Gate, HangEnd, Link};
use live_desk::{Event, Events, Front, Naming, Publisher, Seat};
use live_roll::Roll;
use server_hall::{Locked, QuestionDesk};
use std::alloc::Global;
use std::sync::{Mutex, Wait};
use std::time::Clock;

/// Serves one connection of a client in the place of the seat, as `client_loop` does. It may wait.
pub fn serve_client<R: Wait + Clock, L: Link, G: Gate, J: Naming>(
    rt: &R,
    alloc: Global,
    seat: &mut Seat<J>,
    roll: &Mutex<Roll<L::End, J>>,
    questions: &QuestionDesk,
    link: &mut L,
    gate: &G,
) -> Ended
    ensures { (tally : counted.Tally) × (calls : Option (List call.HallCall)) × ServesClient result
        (client_side seat.old counted.no_calls None (L.traffic link.old) (L.marks link.old) (L.faults link.old))
        (client_side seat.new tally calls (L.traffic link.new) (L.marks link.new) (L.faults link.new)) }
{
    let mut hall = Locked::new(rt, roll, questions);
    client_loop(rt, alloc, seat, &mut hall, link, gate)
}

/// Serves one connection of an agent, as `agent_loop` does. It may wait.
pub fn serve_agent<R: Wait + Clock, H: HangEnd, L: Link, J: Naming>(
    rt: &R,
    alloc: Global,
    roll: &Mutex<Roll<H, J>>,
    questions: &QuestionDesk,
    link: &mut L,
) -> Ended
    ensures { (tally : counted.Tally) × (calls : Option (List call.HallCall)) × ServesAgent result
        (agent_side counted.no_calls None (L.traffic link.old) (L.marks link.old) (L.faults link.old))
        (agent_side tally calls (L.traffic link.new) (L.marks link.new) (L.faults link.new)) }
{
    let mut hall = Locked::new(rt, roll, questions);
    agent_loop(rt, alloc, &mut hall, link)
}

/// Serves one connection of an administrator, as `admin_loop` does. It may wait.
pub fn serve_admin<R: Wait + Clock, D: Disk, H: HangEnd, L: Link, J: Naming>(
    rt: &R,
    alloc: Global,
    keeper: &mut Keeper<'_, D>,
    publisher: &mut Publisher<J>,
    roll: &Mutex<Roll<H, J>>,
    questions: &QuestionDesk,
    hangs: &mut Front<Event, Events<J>>,
    link: &mut L,
) -> Ended
    requires behind { last_commit 0 publisher.old ≤ keeper.old.desk.commit }
    ensures served { (tally : counted.Tally) × ServesAdmin
        (talk_of (side_of D.faults keeper.old publisher.old counted.no_calls None)
        (L.traffic link.old) (L.marks link.old) (L.faults link.old))
        (talk_of (side_of D.faults keeper.new publisher.new tally None)
        (L.traffic link.new) (L.marks link.new) (L.faults link.new)) result
        (RunsOver D.state D.moment D.left_since keeper.old keeper.new)
        × AddsSome (side_of D.faults keeper.old publisher.old counted.no_calls None)
        (side_of D.faults keeper.new publisher.new tally None) }
    ensures behind { last_commit 0 publisher.new ≤ keeper.new.desk.commit }
    ensures hangs { HangsOn publisher.old publisher.new hangs.old hangs.new }
    ensures rising { Rises publisher.new }
    ensures same_disk { IsSameDisk keeper.old keeper.new }
{
    let mut hall = Locked::new(rt, roll, questions);
    admin_loop(rt, alloc, keeper, publisher, &mut hall, hangs, link)
}
