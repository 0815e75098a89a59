// The worker of administrators.
ghost use Rattle.std.specs.Prelude.{◌≡◌, ◌≤◌, List, [], IfSome, IfNone};
ghost use Rattle.desk_keeper.specs.Keeper.{IsSameDisk};
ghost use Rattle.live_desk.specs.History.{last_commit};
ghost use Rattle.desk_server.specs.Visit.{Works, IsNotOver};
ghost use Rattle.admin_door.specs.Serving.{Exchange};
ghost use Rattle.admin_door.specs.Running.{RunsOver};
ghost use Rattle.admin_door.specs.Hanging.{AreHung};
ghost use Rattle.desk_server.specs.Administrators.{admin_state_of, VisitsAdministrators, EndsAdministrators};
ghost use Rattle.desk_server.specs.Administrators.{EndsBehind, tally_behind};
ghost use Rattle.desk_server.specs.parts.Turn.{TurnsAdminState};

use crate::notes::{Notes, note_stop, note_store};
use crate::serving::serve_admin;
use crate::workers::{WorkerEnd, accept, is_stop};
use desk_keeper::Keeper;
use desk_ports::Disk;
use door_frames::Ended;
use link_ports::{Door, HangEnd, Link};
use live_desk::{Event, Events, Front, Naming, Publisher};
use live_roll::Roll;
use server_hall::{Hall, QuestionDesk, StopNews};
use std::alloc::Global;
use std::sync::{Mutex, Wait};
use std::time::Clock;

/// Serves connections of administrators, one after the other, until one of them has stopped the service, or it is told
/// behind one that the service is stopped. Where its door accepts none it stops the service itself, by way of its own
/// hall. What a stop at any moment may leave in the folder is told of the frames that came (`RunsOver`). Of each
/// command that was answered as done a disconnect up to its commit stands in the front of the roll's log, which goes on
/// with each (`AreHung`). It may wait.
pub fn work_for_administrators<
    R: Wait + Clock,
    D: Disk,
    H: HangEnd,
    L: Link,
    E: Door<Link = L>,
    A: Hall,
    T: Notes,
    J: Naming,
>(
    rt: &R,
    alloc: Global,
    keeper: &mut Keeper<'_, D>,
    publisher: &mut Publisher<J>,
    roll: &Mutex<Roll<H, J>>,
    questions: &QuestionDesk,
    hangs: &mut Front<Event, Events<J>>,
    door: &mut E,
    hall: &mut A,
    notes: &T,
    news: &mut StopNews,
) -> WorkerEnd
    requires behind { last_commit 0 publisher.old ≤ keeper.old.desk.commit }
    ensures worked { (frames : List Exchange)
        × Works (VisitsAdministrators L.traffic L.marks L.faults)
        (EndsAdministrators news.old news.new) L.marks L.faults result
        (admin_state_of D.faults keeper.old publisher.old []) (admin_state_of D.faults keeper.new publisher.new frames)
        (E.given_back door.old) (E.given_back door.new) (E.faults door.old) (E.faults door.new)
        × RunsOver D.state D.moment D.left_since keeper.old keeper.new frames × AreHung hangs.new frames }
    ensures same_disk { IsSameDisk keeper.old keeper.new }
    ensures kind { E.kind door.new ≡ E.kind door.old }
    ensures stopped { A.tally hall.new ≡ tally_behind result (A.tally hall.old) }
{
    let end = serve_administrators(
        rt, alloc, keeper, publisher, roll, questions, hangs, door, notes, news,
    );
    stop_behind(hall, end);
    end
}

// Stops the service behind a worker of administrators whose door accepts none.
fn stop_behind<A: Hall>(hall: &mut A, end: WorkerEnd)
    ensures { A.tally hall.new ≡ tally_behind end (A.tally hall.old) }
{
    match end {
        WorkerEnd::Stopped | WorkerEnd::Alone | WorkerEnd::Unstarted => {}
        WorkerEnd::DoorFailed | WorkerEnd::Memory => hall.stop(),
    }
}

// The same, but for the stop of the service where the door accepts none.
fn serve_administrators<
    R: Wait + Clock,
    D: Disk,
    H: HangEnd,
    L: Link,
    E: Door<Link = L>,
    T: Notes,
    J: Naming,
>(
    rt: &R,
    alloc: Global,
    keeper: &mut Keeper<'_, D>,
    publisher: &mut Publisher<J>,
    roll: &Mutex<Roll<H, J>>,
    questions: &QuestionDesk,
    hangs: &mut Front<Event, Events<J>>,
    door: &mut E,
    notes: &T,
    news: &mut StopNews,
) -> WorkerEnd
    requires behind { last_commit 0 publisher.old ≤ keeper.old.desk.commit }
    ensures worked { (frames : List Exchange)
        × Works (VisitsAdministrators L.traffic L.marks L.faults)
        (EndsAdministrators news.old news.new) L.marks L.faults result
        (admin_state_of D.faults keeper.old publisher.old []) (admin_state_of D.faults keeper.new publisher.new frames)
        (E.given_back door.old) (E.given_back door.new) (E.faults door.old) (E.faults door.new)
        × RunsOver D.state D.moment D.left_since keeper.old keeper.new frames × AreHung hangs.new frames }
    ensures same_disk { IsSameDisk keeper.old keeper.new }
    ensures kind { E.kind door.new ≡ E.kind door.old }
{
    for _ in rt.forever() {
        if let Err(end) = serve_next(
            rt, alloc, keeper, publisher, roll, questions, hangs, door, notes, news,
        ) {
            return end;
        }
    }
    unreachable!()
}

// Serves the next administrator, and says whether the worker ends behind it.
fn serve_next<
    R: Wait + Clock,
    D: Disk,
    H: HangEnd,
    L: Link,
    E: Door<Link = L>,
    T: Notes,
    J: Naming,
>(
    rt: &R,
    alloc: Global,
    keeper: &mut Keeper<'_, D>,
    publisher: &mut Publisher<J>,
    roll: &Mutex<Roll<H, J>>,
    questions: &QuestionDesk,
    hangs: &mut Front<Event, Events<J>>,
    door: &mut E,
    notes: &T,
    news: &mut StopNews,
) -> Result<(), WorkerEnd>
    requires behind { last_commit 0 publisher.old ≤ keeper.old.desk.commit }
    ensures worked { TurnsAdminState D.faults D.state D.moment D.left_since L.traffic L.marks L.faults result
        keeper.old publisher.old (E.given_back door.old) (E.faults door.old) news.old hangs.old
        keeper.new publisher.new (E.given_back door.new) (E.faults door.new) news.new hangs.new }
    ensures behind { last_commit 0 publisher.new ≤ keeper.new.desk.commit }
    ensures same_disk { IsSameDisk keeper.old keeper.new }
    ensures kind { E.kind door.new ≡ E.kind door.old }
{
    let mut link = match accept(door) {
        Ok(link) => link,
        Err(end) => return Err(end),
    };
    let was_decided = keeper.is_decided();
    let ended = serve_admin(
        rt, alloc, keeper, publisher, roll, questions, hangs, &mut link,
    );
    note_store(notes, was_decided, keeper.is_decided());
    door.give_back(link);
    match end_behind(rt, questions, news, &ended) {
        Some(end) => {
            note_made_stop(notes, end);
            Err(end)
        }
        None => Ok(()),
    }
}

// Tells of a stop that a connection made.
fn note_made_stop<T: Notes>(notes: &T, end: WorkerEnd) {
    if end == WorkerEnd::Stopped {
        note_stop(notes);
    }
}

// How the worker of administrators ends behind a connection that ended so, if it does: it made a stop, or the service
// is stopped.
fn end_behind<R: Wait>(
    rt: &R,
    questions: &QuestionDesk,
    news: &mut StopNews,
    ended: &Ended,
) -> Option<WorkerEnd>
    ensures over { IfSome result (λ end. EndsBehind end ended.now news.old news.new) }
    ensures on { IfNone result (IsNotOver ended.now news.old news.new) }
{
    if is_stop(ended) {
        return Some(WorkerEnd::Stopped);
    }
    if news.is_stopped(rt, questions) {
        return Some(WorkerEnd::Alone);
    }
    None
}
