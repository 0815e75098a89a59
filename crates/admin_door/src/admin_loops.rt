ghost use Rattle.std.specs.Prelude.{◌≡◌, ◌≤◌, ◌<◌, true, false, length, Some, MatchResult, OnOk};
ghost use Rattle.desk_ports.specs.Disk.{WhereTold};
ghost use Rattle.desk_ports.specs.Moments.{LeavesOnly};
ghost use Rattle.guard_files.specs.Telling.{StillTells};
ghost use Rattle.desk_keeper.specs.Keeper.{disk_of, held_of, IsSameDisk};
ghost use Rattle.desk_keeper.specs.Keeping.{EndsKept};
ghost use Rattle.wire_messages.specs.Commands.{command_of};
ghost use Rattle.live_desk.specs.History.{last_commit, Rises};
ghost use Rattle.wire_fields.specs.Operation.{number_of, operation_of};
ghost use Rattle.wire_fields.specs.Message.{operation};
ghost use Rattle.wire_reading.specs.Stream.{unfed};
ghost use Rattle.wire_fields.specs.declared.operations.Heard.TheVariants.{AtAdmin};
ghost use Rattle.wire_fields.specs.declared.messages.Message.TheVariants.{Stop};
ghost use Rattle.door_frames.specs.Hearing.{IsSound};
ghost use Rattle.admin_door.specs.Side.{side_of, decided_of};
ghost use Rattle.admin_door.specs.Stops.{KeepsKnown, StandsBy};
ghost use Rattle.admin_door.specs.Running.{RunsOver};
ghost use Rattle.admin_door.specs.Hanging.{HangsOn};
ghost use Rattle.admin_door.specs.Adding.{AddsSome};
ghost use Rattle.admin_door.specs.Serving as words;
ghost use Rattle.admin_door.specs.Serving.{talk_of, Serves, IsNoStop};
ghost use Rattle.admin_door.specs.parts.Talk.{Goes, Ends, IsWhole, EndsAt};

use crate::commands::answer_command;
use crate::due_links::DueLink;
use crate::publishing::KeptPublisher;
use desk_keeper::Keeper;
use desk_ports::{Bytes, Disk};
use door_frames::{Ended, MOST_PIECE};
use live_desk::{Event, Events, Front, Naming};
use server_hall::Hall;
use std::alloc::Global;
use std::sync::Wait;
use wire_messages::{Feeder, Framed, Heard, Message};

/// Serves one connection of an administrator: each message is answered in turn, and `Stop` is the last: it ends the
/// connection as stopped, whether or not its reply can be sent. What a stop at any moment may leave in the folder, and
/// what the folder keeps behind the connection, is told of its frames (`RunsOver`). The front of the roll's events goes
/// on with each disconnect that a command made. It may wait.
pub fn admin_loop<
    R: Wait,
    D: Disk,
    J: Naming,
    A: Hall<List = J>,
    P: KeptPublisher<D, J>,
    L: DueLink<D, J, A, P>,
>(
    rt: &R,
    alloc: Global,
    keeper: &mut Keeper<'_, D>,
    publisher: &mut P,
    hall: &mut A,
    hangs: &mut Front<Event, Events<J>>,
    link: &mut L,
) -> Ended
    requires { last_commit 0 (P.states publisher.old) ≤ keeper.old.desk.commit }
    ensures served { Serves
        (talk_of (side_of D.faults keeper.old (P.states publisher.old) (A.tally hall.old) (A.calls hall.old))
        (L.traffic link.old) (L.marks link.old) (L.faults link.old))
        (talk_of (side_of D.faults keeper.new (P.states publisher.new) (A.tally hall.new) (A.calls hall.new))
        (L.traffic link.new) (L.marks link.new) (L.faults link.new)) result
        (RunsOver D.state D.moment D.left_since keeper.old keeper.new) }
    ensures adds { AddsSome
        (side_of D.faults keeper.old (P.states publisher.old) (A.tally hall.old) (A.calls hall.old))
        (side_of D.faults keeper.new (P.states publisher.new) (A.tally hall.new) (A.calls hall.new)) }
    ensures behind { last_commit 0 (P.states publisher.new) ≤ keeper.new.desk.commit }
    ensures hangs { HangsOn (P.states publisher.old) (P.states publisher.new) hangs.old hangs.new }
    ensures rising { Rises (P.states publisher.new) }
    ensures same_disk { IsSameDisk keeper.old keeper.new }
{
    // proof: the result has a name, so that what follows of it is told at the end.
    let ended = serve(rt, alloc, keeper, publisher, hall, hangs, link);
    // proof: that the commits of what was published rise is told by this.
    let _last = publisher.commit();
    ended
}

// The same. What follows of it on what was published is told by its caller.
fn serve<
    R: Wait,
    D: Disk,
    J: Naming,
    A: Hall<List = J>,
    P: KeptPublisher<D, J>,
    L: DueLink<D, J, A, P>,
>(
    rt: &R,
    alloc: Global,
    keeper: &mut Keeper<'_, D>,
    publisher: &mut P,
    hall: &mut A,
    hangs: &mut Front<Event, Events<J>>,
    link: &mut L,
) -> Ended
    requires { last_commit 0 (P.states publisher.old) ≤ keeper.old.desk.commit }
    ensures served { Serves
        (talk_of (side_of D.faults keeper.old (P.states publisher.old) (A.tally hall.old) (A.calls hall.old))
        (L.traffic link.old) (L.marks link.old) (L.faults link.old))
        (talk_of (side_of D.faults keeper.new (P.states publisher.new) (A.tally hall.new) (A.calls hall.new))
        (L.traffic link.new) (L.marks link.new) (L.faults link.new)) result
        (RunsOver D.state D.moment D.left_since keeper.old keeper.new) }
    ensures behind { last_commit 0 (P.states publisher.new) ≤ keeper.new.desk.commit }
    ensures hangs { HangsOn (P.states publisher.old) (P.states publisher.new) hangs.old hangs.new }
    ensures same_disk { IsSameDisk keeper.old keeper.new }
{
    let mut feeder = Feeder::new(alloc, Heard::AtAdmin);
    let mut room = [0u8; MOST_PIECE];
    let mut frame = Bytes::new(alloc);
    for _ in rt.forever() {
        let turn = turn(
            rt,
            alloc,
            keeper,
            publisher,
            hall,
            hangs,
            link,
            &mut feeder,
            &mut room,
            &mut frame,
        );
        if let Err(ended) = turn {
            return ended;
        }
    }
    unreachable!()
}

// Waits for the next frame, and answers it. The frame's buffer is kept for the replies.
#[tactic(auto, using(crate::proofs::Hanging::hangs_none))]
fn turn<
    R: Wait,
    D: Disk,
    J: Naming,
    A: Hall<List = J>,
    P: KeptPublisher<D, J>,
    L: DueLink<D, J, A, P>,
>(
    rt: &R,
    alloc: Global,
    keeper: &mut Keeper<'_, D>,
    publisher: &mut P,
    hall: &mut A,
    hangs: &mut Front<Event, Events<J>>,
    link: &mut L,
    feeder: &mut Feeder,
    room: &mut [u8],
    frame: &mut Bytes,
) -> Result<(), Ended>
    requires some { 0 < length room.old }
    requires side { feeder.old.heard ≡ AtAdmin }
    requires sound { IsSound feeder.old }
    requires behind { last_commit 0 (P.states publisher.old) ≤ keeper.old.desk.commit }
    ensures talk { MatchResult result
        (λ _. Goes D.state D.moment D.left_since keeper.old
        (talk_of (side_of D.faults keeper.old (P.states publisher.old) (A.tally hall.old) (A.calls hall.old))
        (L.traffic link.old) (L.marks link.old) (L.faults link.old)) feeder.old keeper.new
        (talk_of (side_of D.faults keeper.new (P.states publisher.new) (A.tally hall.new) (A.calls hall.new))
        (L.traffic link.new) (L.marks link.new) (L.faults link.new)) feeder.new)
        (Ends D.state D.moment D.left_since keeper.old
        (talk_of (side_of D.faults keeper.old (P.states publisher.old) (A.tally hall.old) (A.calls hall.old))
        (L.traffic link.old) (L.marks link.old) (L.faults link.old)) feeder.old keeper.new
        (talk_of (side_of D.faults keeper.new (P.states publisher.new) (A.tally hall.new) (A.calls hall.new))
        (L.traffic link.new) (L.marks link.new) (L.faults link.new))) }
    ensures side { OnOk result (feeder.new.heard ≡ AtAdmin) }
    ensures sound { OnOk result (IsSound feeder.new) }
    ensures room { length room.new ≡ length room.old }
    ensures behind { last_commit 0 (P.states publisher.new) ≤ keeper.new.desk.commit }
    ensures hangs { HangsOn (P.states publisher.old) (P.states publisher.new) hangs.old hangs.new }
    ensures same_disk { IsSameDisk keeper.old keeper.new }
{
    let framed = match link.next_frame(rt, feeder, room) {
        Ok(framed) => framed,
        Err(ended) => return Err(ended),
    };
    let outcome = answer_frame(
        rt, alloc, keeper, publisher, hall, hangs, link, frame, &framed,
    );
    drop(framed);
    outcome
}

// Answers a frame, and sends the replies. Behind a stop the connection ends.
fn answer_frame<
    R: Wait,
    D: Disk,
    J: Naming,
    A: Hall<List = J>,
    P: KeptPublisher<D, J>,
    L: DueLink<D, J, A, P>,
>(
    rt: &R,
    alloc: Global,
    keeper: &mut Keeper<'_, D>,
    publisher: &mut P,
    hall: &mut A,
    hangs: &mut Front<Event, Events<J>>,
    link: &mut L,
    frame: &mut Bytes,
    framed: &Framed,
) -> Result<(), Ended>
    requires known { operation_of AtAdmin (number_of (operation framed.now.message))
        ≡ Some (operation framed.now.message) }
    requires behind { last_commit 0 (P.states publisher.old) ≤ keeper.old.desk.commit }
    ensures answered { MatchResult result
        (λ _. IsNoStop framed.now.message × IsWhole (D.state (disk_of keeper.old)) framed.now
        (talk_of (side_of D.faults keeper.old (P.states publisher.old) (A.tally hall.old) (A.calls hall.old))
        (L.traffic link.old) (L.marks link.old) (L.faults link.old))
        (talk_of (side_of D.faults keeper.new (P.states publisher.new) (A.tally hall.new) (A.calls hall.new))
        (L.traffic link.new) (L.marks link.new) (L.faults link.new)))
        (EndsAt (D.state (disk_of keeper.old)) framed.now
        (talk_of (side_of D.faults keeper.old (P.states publisher.old) (A.tally hall.old) (A.calls hall.old))
        (L.traffic link.old) (L.marks link.old) (L.faults link.old))
        (talk_of (side_of D.faults keeper.new (P.states publisher.new) (A.tally hall.new) (A.calls hall.new))
        (L.traffic link.new) (L.marks link.new) (L.faults link.new))) }
    ensures stops { WhereTold (D.state (disk_of keeper.old)) (λ before.
        KeepsKnown (decided_of keeper.old) keeper.old.desk (held_of keeper.old) before
        → LeavesOnly D.moment D.left_since (disk_of keeper.old) (disk_of keeper.new)
        (StandsBy (command_of framed.now.message) before)) }
    ensures kept { WhereTold (D.state (disk_of keeper.old)) (λ before.
        KeepsKnown (decided_of keeper.old) keeper.old.desk (held_of keeper.old) before
        → decided_of keeper.new ≡ true → EndsKept keeper.new.desk (held_of keeper.new) (D.state (disk_of keeper.new))) }
    ensures tells { StillTells (D.state (disk_of keeper.old)) (D.state (disk_of keeper.new)) }
    ensures behind { last_commit 0 (P.states publisher.new) ≤ keeper.new.desk.commit }
    ensures hangs { HangsOn (P.states publisher.old) (P.states publisher.new) hangs.old hangs.new }
    ensures same_disk { IsSameDisk keeper.old keeper.new }
{
    let replies = match answer_command(rt, alloc, keeper, publisher, hall, hangs, &framed.message) {
        Ok(replies) => replies,
        Err(ended) => return Err(ended),
    };
    if let Err(cause) = link.send_due(keeper, publisher, hall, hangs, frame, framed, &replies) {
        return Err(ended_behind(&framed.message, cause));
    }
    go_on(&framed.message)
}

// How the connection ends where the replies to a message are not all sent. A stop is made by then, so that one whose
// sender has left still ends the service.
fn ended_behind(message: &Message, cause: Ended) -> Ended
    ensures { result ≡ words.ended_behind message.now cause }
{
    match message {
        Message::Stop => Ended::Stopped,
        _ => cause,
    }
}

// A stop ends the connection.
fn go_on(message: &Message) -> Result<(), Ended>
    ensures { MatchResult result (λ _. IsNoStop message.now) (λ ended. (message.now ≡ Stop) × (ended ≡ Ended.Stopped)) }
{
    match message {
        Message::Stop => Err(Ended::Stopped),
        _ => Ok(()),
    }
}
