ghost use Rattle.std.specs.Prelude.{◌≡◌, ◌<◌, IsTrue, length};
ghost use Rattle.cynara_keys.specs.PolicyResult.{is_agent};
ghost use Rattle.wire_fields.specs.declared.operations.Heard.TheVariants.{AtAgent};
ghost use Rattle.door_frames.specs.Hearing.{IsSound};
ghost use Rattle.agent_door.specs.Serving.{AgentSide, agent_side, Asks, Serves};
ghost use Rattle.agent_door.specs.parts.Talk.{HasJoined, TellsTaken};

use crate::agent_halls::AgentHall;
use crate::hearing::LinkFeeder;
use crate::messages::{Registration, read_registration};
use crate::rounds::round;
use crate::sending::send;
use agent_table::RegisterRefusal;
use cynara_keys::Kind;
use desk_ports::Bytes;
use door_frames::{Ended, MOST_PIECE};
use link_ports::Link;
use std::alloc::Global;
use std::sync::Wait;
use wire_messages::Message;

/// Serves one connection of an agent: it registers for a kind, is given one question of the kind after the other, and
/// each of its answers is handed to the hall. It is told of a question that was withdrawn before it answered. An agent
/// whose kind is taken, or for which there is no room, is told so, and its connection ends. So does that of an agent
/// that left, and of one that has not answered a question in 600 turns of a tenth of a second at most. It may wait.
pub fn agent_loop<R: Wait, L: Link, A: AgentHall<L>>(
    rt: &R,
    alloc: Global,
    hall: &mut A,
    link: &mut L,
) -> Ended
    ensures { Serves result
        (agent_side (A.tally hall.old) (A.calls hall.old) (L.traffic link.old) (L.marks link.old) (L.faults link.old))
        (agent_side (A.tally hall.new) (A.calls hall.new) (L.traffic link.new) (L.marks link.new) (L.faults link.new)) }
{
    let mut feeder = LinkFeeder::<L>::new(alloc);
    let mut frame = Bytes::new(alloc);
    let mut room = [0u8; MOST_PIECE];
    let registered = match feeder.next_frame(rt, link, &mut room) {
        Ok(framed) => match read_registration(framed) {
            Ok(registered) => registered,
            Err(ended) => return ended,
        },
        Err(ended) => return ended,
    };
    let kind = registered.kind;
    match hall.join(kind) {
        Ok(()) => {}
        Err(RegisterRefusal::Taken(_)) => return tell_taken(link, &mut frame, registered),
        Err(RegisterRefusal::Full) => return tell_taken(link, &mut frame, registered),
        Err(RegisterRefusal::Stopped) => return Ended::Stopped,
        Err(RegisterRefusal::Memory(_)) => return Ended::Memory,
    }
    let ended = serve(
        rt,
        hall,
        link,
        &mut feeder,
        &mut room,
        &mut frame,
        registered,
    );
    hall.part(kind);
    ended
}

// Tells an agent that its kind is taken.
fn tell_taken<L: Link>(link: &mut L, frame: &mut Bytes, registered: Registration) -> Ended
    ensures told { TellsTaken registered result (L.traffic link.old) (L.traffic link.new) (L.faults link.old)
        (L.faults link.new) }
    ensures marks { L.marks link.new ≡ L.marks link.old }
{
    let message = Message::KindTaken {
        kind: registered.kind,
    };
    match send(link, frame, registered.sequence, message) {
        Ok(()) => Ended::Closed,
        Err(ended) => ended,
    }
}

// Serves an agent that has joined, until the connection ends.
fn serve<R: Wait, L: Link, A: AgentHall<L>>(
    rt: &R,
    hall: &mut A,
    link: &mut L,
    feeder: &mut LinkFeeder<L>,
    room: &mut [u8],
    frame: &mut Bytes,
    registered: Registration,
) -> Ended
    requires agent { IsTrue (is_agent registered.kind.0) }
    requires some { 0 < length room.old }
    requires side { feeder.old.heard ≡ AtAgent }
    requires sound { IsSound feeder.old }
    ensures { (start : AgentSide) → HasJoined registered start
        (agent_side (A.tally hall.old) (A.calls hall.old) (L.traffic link.old) (L.marks link.old) (L.faults link.old))
        feeder.old → Asks registered start
        (agent_side (A.tally hall.new) (A.calls hall.new) (L.traffic link.new) (L.marks link.new) (L.faults link.new))
        result }
{
    let kind = registered.kind;
    let message = Message::Registered { kind };
    if let Err(ended) = send(link, frame, registered.sequence, message) {
        return ended;
    }
    for _ in rt.forever() {
        if let Err(ended) = round(hall, link, feeder, room, frame, registered) {
            return ended;
        }
    }
    unreachable!()
}
