// What is sent to an administrator: the one place where a reply goes over a link.
ghost use Rattle.std.specs.Prelude.{◌≡◌, ◌<◌, ℕ, List, [], Option, length, MatchResult, IfOk, IfErr, OnOk, OnErr};
ghost use Rattle.link_ports.specs.Traffic.{Traffic};
ghost use Rattle.link_ports.specs.LinkMarks.{LinkMarks};
ghost use Rattle.wire_reading.specs.Hearing.{IsHeard};
ghost use Rattle.door_frames.specs.Carried.{Carried};
ghost use Rattle.door_frames.specs.Hearing.{IsSound, HearsMore, HandsOut};
ghost use Rattle.door_frames.specs.Ending.{EndsReading};
ghost use Rattle.admin_door.specs.Side.{side_of};
ghost use Rattle.admin_door.specs.Due.{AreDue, IsCutOff};
ghost use Rattle.admin_door.specs.Serving.{replies_bytes};

use crate::publishing::KeptPublisher;
use desk_keeper::Keeper;
use desk_ports::{Bytes, Disk};
use door_frames::{Ended, next_frame, send_message};
use link_ports::Link;
use live_desk::{Event, Events, Front, Naming};
use server_hall::Hall;
use std::sync::Wait;
use wire_messages::{Feeder, Framed, Message};

/// A link of an administrator, beside the keeper's disk, the publisher and the hall that it is served with. What is
/// bound by this alone can send no replies but those that are due by what stands in these, whether or not it returns.
/// Each link is such a link.
pub trait DueLink<D: Disk, J: Naming, A: Hall, P: KeptPublisher<D, J>> {
    /// The bytes received and sent so far, where it tells them.
    ghost traffic: { Self → Option Traffic };

    /// How many hang ends were taken from it, and whether it was found at its end or down.
    ghost marks: { Self → LinkMarks };

    /// How often it has failed.
    ghost faults: { Self → ℕ };

    /// Takes the next frame that was heard, as `next_frame` of `door_frames` does. It may wait for bytes.
    fn next_frame<R: Wait>(
        &mut self,
        rt: &R,
        feeder: &mut Feeder,
        room: &mut [u8],
    ) -> Result<Framed, Ended>
        requires some { 0 < length room.old }
        requires sound { IsSound feeder.old }
        ensures framed { IfOk result (λ framed. (bytes : List ℕ)
            × Carried (traffic self.old) (traffic self.new) bytes []
            × HandsOut bytes framed feeder.old feeder.new) }
        ensures right { IfOk result (IsHeard feeder.old.heard) }
        ensures side { feeder.new.heard ≡ feeder.old.heard }
        ensures faults { OnOk result (faults self.new ≡ faults self.old) }
        ensures ended { IfErr result
            (λ ended. EndsReading ended feeder.new (marks self.new) (faults self.old) (faults self.new)) }
        ensures heard { OnErr result ((bytes : List ℕ)
            × Carried (traffic self.old) (traffic self.new) bytes []
            × HearsMore bytes feeder.old feeder.new) }
        ensures sound { IsSound feeder.new }
        ensures empty { OnErr result (feeder.new.waiting ≡ []) }
        ensures ends { (marks self.new).ends ≡ (marks self.old).ends };

    /// Sends the replies that are due to a frame, each with its sequence number: what they tell as done stands in the
    /// keeper, the publisher, the hall and the front of the roll's events before the first byte is sent.
    fn send_due(
        &mut self,
        keeper: &Keeper<'_, D>,
        publisher: &P,
        hall: &A,
        hangs: &Front<Event, Events<J>>,
        frame: &mut Bytes,
        framed: &Framed,
        replies: &[Message],
    ) -> Result<(), Ended>
        requires due { AreDue framed.now.message
            (side_of D.faults keeper.now (P.states publisher.now) (A.tally hall.now) (A.calls hall.now))
            hangs.now replies.now }
        ensures sent { MatchResult result
            (λ _. Carried (traffic self.old) (traffic self.new) [] (replies_bytes framed.now.sequence replies.now)
            × (faults self.new ≡ faults self.old))
            (λ ended. IsCutOff ended framed.now.sequence replies.now
            (traffic self.old) (traffic self.new) (faults self.old) (faults self.new)) }
        ensures marks { marks self.new ≡ marks self.old };
}

impl<D: Disk, J: Naming, A: Hall, P: KeptPublisher<D, J>, L: Link> DueLink<D, J, A, P> for L {
    ghost traffic = { λ link. L.traffic link };

    ghost marks = { λ link. L.marks link };

    ghost faults = { λ link. L.faults link };

    fn next_frame<R: Wait>(
        &mut self,
        rt: &R,
        feeder: &mut Feeder,
        room: &mut [u8],
    ) -> Result<Framed, Ended> {
        next_frame(rt, self, feeder, room)
    }

    fn send_due(
        &mut self,
        keeper: &Keeper<'_, D>,
        publisher: &P,
        hall: &A,
        hangs: &Front<Event, Events<J>>,
        frame: &mut Bytes,
        framed: &Framed,
        replies: &[Message],
    ) -> Result<(), Ended> {
        send_all(self, frame, framed.sequence, replies)
    }
}

// Sends replies, each with this sequence number, until one is not sent.
fn send_all<L: Link>(
    link: &mut L,
    frame: &mut Bytes,
    sequence: u16,
    replies: &[Message],
) -> Result<(), Ended>
    ensures sent { MatchResult result
        (λ _. Carried (L.traffic link.old) (L.traffic link.new) [] (replies_bytes sequence replies.now)
        × (L.faults link.new ≡ L.faults link.old))
        (λ ended. IsCutOff ended sequence replies.now
        (L.traffic link.old) (L.traffic link.new) (L.faults link.old) (L.faults link.new)) }
    ensures marks { L.marks link.new ≡ L.marks link.old }
{
    for reply in replies {
        if let Err(ended) = send_message(link, frame, sequence, reply) {
            return Err(ended);
        }
    }
    Ok(())
}
