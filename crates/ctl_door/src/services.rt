// What a service tells of itself.
ghost use Rattle.std.specs.Prelude.{◌≡◌, IfOk};
ghost use Rattle.wire_reading.specs.Frame.{spelling};
ghost use Rattle.ctl_door.specs.Service.{Asks, AsksOver, question};

use crate::frames::SEQUENCE;
use crate::refusals::DoorRefusal;
use crate::service_frames::{ServiceSeen, read_service};
use desk_ports::{Bytes, Failed, PortFault};
use link_ports::{Dial, DoorKind, Link};
use std::alloc::Global;
use wire_messages::{EncodeRefusal, Message, encode_message_into};

/// What the service tells of itself: exactly what the frames of its reply say. `NotKnown` where the service ended the
/// connection in place of a reply, as one does that is too old to know the question. The link is given back. It may
/// wait.
pub fn service_seen<N: Dial>(alloc: Global, dial: &mut N) -> Result<ServiceSeen, DoorRefusal>
    ensures { IfOk result (λ seen. AsksOver N.Link.traffic N.given_back seen dial.old dial.new) }
{
    let mut link = match dial.dial(DoorKind::Admin) {
        Ok(link) => link,
        Err(PortFault::Failed) => return Err(DoorRefusal::Unavailable),
        Err(PortFault::Memory(error)) => return Err(DoorRefusal::Memory(error)),
    };
    match seen_over(alloc, &mut link) {
        Ok(seen) => {
            dial.give_back(link);
            Ok(seen)
        }
        Err(refusal) => {
            dial.give_back(link);
            Err(refusal)
        }
    }
}

// What is told over the link.
fn seen_over<L: Link>(alloc: Global, link: &mut L) -> Result<ServiceSeen, DoorRefusal>
    ensures { IfOk result (λ seen. Asks seen (L.traffic link.old) (L.traffic link.new)) }
{
    let frame = match question_frame(alloc) {
        Ok(frame) => frame,
        Err(refusal) => return Err(refusal),
    };
    match link.send(frame.as_slice()) {
        Ok(()) => {}
        Err(Failed) => return Err(DoorRefusal::Unavailable),
    }
    match read_service(alloc, link) {
        Ok(seen) => Ok(seen),
        Err(DoorRefusal::Unavailable) => Err(why_lost(link)),
        Err(refusal) => Err(refusal),
    }
}

// Why there was no reply: the service ended the connection, or it did not answer in time.
fn why_lost<L: Link>(link: &mut L) -> DoorRefusal {
    if link.is_up() {
        return DoorRefusal::Unavailable;
    }
    DoorRefusal::NotKnown
}

// The frame that asks.
fn question_frame(alloc: Global) -> Result<Bytes, DoorRefusal>
    ensures { IfOk result (λ frame. frame ≡ spelling question) }
{
    let mut frame = Bytes::new(alloc);
    let message = Message::ReadService;
    let encoded = encode_message_into(&mut frame, SEQUENCE, &message);
    drop(message);
    match encoded {
        Ok(()) => Ok(frame),
        Err(EncodeRefusal::TooLong(_)) => Err(DoorRefusal::NoState),
        Err(EncodeRefusal::Memory(error)) => Err(DoorRefusal::Memory(error)),
    }
}
