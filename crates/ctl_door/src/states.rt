// The policy state of a service.
ghost use Rattle.std.specs.Prelude.{◌≡◌, IfOk};
ghost use Rattle.set_text.specs.Files.{files};
ghost use Rattle.ctl_door.specs.Joining.{AreJoined};
ghost use Rattle.wire_reading.specs.Frame.{spelling};
ghost use Rattle.ctl_door.specs.State.{Asks, AsksOver, Tells, question};

use crate::files::set_of;
use crate::frames::{Parts, SEQUENCE, read_parts};
use crate::refusals::DoorRefusal;
use desk_ports::{Bytes, Failed, PortFault};
use desk_state::Desk;
use link_ports::{Dial, DoorKind, Link};
use set_text::{TextRefusal, read};
use std::alloc::Global;
use wire_messages::{EncodeRefusal, Message, encode_message_into};

/// The policy state of the service, all of it of one commit. The link is given back. It may wait.
pub fn state_of_service<N: Dial>(alloc: Global, dial: &mut N) -> Result<Desk, DoorRefusal>
    ensures { IfOk result (λ desk. AsksOver N.Link.traffic N.given_back desk dial.old dial.new) }
{
    let mut link = match dial.dial(DoorKind::Admin) {
        Ok(link) => link,
        Err(PortFault::Failed) => return Err(DoorRefusal::Unavailable),
        Err(PortFault::Memory(error)) => return Err(DoorRefusal::Memory(error)),
    };
    match state_over(alloc, &mut link) {
        Ok(desk) => {
            dial.give_back(link);
            Ok(desk)
        }
        Err(refusal) => {
            dial.give_back(link);
            Err(refusal)
        }
    }
}

// The state, as it is told over the link.
fn state_over<L: Link>(alloc: Global, link: &mut L) -> Result<Desk, DoorRefusal>
    ensures { IfOk result (λ desk. Asks desk (L.traffic link.old) (L.traffic link.new)) }
{
    let frame = match question_frame(alloc) {
        Ok(frame) => frame,
        Err(refusal) => return Err(refusal),
    };
    match link.send(frame.as_slice()) {
        Ok(()) => {}
        Err(Failed) => return Err(DoorRefusal::Unavailable),
    }
    match hear_state(alloc, link) {
        Ok(desk) => Ok(desk),
        Err(refusal) => Err(refusal),
    }
}

// The frame that asks for the state.
fn question_frame(alloc: Global) -> Result<Bytes, DoorRefusal>
    ensures { IfOk result (λ frame. frame ≡ spelling question) }
{
    let mut frame = Bytes::new(alloc);
    let message = Message::ReadState;
    let encoded = encode_message_into(&mut frame, SEQUENCE, &message);
    drop(message);
    match encoded {
        Ok(()) => Ok(frame),
        Err(EncodeRefusal::TooLong(_)) => Err(DoorRefusal::NoState),
        Err(EncodeRefusal::Memory(error)) => Err(DoorRefusal::Memory(error)),
    }
}

// The state that the reply tells.
fn hear_state<L: Link>(alloc: Global, link: &mut L) -> Result<Desk, DoorRefusal>
    ensures { IfOk result (λ desk. Tells desk (L.traffic link.old) (L.traffic link.new)) }
{
    let told = match read_parts(alloc, link) {
        Ok(told) => told,
        Err(refusal) => return Err(refusal),
    };
    match state_in(alloc, told) {
        Ok(desk) => Ok(desk),
        Err(refusal) => Err(refusal),
    }
}

// The state that was told.
fn state_in(alloc: Global, told: Parts) -> Result<Desk, DoorRefusal>
    ensures joined { IfOk result (λ desk. AreJoined told.parts.items (files desk)) }
    ensures commit { IfOk result (λ desk. desk.commit ≡ told.commit) }
{
    let Parts { parts, commit } = told;
    let set = match set_of(alloc, parts) {
        Ok(set) => set,
        Err(error) => return Err(DoorRefusal::Memory(error)),
    };
    match read(alloc, &set) {
        Ok(desk) => {
            if desk.commit() == commit {
                return Ok(desk);
            }
            Err(DoorRefusal::NoState)
        }
        Err(TextRefusal::Memory(error)) => Err(DoorRefusal::Memory(error)),
        Err(_) => Err(DoorRefusal::NoState),
    }
}
