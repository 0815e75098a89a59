// The frame of a message goes out on a link, and the machine hears what comes back.
ghost use Rattle.std.specs.Prelude.{◌≡◌, ◌<◌, ◌≤◌, ◌∷◌, ◌++◌, [], ℕ, length, OnOk};
ghost use Rattle.wire_reading.specs.Stream.{IsOpen};
ghost use Rattle.wire_fields.specs.declared.messages.Message as message_type;
ghost use Rattle.wire_fields.specs.declared.operations.Heard.TheVariants.{Replies};
ghost use Rattle.client_connection.specs.Reading.{Receives, IsTrouble};
ghost use Rattle.client_core.specs.Admin.{wanted_at};
ghost use Rattle.client_core.specs.Listening.{Listening, unheard};
ghost use Rattle.client_core.specs.declared.stages.Exchange as exchange_type;
ghost use Rattle.client_core.specs.declared.stages.AdminStage.TheVariants as stage_is;
ghost use Rattle.admin_client.specs.Sending.{Exchanges, listed};
ghost use Rattle.admin_client.specs.parts.States.{IsDue};
ghost use Rattle.admin_client.specs.parts.Talking.{Takes, Hears, Answers, Leaves};

use crate::AdminRefusal;
use crate::refusals::refusal_of;
use client_connection::{receive_some, send_frame};
use client_core::{AdminMachine, Fault, Step};
use link_ports::Link;
use std::alloc::{AllocError, Global};
use wire_messages::Message;

// How many bytes are received at once, at most.
const MOST_PIECE: usize = 4096;

/// Sends the frame of the message, once, and gives the replies, of which no byte past the last one is taken. It may
/// wait.
pub(crate) fn talk<L: Link>(
    alloc: Global,
    machine: &mut AdminMachine,
    link: &mut L,
) -> Result<Vec<Message>, AdminRefusal>
    requires { (message : message_type.Message) × (sequence : ℕ) × IsDue sequence message machine.old }
    ensures exchanged { (message : message_type.Message) (sequence : ℕ) → IsDue sequence message machine.old
        → Exchanges sequence message (listed (λ replies. replies.items) result) (L.traffic link.old)
        (L.traffic link.new) }
    ensures left { Leaves (IsTrouble (L.marks link.new) (L.faults link.new)) (listed (λ replies. replies.items) result)
        machine.old machine.new }
    ensures ends { (L.marks link.new).ends ≡ (L.marks link.old).ends }
{
    if send_frame(link, machine.frame()) {
        return hear_all(alloc, machine, link);
    }
    machine.leave();
    Err(AdminRefusal::Unavailable)
}

// Hears the replies until the answer is whole.
fn hear_all<L: Link>(
    alloc: Global,
    machine: &mut AdminMachine,
    link: &mut L,
) -> Result<Vec<Message>, AdminRefusal>
    requires { (exchange : exchange_type.Exchange) × (machine.old.stage ≡ stage_is.Waiting exchange (unheard Replies))
        × (exchange.rows ≡ 0) }
    ensures came { (exchange : exchange_type.Exchange) → machine.old.stage ≡ stage_is.Waiting exchange (unheard Replies)
        → Answers exchange.wanted exchange.sequence (listed (λ replies. replies.items) result)
        (L.traffic link.old) (L.traffic link.new) }
    ensures left { Leaves (IsTrouble (L.marks link.new) (L.faults link.new)) (listed (λ replies. replies.items) result)
        machine.old machine.new }
    ensures ends { (L.marks link.new).ends ≡ (L.marks link.old).ends }
{
    let mut replies = Vec::new(alloc);
    'replies: loop {
        match hear(machine, link) {
            Step::Row(message) => match put(&mut replies, message) {
                Ok(()) => {}
                Err(error) => {
                    machine.leave();
                    return Err(AdminRefusal::Memory(error));
                }
            },
            Step::Reply(message) => match put(&mut replies, message) {
                Ok(()) => return Ok(replies),
                Err(error) => {
                    machine.leave();
                    return Err(AdminRefusal::Memory(error));
                }
            },
            Step::Over(fault) => return Err(refusal_of(fault)),
            _ => unreachable!(),
        }
    }
}

// A value of any type behind the others: a message is handed on here, and not gone through variant by variant.
fn put<T: Drop>(list: &mut Vec<T>, value: T) -> Result<(), AllocError>
    ensures { OnOk result (list.new.items ≡ list.old.items ++ value ∷ []) }
{
    match list.push(value) {
        Ok(()) => Ok(()),
        Err(failed) => Err(AllocError::from(failed)),
    }
}

// Has the machine hear the next reply.
fn hear<L: Link>(machine: &mut AdminMachine, link: &mut L) -> Step
    requires { (exchange : exchange_type.Exchange) × (machine.old.stage ≡ stage_is.Waiting exchange (unheard Replies)) }
    ensures came { (exchange : exchange_type.Exchange) → machine.old.stage ≡ stage_is.Waiting exchange (unheard Replies)
        → Hears (λ result. Receives Replies result (L.traffic link.old) (L.traffic link.new))
        (IsTrouble (L.marks link.new) (L.faults link.new)) exchange result machine.old machine.new }
    ensures ends { (L.marks link.new).ends ≡ (L.marks link.old).ends }
{
    let mut room = [0u8; MOST_PIECE];
    'pieces: loop {
        let want = machine.wanted().min(MOST_PIECE);
        match take_piece(machine, link, &mut room[..want]) {
            Step::Wait => {}
            Step::Row(message) => return Step::Row(message),
            Step::Reply(message) => return Step::Reply(message),
            Step::Over(fault) => return Step::Over(fault),
            _ => unreachable!(),
        }
    }
}

// Takes the next bytes of the reply, as many as there are and no more than the room.
fn take_piece<L: Link>(machine: &mut AdminMachine, link: &mut L, room: &mut [u8]) -> Step
    requires some { 0 < length room.old }
    requires wanted { length room.old ≤ wanted_at machine.old.stage }
    ensures taken { (exchange : exchange_type.Exchange) (ear : Listening)
        → machine.old.stage ≡ stage_is.Waiting exchange ear → IsOpen ear.side ear.bytes
        → Takes (L.traffic link.old) (L.traffic link.new) (IsTrouble (L.marks link.new) (L.faults link.new))
        exchange ear result machine.old machine.new }
    ensures ends { (L.marks link.new).ends ≡ (L.marks link.old).ends }
{
    let count = receive_some(link, room);
    if count == 0 {
        return machine.down();
    }
    machine.came(&room[..count])
}
