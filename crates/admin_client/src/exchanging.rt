// A message is sent, over the link that is there or over one that is dialled.
ghost use Rattle.std.specs.Prelude.{◌≡◌, ℕ, Some, None};
ghost use Rattle.std.specs.Option.{ForSome};
ghost use Rattle.wire_fields.specs.declared.messages.Message as message_type;
ghost use Rattle.admin_client.specs.Sending.{Sends, listed};
ghost use Rattle.admin_client.specs.parts.States.{IsAlone, IsAtRest, IsLinked, IsDialling, IsDue, seen};
ghost use Rattle.admin_client.specs.parts.Talking.{TalksOver};

use crate::AdminRefusal;
use crate::beginning::{Begun, begin};
use crate::talking::talk;
use client_core::{AdminMachine, Step};
use desk_ports::PortFault;
use link_ports::{Dial, DoorKind};
use std::alloc::Global;
use wire_messages::Message;

/// The answer to a message, and the link that is left, if one is.
#[derive(Drop)]
pub(crate) struct Ended<L: Drop> {
    pub link: Option<L>,
    pub answer: Result<Vec<Message>, AdminRefusal>,
}

/// Sends a message, over this link, if one is there. It may wait.
pub(crate) fn send<N: Dial>(
    alloc: Global,
    machine: &mut AdminMachine,
    dial: &mut N,
    link: Option<N::Link>,
    message: &Message,
) -> Ended<N::Link>
    requires rests { IsAtRest link machine.old }
    requires unshared { ForSome link (λ link. (N.Link.marks link).ends ≡ 0) }
    ensures sent { Sends N.Link.faults N.Link.marks N.Link.traffic N.faults N.dials N.given_back message.now
        (listed (λ replies. replies.items) result.answer)
        (seen dial.old link machine.old) (seen dial.new result.link machine.new) }
    ensures rests { IsAtRest result.link machine.new }
    ensures unshared { ForSome result.link (λ link. (N.Link.marks link).ends ≡ 0) }
{
    match link {
        Some(link) => send_over(alloc, machine, dial, link, message),
        None => send_anew(alloc, machine, dial, message),
    }
}

// The same where a link is there.
fn send_over<N: Dial>(
    alloc: Global,
    machine: &mut AdminMachine,
    dial: &mut N,
    link: N::Link,
    message: &Message,
) -> Ended<N::Link>
    requires linked { IsLinked machine.old }
    requires unshared { (N.Link.marks link).ends ≡ 0 }
    ensures sent { Sends N.Link.faults N.Link.marks N.Link.traffic N.faults N.dials N.given_back message.now
        (listed (λ replies. replies.items) result.answer)
        (seen dial.old (Some link) machine.old) (seen dial.new result.link machine.new) }
    ensures rests { IsAtRest result.link machine.new }
    ensures unshared { ForSome result.link (λ link. (N.Link.marks link).ends ≡ 0) }
{
    match begin(machine, message) {
        Begun::Send => talk_over(alloc, machine, dial, link),
        Begun::NoRoom(error) => {
            dial.give_back(link);
            Ended {
                link: None,
                answer: Err(AdminRefusal::Memory(error)),
            }
        }
        Begun::TooLong(length) => Ended {
            link: Some(link),
            answer: Err(AdminRefusal::TooLong(length)),
        },
        Begun::Dial => unreachable!(),
    }
}

// The same where none is there.
fn send_anew<N: Dial>(
    alloc: Global,
    machine: &mut AdminMachine,
    dial: &mut N,
    message: &Message,
) -> Ended<N::Link>
    requires { IsAlone machine.old }
    ensures sent { Sends N.Link.faults N.Link.marks N.Link.traffic N.faults N.dials N.given_back message.now
        (listed (λ replies. replies.items) result.answer)
        (seen dial.old None machine.old) (seen dial.new result.link machine.new) }
    ensures rests { IsAtRest result.link machine.new }
    ensures unshared { ForSome result.link (λ link. (N.Link.marks link).ends ≡ 0) }
{
    match begin(machine, message) {
        Begun::Dial => talk_anew(alloc, machine, dial),
        Begun::NoRoom(error) => Ended {
            link: None,
            answer: Err(AdminRefusal::Memory(error)),
        },
        Begun::TooLong(length) => Ended {
            link: None,
            answer: Err(AdminRefusal::TooLong(length)),
        },
        Begun::Send => unreachable!(),
    }
}

// The machine has the message, and the service is dialled.
fn talk_anew<N: Dial>(alloc: Global, machine: &mut AdminMachine, dial: &mut N) -> Ended<N::Link>
    requires { (message : message_type.Message) × IsDialling message machine.old }
    ensures sent { (message : message_type.Message) → IsDialling message machine.old
        → Sends N.Link.faults N.Link.marks N.Link.traffic N.faults N.dials N.given_back message
        (listed (λ replies. replies.items) result.answer)
        (seen dial.old None machine.old) (seen dial.new result.link machine.new) }
    ensures rests { IsAtRest result.link machine.new }
    ensures unshared { ForSome result.link (λ link. (N.Link.marks link).ends ≡ 0) }
{
    match dial.dial(DoorKind::Admin) {
        Ok(link) => match machine.dialled() {
            Step::Send => talk_over(alloc, machine, dial, link),
            _ => unreachable!(),
        },
        Err(PortFault::Failed) => {
            machine.leave();
            Ended {
                link: None,
                answer: Err(AdminRefusal::Unavailable),
            }
        }
        Err(PortFault::Memory(error)) => {
            machine.leave();
            Ended {
                link: None,
                answer: Err(AdminRefusal::Memory(error)),
            }
        }
    }
}

// The frame goes out over this link, which is given back unless the answer is whole.
fn talk_over<N: Dial>(
    alloc: Global,
    machine: &mut AdminMachine,
    dial: &mut N,
    link: N::Link,
) -> Ended<N::Link>
    requires due { (message : message_type.Message) × (sequence : ℕ) × IsDue sequence message machine.old }
    requires unshared { (N.Link.marks link).ends ≡ 0 }
    ensures talked { (message : message_type.Message) (sequence : ℕ) → IsDue sequence message machine.old
        → TalksOver N.Link.faults N.Link.marks N.Link.traffic N.faults N.dials N.given_back sequence message
        (listed (λ replies. replies.items) result.answer) link dial.old dial.new result.link }
    ensures sequence { machine.new.sequence ≡ machine.old.sequence }
    ensures rests { IsAtRest result.link machine.new }
    ensures unshared { ForSome result.link (λ link. (N.Link.marks link).ends ≡ 0) }
{
    let mut link = link;
    match talk(alloc, machine, &mut link) {
        Ok(replies) => Ended {
            link: Some(link),
            answer: Ok(replies),
        },
        Err(refusal) => {
            dial.give_back(link);
            Ended {
                link: None,
                answer: Err(refusal),
            }
        }
    }
}
