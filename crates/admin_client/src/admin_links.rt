ghost use Rattle.std.specs.Prelude.{◌≡◌, None};
ghost use Rattle.admin_client.specs.Sending.{with_dial, Sends, listed};
ghost use Rattle.client_connection.specs.Giving.{GivesBackAny};

use crate::AdminRefusal;
use crate::exchanging::send;
use client_core::AdminMachine;
use link_ports::Dial;
use std::alloc::Global;
use std::marker::Model;
use wire_messages::Message;

/// What an administrator's client keeps between its messages: its link, if there is one, and the number of the next
/// frame. The dialler is lent to each call, always the same one.
#[derive(Drop)]
pub struct AdminLink<N: Dial> {
    alloc: Global,
    link: Option<N::Link>,
    machine: AdminMachine,
}

impl<N: Dial> Model for AdminLink<N> {
    ghost use Rattle.std.specs.Prelude.{◌≡◌};
    ghost use Rattle.std.specs.Option.{ForSome};
    ghost use Rattle.admin_client.specs.Sending.{Kept};
    ghost use Rattle.admin_client.specs.parts.States.{IsAtRest};

    ghost Value = { Kept N.Link };

    ghost view = { λ kept. record { link = kept.link; sequence = kept.machine.sequence } };

    // No message is under way, and nobody but the service can hang up the link.
    ghost invariant = { λ kept. IsAtRest kept.link kept.machine
        × ForSome kept.link (λ link. (N.Link.marks link).ends ≡ 0) };
}

impl<N: Dial> AdminLink<N> {
    /// Without a link. Takes no memory.
    pub fn new(alloc: Global) -> AdminLink<N>
        ensures { result ≡ record { link = None; sequence = 0 } }
    {
        AdminLink {
            alloc,
            link: None,
            machine: AdminMachine::new(alloc),
        }
    }

    /// Sends a message, once, and gives what came back: the one reply, or the rows of a list and their end. Refuses
    /// `TooLong` with the length where the frame would be longer than 1,048,576, and nothing is sent then;
    /// `Unavailable` where the dial failed, or the link before the answer was whole; and `BadReply` where what came is
    /// no answer to the message. After `Unavailable` nothing is known of whether a command was accepted. It may wait.
    pub fn send(&mut self, dial: &mut N, message: &Message) -> Result<Vec<Message>, AdminRefusal>
        ensures { Sends N.Link.faults N.Link.marks N.Link.traffic N.faults N.dials N.given_back message.now
            (listed (λ replies. replies.items) result) (with_dial dial.old self.old) (with_dial dial.new self.new) }
    {
        let ended = send(
            self.alloc,
            &mut self.machine,
            dial,
            self.link.take(),
            message,
        );
        self.link = ended.link;
        ended.answer
    }

    /// Gives the link back, if there is one.
    pub fn leave(&mut self, dial: &mut N)
        ensures link { self.new.link ≡ None }
        ensures sequence { self.new.sequence ≡ self.old.sequence }
        ensures gives { GivesBackAny N.faults N.dials N.given_back N.Link.faults N.Link.marks
            self.old.link dial.old dial.new }
    {
        self.machine.leave();
        let Some(link) = self.link.take() else {
            return;
        };
        dial.give_back(link);
    }
}
