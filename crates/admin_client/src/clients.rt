ghost use Rattle.std.specs.Prelude.{◌≡◌, None};
ghost use Rattle.admin_client.specs.Sending.{Sends, listed};

use crate::{AdminLink, AdminRefusal};
use link_ports::Dial;
use std::alloc::Global;
use std::marker::Model;
use wire_messages::Message;

/// A client at the door for administrators. It dials a link when it needs one, and keeps it.
#[derive(Drop)]
pub struct AdminClient<N: Dial> {
    dial: N,
    kept: AdminLink<N>,
}

impl<N: Dial> Model for AdminClient<N> {
    ghost use Rattle.admin_client.specs.Sending.{State, with_dial};

    ghost Value = { State N N.Link };

    ghost view = { λ client. with_dial client.dial client.kept };
}

impl<N: Dial> AdminClient<N> {
    /// A client without a link. Takes no memory.
    pub fn new(alloc: Global, dial: N) -> AdminClient<N>
        ensures { result ≡ record { dial = dial; link = None; sequence = 0 } }
    {
        AdminClient {
            dial,
            kept: AdminLink::new(alloc),
        }
    }

    /// Sends a message, once, and gives what came back: the one reply, or the rows of a list and their end. Refuses
    /// `TooLong` with the length where the frame would be longer than 1,048,576, and nothing is sent then;
    /// `Unavailable` where the dial failed, or the link before the answer was whole; and `BadReply` where what came is
    /// no answer to the message. After `Unavailable` nothing is known of whether a command was accepted. It may wait.
    pub fn send(&mut self, message: &Message) -> Result<Vec<Message>, AdminRefusal>
        ensures { Sends N.Link.faults N.Link.marks N.Link.traffic N.faults N.dials N.given_back message.now
            (listed (λ replies. replies.items) result) self.old self.new }
    {
        self.kept.send(&mut self.dial, message)
    }
}
