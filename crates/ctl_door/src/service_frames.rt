// The frames of what a service tells of itself, as they come.
ghost use Rattle.std.specs.Prelude.{IfOk, ◌≡◌};
ghost use Rattle.ctl_door.specs.Service.{Says, Tells};

use crate::frames::{SEQUENCE, push, refusal_in};
use crate::refusals::{DoorRefusal, of_broken};
use client_connection::{ReplyFault, read_frame};
use cynara_keys::Kind;
use link_ports::Link;
use std::alloc::Global;
use wire_messages::{Feeder, Framed, Heard, Message};

/// The most kinds that are told: so many there are.
const MOST_KINDS: usize = 65_536;

/// What a service tells of itself.
#[derive(Debug, Drop)]
pub struct ServiceSeen {
    /// The kinds that have an agent, in the order in which they were told.
    pub kinds: Vec<Kind>,
    /// How many workers serve clients.
    pub workers: u32,
    /// How many of them serve one now.
    pub served: u32,
}

// What a frame says.
#[derive(Drop)]
pub(crate) enum Said {
    Agent(Kind),
    End { workers: u32, served: u32 },
    Refused(DoorRefusal),
}

/// Reads the reply to `ReadService`, which was sent over the link. It may wait.
pub(crate) fn read_service<L: Link>(alloc: Global, link: &mut L) -> Result<ServiceSeen, DoorRefusal>
    ensures told { IfOk result (λ seen. Tells seen (L.traffic link.old) (L.traffic link.new)) }
    ensures ends { (L.marks link.new).ends ≡ (L.marks link.old).ends }
{
    let mut feeder = Feeder::new(alloc, Heard::Replies);
    let mut kinds = Vec::new(alloc);
    'kinds: while kinds.len() < MOST_KINDS {
        let framed = match read_frame(link, &mut feeder) {
            Ok(framed) => framed,
            Err(broken) => return Err(of_broken(broken)),
        };
        match said_by(framed) {
            Said::Agent(kind) => push(&mut kinds, kind)?,
            Said::End { workers, served } => {
                return Ok(ServiceSeen {
                    kinds,
                    workers,
                    served,
                });
            }
            Said::Refused(refusal) => return Err(refusal),
        }
    }
    Err(DoorRefusal::NoState)
}

// What the frame says of the service.
// proof: handed on by value, so that it is not gone through variant by variant here.
fn said_by(framed: Framed) -> Said
    ensures { Says framed result }
{
    let said = said_in(&framed);
    drop(framed);
    said
}

fn said_in(framed: &Framed) -> Said
    ensures { Says framed.now result }
{
    if framed.sequence != SEQUENCE {
        return Said::Refused(DoorRefusal::BadReply(ReplyFault::Sequence {
            sent: SEQUENCE,
            got: framed.sequence,
        }));
    }
    match &framed.message {
        Message::AgentHere { kind } => Said::Agent(*kind),
        Message::ServiceEnd { workers, served } => Said::End {
            workers: *workers,
            served: *served,
        },
        other => Said::Refused(refusal_in(other)),
    }
}
