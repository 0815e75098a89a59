// What the service tells of itself: the agents that are there, and the workers for clients.
ghost use Rattle.std.specs.Prelude.{◌≡◌, ◌++◌, ◌∷◌, [], map, MatchResult, IfOk};
ghost use Rattle.agent_table.specs.Table.{KindsRise};
ghost use Rattle.server_hall.specs.Service.{told_by};
ghost use Rattle.wire_fields.specs.declared.messages.Message.TheVariants.{ReadService, AgentHere};
ghost use Rattle.door_frames.specs.declared.endings.Ended.TheVariants.{Memory};
ghost use Rattle.admin_door.specs.Service.{service_replies, IsService, TellsService};

use crate::questions::with_one;
use cynara_keys::Kind;
use door_frames::Ended;
use server_hall::{Hall, ServiceView};
use std::alloc::Global;
use wire_messages::Message;

/// The kinds that have an agent, each in a reply of its own, and then how many workers for clients there are and how
/// many of them serve a connection. The hall is not changed.
pub(crate) fn service_replies<A: Hall>(alloc: Global, hall: &A) -> Result<Vec<Message>, Ended>
    ensures answered { MatchResult result (λ replies. IsService replies.items) (λ ended. ended ≡ Memory) }
    ensures told { IfOk result (λ replies. TellsService ReadService (A.told hall.now) replies.items) }
{
    match hall.service(alloc) {
        Ok(view) => view_replies(alloc, view),
        Err(_) => Err(Ended::Memory),
    }
}

// The replies that tell what the hall told.
fn view_replies(alloc: Global, view: ServiceView) -> Result<Vec<Message>, Ended>
    ensures { MatchResult result (λ replies. replies.items ≡ service_replies (told_by view)) (λ ended. ended ≡ Memory) }
{
    let workers = view.workers;
    let served = view.served;
    match agents_here(alloc, view.kinds) {
        Ok(replies) => with_one(replies, Message::ServiceEnd { workers, served }),
        Err(ended) => Err(ended),
    }
}

// A reply for each kind.
fn agents_here(alloc: Global, kinds: Vec<Kind>) -> Result<Vec<Message>, Ended>
    ensures { MatchResult result (λ replies. replies.items ≡ map AgentHere kinds.items) (λ ended. ended ≡ Memory) }
{
    let mut replies = Vec::new(alloc);
    for kind in kinds {
        match with_one(replies, Message::AgentHere { kind }) {
            Ok(more) => replies = more,
            Err(ended) => return Err(ended),
        }
    }
    Ok(replies)
}
