// Bytes are taken from a link, and the machine hears them.
ghost use Rattle.std.specs.Prelude.{◌<◌, ◌≤◌, length};
ghost use Rattle.client_core.specs.Agent.{wanted_at};
ghost use Rattle.agent_runs.specs.LinkSeen.{link_seen};
ghost use Rattle.agent_runs.specs.parts.Hearing.{IsReady, Takes};

use client_core::{AgentMachine, Fault, Step};
use desk_ports::Failed;
use link_ports::Link;
use wire_messages::Message;

/// How many bytes are received at once, at most.
pub(crate) const MOST_PIECE: usize = 4096;

/// What became of the next bytes.
#[derive(Drop)]
pub(crate) enum Piece {
    /// The message is not whole with them.
    More,
    /// They end the message.
    Whole(Message),
    /// They are no message, or one that has no place there; or no memory was found to read them.
    Over(Fault),
    /// None came: the input has ended.
    Ended,
    /// A call of the link failed.
    Lost,
}

/// Takes the next bytes of a message from the link, as many as there are and no more than the room, and has the machine
/// hear them. It may wait.
pub(crate) fn take_piece<L: Link>(
    machine: &mut AgentMachine,
    link: &mut L,
    room: &mut [u8],
) -> Piece
    requires ready { IsReady machine.old.stage }
    requires some { 0 < length room.old }
    requires wanted { length room.old ≤ wanted_at machine.old.stage }
    ensures { Takes result machine.old machine.new (link_seen L.Link link.old)
        (link_seen L.Link link.new) }
{
    match link.receive(room) {
        Ok(0) => Piece::Ended,
        Ok(count) => match machine.came(&room[..count]) {
            Step::Wait => Piece::More,
            Step::Reply(message) => Piece::Whole(message),
            Step::Over(fault) => Piece::Over(fault),
            _ => unreachable!(),
        },
        Err(Failed) => Piece::Lost,
    }
}
