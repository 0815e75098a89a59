// An agent over a link that was dialled.
ghost use Rattle.run_endings.specs.Outside.{sink_seen};
ghost use Rattle.agent_runs.specs.LinkSeen.{link_seen};
ghost use Rattle.agent_runs.specs.AgentTalk.{Served};

use crate::ends::{end_behind, end_of};
use crate::hearing::{MOST_PIECE, Piece, take_piece};
use crate::turns::{follow, send};
use client_core::AgentMachine;
use cynara_keys::Kind;
use desk_ports::{Bytes, Sink};
use link_ports::Link;
use run_endings::Ending;
use std::alloc::Global;
use std::sync::Wait;

/// Registers at the service as the agent of this kind, and gives each question the same answer, until the link ends or
/// the kind is found taken. The sink takes the line of a question before its answer is sent. The first message has to
/// say that the agent is registered or that the kind is taken, and neither may come later; that a number is unknown, or
/// that a question was withdrawn, is read, and nothing follows. It may wait, and its promise holds where it returns.
pub fn agent_client<R: Wait, L: Link, K: Sink>(
    rt: &R,
    alloc: Global,
    kind: Kind,
    allowed: bool,
    link: &mut L,
    sink: &mut K,
) -> Ending
    ensures { Served kind allowed result (link_seen L.Link link.old)
        (link_seen L.Link link.new) (sink_seen K.taken K.faults sink.old)
        (sink_seen K.taken K.faults sink.new) }
{
    let mut machine = AgentMachine::new(alloc, kind);
    let step = machine.dialled();
    if let Err(ending) = send(step, &machine, link) {
        return ending;
    }
    let mut line = Bytes::new(alloc);
    let mut room = [0u8; MOST_PIECE];
    // Whether a part of the next message is there.
    let mut begun = false;
    'pieces: for _ in rt.forever() {
        let want = machine.wanted().min(MOST_PIECE);
        match take_piece(&mut machine, link, &mut room[..want]) {
            Piece::More => begun = true,
            Piece::Whole(message) => {
                begun = false;
                let followed = follow(&mut machine, &mut line, allowed, &message, link, sink);
                // Handed on by value, it is not gone through variant by variant here.
                drop(message);
                if let Err(ending) = followed {
                    return ending;
                }
            }
            Piece::Over(fault) => return end_of(alloc, fault, sink),
            Piece::Ended => return end_behind(begun, sink),
            Piece::Lost => return Ending::Net,
        }
    }
    unreachable!()
}
