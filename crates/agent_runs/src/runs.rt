// `agent KIND allow` and `agent KIND deny`.
ghost use Rattle.std.specs.Prelude.{◌≡◌, ℕ, List};
ghost use Rattle.desk_ports.specs.Content.{Appended};
ghost use Rattle.desk_ports.specs.Faults.{next_count};
ghost use Rattle.run_endings.specs.Ending.{Unraised};
ghost use Rattle.run_endings.specs.Outside.{sink_seen};
ghost use Rattle.run_endings.specs.Saying.{Said, WritesAnswers};
ghost use Rattle.agent_runs.specs.LinkSeen.{link_seen, dial_seen};
ghost use Rattle.agent_runs.specs.AgentRun.{RunsAgent, DialCounts, CompletesAgent};
ghost use Rattle.agent_runs.specs.parts.Dialling.{ServesDialled};

use crate::agent_client;
use cynara_keys::Kind;
use desk_ports::{PortFault, Sink};
use link_ports::{Dial, DoorKind};
use run_endings::Ending;
use std::alloc::Global;
use std::sync::Wait;

/// Dials the door for agents, serves the link by `agent_client`, and gives it back. It may wait.
pub fn run_agent<R: Wait, N: Dial, K: Sink>(
    rt: &R,
    alloc: Global,
    kind: Kind,
    allowed: bool,
    dial: &mut N,
    sink: &mut K,
) -> Ending
    ensures run { (said : Said)
        × RunsAgent kind allowed said result
        (dial_seen N.Dial N.Link.Link dial.old)
        (dial_seen N.Dial N.Link.Link dial.new)
        × WritesAnswers result said (sink_seen K.taken K.faults sink.old) (sink_seen K.taken K.faults sink.new) }
    ensures dials { N.dials dial.new ≡ next_count (N.dials dial.old) }
    ensures count { DialCounts result (N.faults dial.old) (N.faults dial.new) }
    ensures completes { Unraised (K.faults sink.old) (K.faults sink.new)
        → (answers : List ℕ) × Appended (K.taken sink.old) answers (K.taken sink.new)
        × CompletesAgent result answers (N.faults dial.old) (N.faults dial.new) }
{
    match dial.dial(DoorKind::Agent) {
        Ok(link) => serve(rt, alloc, kind, allowed, link, dial, sink),
        Err(PortFault::Failed) => Ending::Net,
        Err(PortFault::Memory(_)) => Ending::Memory,
    }
}

// Serves a link, and gives it back.
fn serve<R: Wait, N: Dial, K: Sink>(
    rt: &R,
    alloc: Global,
    kind: Kind,
    allowed: bool,
    link: N::Link,
    dial: &mut N,
    sink: &mut K,
) -> Ending
    ensures serves { ServesDialled kind allowed result (link_seen N.Link.Link link)
        (dial_seen N.Dial N.Link.Link dial.old)
        (dial_seen N.Dial N.Link.Link dial.new)
        (sink_seen K.taken K.faults sink.old) (sink_seen K.taken K.faults sink.new) }
    ensures dials { N.dials dial.new ≡ N.dials dial.old }
{
    let mut link = link;
    let ending = agent_client(rt, alloc, kind, allowed, &mut link, sink);
    dial.give_back(link);
    ending
}
