// What an agent does with one message.
ghost use Rattle.std.specs.Prelude.{ℕ};
ghost use Rattle.run_endings.specs.Outside.{sink_seen};
ghost use Rattle.line_answers.specs.Answers.{answer_text};
ghost use Rattle.agent_runs.specs.LinkSeen.{link_seen};
ghost use Rattle.agent_runs.specs.AgentTalk.{line_for};
ghost use Rattle.agent_runs.specs.parts.Hearing.{IsPut};
ghost use Rattle.agent_runs.specs.parts.Turns.{WritesLine, Sends, Answers, Follows};

use client_core::{AgentMachine, Step};
use desk_ports::{Bytes, Failed, Sink, write_all};
use line_answers::{LineAnswer, print};
use link_ports::Link;
use run_endings::Ending;
use wire_messages::Message;

/// Follows a message that the machine gave: its line is written, if it has one, and then a question has this answer
/// sent. Nothing follows where a number is unknown or a question was withdrawn. Where the kind is taken the run is
/// done.
pub(crate) fn follow<L: Link, K: Sink>(
    machine: &mut AgentMachine,
    room: &mut Bytes,
    allowed: bool,
    message: &Message,
    link: &mut L,
    sink: &mut K,
) -> Result<(), Ending>
    ensures { (sequence : ℕ) → IsPut message.now sequence machine.old.stage
        → Follows allowed sequence message.now result machine.new (link_seen L.Link link.old)
        (link_seen L.Link link.new) (sink_seen K.taken K.faults sink.old)
        (sink_seen K.taken K.faults sink.new) }
{
    match write_of(room, message, sink) {
        Ok(()) => answer(machine, allowed, message, link),
        Err(ending) => Err(ending),
    }
}

// Sends this answer, where the message is a question.
fn answer<L: Link>(
    machine: &mut AgentMachine,
    allowed: bool,
    message: &Message,
    link: &mut L,
) -> Result<(), Ending>
    ensures { (sequence : ℕ) → IsPut message.now sequence machine.old.stage
        → Answers allowed sequence message.now result machine.new (link_seen L.Link link.old)
        (link_seen L.Link link.new) }
{
    match message {
        Message::AgentQuestion { number, .. } => {
            let step = machine.answer(*number, allowed);
            send(step, machine, link)
        }
        Message::KindTaken { .. } => Err(Ending::Done),
        _ => Ok(()),
    }
}

/// Sends the frame of the machine, where this is what it answered. Else no memory was found for the frame.
pub(crate) fn send<L: Link>(step: Step, machine: &AgentMachine, link: &mut L) -> Result<(), Ending>
    ensures { Sends step machine.now.frame result (link_seen L.Link link.old)
        (link_seen L.Link link.new) }
{
    match step {
        Step::Send => match link.send(machine.frame()) {
            Ok(()) => Ok(()),
            Err(Failed) => Err(Ending::Net),
        },
        _ => Err(Ending::Memory),
    }
}

// Writes the line of a message, if it has one.
fn write_of<K: Sink>(room: &mut Bytes, message: &Message, sink: &mut K) -> Result<(), Ending>
    ensures { WritesLine (line_for message.now) result (sink_seen K.taken K.faults sink.old)
        (sink_seen K.taken K.faults sink.new) }
{
    match message {
        Message::AgentQuestion {
            number,
            question,
            result,
        } => {
            let line = LineAnswer::AgentQuestion {
                number: *number,
                client: question.client(),
                user: question.user(),
                privilege: question.privilege(),
                kind: result.kind(),
                metadata: result.metadata().as_slice(),
            };
            write_line(room, &line, sink)
        }
        Message::KindTaken { kind } => {
            write_line(room, &LineAnswer::KindTaken { kind: *kind }, sink)
        }
        _ => Ok(()),
    }
}

// Prints a line into the room in place of what it held, and has the sink take it.
fn write_line<K: Sink>(room: &mut Bytes, line: &LineAnswer<'_>, sink: &mut K) -> Result<(), Ending>
    ensures { WritesLine (answer_text line.now) result (sink_seen K.taken K.faults sink.old)
        (sink_seen K.taken K.faults sink.new) }
{
    room.clear();
    match print(line, room) {
        Ok(()) => match write_all(sink, room.as_slice()) {
            Ok(()) => Ok(()),
            Err(Failed) => Err(Ending::Sink),
        },
        Err(_) => Err(Ending::Memory),
    }
}
