// A command.
ghost use Rattle.std.specs.Prelude.{◌≡◌, Ok, IfOk};
ghost use Rattle.line_answers.specs.Answers.{refusal_text};
ghost use Rattle.wire_messages.specs.Commands as carried;
ghost use Rattle.ctl_door.specs.Replies.{AsksIfRoom, Becomes, BecomesBy, TellsRefusal, TellsDamage};

use crate::asking::replies_to;
use crate::refusals::{DoorRefusal, damaged};
use desk_ports::Bytes;
use desk_state::{Command, Refusal};
use line_answers::{LineAnswer, RuleBroken, print};
use link_ports::Dial;
use std::alloc::{AllocError, Global};
use wire_messages::{Message, message_of};

/// What became of a command.
#[derive(Drop)]
pub enum Obeyed {
    /// It is accepted, at this commit.
    Done { commit: u64 },
    /// It is refused, with this answer.
    Refused { answer: Bytes },
}

/// Sends the command to the service, once, and tells what became of it by the reply to this very command. `Unavailable`
/// where nobody knows whether it was accepted; `StoreFault` and `StoreDamaged` where the service tells that of its
/// disk; `Refused` where it refuses such commands, or none came back of what becomes of one. The link is given back. It
/// may wait.
pub fn obey<N: Dial>(alloc: Global, command: &Command, dial: &mut N) -> Result<Obeyed, DoorRefusal>
    ensures { AsksIfRoom N.Link.faults N.Link.marks N.Link.traffic N.faults N.dials N.given_back
        (carried.message_of command.now) Becomes result dial.old dial.new }
{
    let message = match message_of(command) {
        Ok(message) => message,
        Err(error) => return Err(DoorRefusal::Memory(error)),
    };
    let replies = replies_to(alloc, &message, dial);
    drop(message);
    match replies {
        Ok(replies) => become_of(alloc, replies),
        Err(refusal) => Err(refusal),
    }
}

fn become_of(alloc: Global, replies: Vec<Message>) -> Result<Obeyed, DoorRefusal>
    ensures { BecomesBy replies.items result }
{
    let done = told_by(alloc, &replies);
    drop(replies);
    done
}

// What became of the command, by the replies.
fn told_by(alloc: Global, replies: &[Message]) -> Result<Obeyed, DoorRefusal>
    ensures { BecomesBy replies.now result }
{
    match replies.first() {
        Some(Message::Done { commit, .. }) => Ok(Obeyed::Done { commit: *commit }),
        Some(Message::Refused { refusal }) => refused(alloc, refusal),
        Some(Message::StoreFault) => Err(DoorRefusal::StoreFault),
        Some(Message::StoreDamaged { file, line }) => Err(damaged(file, *line)),
        _ => Err(DoorRefusal::Refused),
    }
}

fn refused(alloc: Global, refusal: &Refusal) -> Result<Obeyed, DoorRefusal>
    ensures { TellsRefusal refusal.now result }
{
    match answer_to(alloc, refusal) {
        Ok(answer) => Ok(Obeyed::Refused { answer }),
        Err(error) => Err(DoorRefusal::Memory(error)),
    }
}

// The answer of a refused command.
fn answer_to(alloc: Global, refusal: &Refusal) -> Result<Bytes, AllocError>
    ensures { IfOk result (λ answer. answer ≡ refusal_text refusal.now) }
{
    let broken = RuleBroken::of(refusal)?;
    let mut answer = Bytes::new(alloc);
    print(&LineAnswer::Refused(broken), &mut answer)?;
    Ok(answer)
}
