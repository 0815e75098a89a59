// The frames of a policy state, as they come.
ghost use Rattle.std.specs.Prelude.{◌≡◌, [], ◌∷◌, ◌++◌, IfOk, OnOk};
ghost use Rattle.ctl_door.specs.Told.{IsPart, Tells, TookState};

use crate::refusals::{DoorRefusal, damaged, of_broken};
use client_connection::{ReplyFault, read_frame};
use desk_ports::{Bytes, FileName};
use link_ports::Link;
use std::alloc::{AllocError, Global};
use wire_messages::{Feeder, Framed, Heard, Message};

/// The sequence number of the one frame that is sent over the link.
pub(crate) const SEQUENCE: u16 = 0;

/// The most parts of a state. A state of the greatest size has fewer.
const MOST_PARTS: usize = 1_048_576;

/// A part of a file, as it was told.
#[derive(Debug, Drop)]
pub(crate) struct Part {
    pub name: FileName,
    pub bytes: Bytes,
}

/// The parts of a state, as they were told, and its commit.
#[derive(Drop)]
pub(crate) struct Parts {
    pub parts: Vec<Part>,
    pub commit: u64,
}

// What a frame says.
#[derive(Drop)]
pub(crate) enum Told {
    Part(Part),
    End(u64),
    Refused(DoorRefusal),
}

/// Reads the reply to `ReadState`, which was sent over the link. It may wait.
pub(crate) fn read_parts<L: Link>(alloc: Global, link: &mut L) -> Result<Parts, DoorRefusal>
    ensures told { IfOk result
        (λ told. TookState told.parts.items told.commit (L.traffic link.old) (L.traffic link.new)) }
    ensures ends { (L.marks link.new).ends ≡ (L.marks link.old).ends }
{
    let mut feeder = Feeder::new(alloc, Heard::Replies);
    let mut parts = Vec::new(alloc);
    'parts: while parts.len() < MOST_PARTS {
        let framed = match read_frame(link, &mut feeder) {
            Ok(framed) => framed,
            Err(broken) => return Err(of_broken(broken)),
        };
        match told_by(framed) {
            Told::Part(part) => push(&mut parts, part)?,
            Told::End(commit) => return Ok(Parts { parts, commit }),
            Told::Refused(refusal) => return Err(refusal),
        }
    }
    Err(DoorRefusal::NoState)
}

/// Puts the value behind the list. A value of any type is handed on here, and not gone through variant by variant.
pub(crate) fn push<T: Drop>(list: &mut Vec<T>, value: T) -> Result<(), DoorRefusal>
    ensures { OnOk result (list.new.items ≡ list.old.items ++ value ∷ []) }
{
    match list.push(value) {
        Ok(()) => Ok(()),
        Err(failed) => Err(DoorRefusal::Memory(AllocError::from(failed))),
    }
}

// What the frame says of the state.
// proof: handed on by value, so that it is not gone through variant by variant here.
fn told_by(framed: Framed) -> Told
    ensures { Tells framed result }
{
    let told = told_in(&framed);
    drop(framed);
    told
}

fn told_in(framed: &Framed) -> Told
    ensures { Tells framed.now result }
{
    if framed.sequence != SEQUENCE {
        return Told::Refused(DoorRefusal::BadReply(ReplyFault::Sequence {
            sent: SEQUENCE,
            got: framed.sequence,
        }));
    }
    match &framed.message {
        Message::StateFile { name, bytes } => told_part(name, bytes),
        Message::StateEnd { commit } => Told::End(*commit),
        other => Told::Refused(refusal_in(other)),
    }
}

// A copy of the part that is told.
fn told_part(name: &FileName, bytes: &Bytes) -> Told
    ensures { IsPart name.now bytes.now result }
{
    let Ok(name) = name.copy() else {
        return Told::Refused(DoorRefusal::Memory(AllocError));
    };
    match bytes.copy() {
        Ok(bytes) => Told::Part(Part { name, bytes }),
        Err(error) => Told::Refused(DoorRefusal::Memory(error)),
    }
}

/// Why a message is no part of what was asked for.
pub(crate) fn refusal_in(message: &Message) -> DoorRefusal {
    match message {
        Message::StoreFault => DoorRefusal::StoreFault,
        Message::StoreDamaged { file, line } => damaged(file, *line),
        other => DoorRefusal::BadReply(ReplyFault::Operation(other.operation())),
    }
}
