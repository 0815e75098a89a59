// What a check reads of the policies.
ghost use Rattle.std.specs.Prelude.{◌≡◌};
ghost use Rattle.bucket_eval.specs.Found.{answer_of};
ghost use Rattle.bucket_eval.specs.Lent.{outcome_lent};
ghost use Rattle.live_desk.specs.History.{GoesOn};
ghost use Rattle.client_door.specs.Reading.{Finds, Reads, ReadsAtLast, TellsNotResolved};
ghost use Rattle.desk_world.specs.Links.{reading_of};
ghost use Rattle.client_door.specs.declared.readings.Found.TheVariants.{Judged, Unresolved, Memory};

use crate::spelling::spell;
use crate::{Check, Keeps};
use bucket_eval::BorrowedAnswer;
use cynara_keys::{Kind, Metadata};
use desk_ports::Bytes;
use live_desk::{BorrowedVerdict, Naming, Seat};
use std::sync::Wait;
use wire_messages::{Message, encode_judged_into};

/// What was read for a check, and the buffer for its reply.
#[derive(Drop)]
pub(crate) struct Read {
    pub frame: Bytes,
    pub found: Found,
}

/// The same, and what is kept of the cause.
#[derive(Drop)]
pub(crate) struct KeptRead<K: Keeps> {
    pub frame: Bytes,
    pub found: Found,
    pub kept: K,
}

/// What was read for a check.
#[derive(Drop)]
pub(crate) enum Found {
    /// A verdict of the policies, whose reply the buffer holds: its commit, and whether it is ALLOW.
    Judged {
        commit: u64,
        allowed: bool,
    },
    /// An agent would decide, and none may be asked; the buffer holds the reply.
    Unresolved,
    /// An agent of the kind is to be asked.
    Due {
        commit: u64,
        kind: Kind,
        metadata: Metadata,
    },
    /// Want of memory.
    Memory,
}

/// Reads a check at the last state that the seat has then seen. It may wait.
pub(crate) fn read_check<R: Wait, J: Naming, K: Keeps>(
    rt: &R,
    seat: &mut Seat<J>,
    check: &Check,
    frame: Bytes,
) -> KeptRead<K>
    ensures same { seat.new ≡ record seat.old { seen = seat.new.seen } }
    ensures seen { GoesOn seat.old.seen seat.new.seen }
    ensures read { ReadsAtLast check.now seat.new result.frame result.found (K.tells result.kept) }
{
    let sequence = check.sequence;
    let simple = check.simple;
    seat.check_with(
        rt,
        &check.question.borrowed(),
        move |verdict: BorrowedVerdict<'_>| {
            read_and_keep(verdict.commit, &verdict.answer, sequence, simple, frame)
        },
    )
}

// What the answer of the policies of a commit is for a check, and what is kept of its cause.
fn read_and_keep<K: Keeps>(
    commit: u64,
    answer: &BorrowedAnswer<'_>,
    sequence: u16,
    simple: bool,
    frame: Bytes,
) -> KeptRead<K>
    ensures reads { Finds sequence (reading_of commit simple (outcome_lent answer.now)) result.frame result.found }
    ensures kept { K.tells result.kept (answer_of (outcome_lent answer.now)).cause }
{
    let Read { frame, found } = read_answer(commit, answer, sequence, simple, frame);
    KeptRead {
        frame,
        found,
        kept: K::of(answer),
    }
}

// What the answer of the policies of a commit is for a check.
fn read_answer(
    commit: u64,
    answer: &BorrowedAnswer<'_>,
    sequence: u16,
    simple: bool,
    frame: Bytes,
) -> Read
    ensures { Reads sequence simple commit (outcome_lent answer.now) result }
{
    let kind = answer.result.kind();
    let mut frame = frame;
    if !kind.is_agent() {
        return match encode_judged_into(&mut frame, sequence, commit, answer) {
            Ok(()) => judged(frame, commit, kind == Kind::ALLOW),
            Err(_) => out_of_memory(frame),
        };
    }
    if simple {
        return not_resolved(frame, sequence, commit, kind);
    }
    match answer.result.metadata().copy() {
        Ok(metadata) => Read {
            frame,
            found: Found::Due {
                commit,
                kind,
                metadata,
            },
        },
        Err(_) => out_of_memory(frame),
    }
}

// An agent would decide, and none may be asked.
fn not_resolved(frame: Bytes, sequence: u16, commit: u64, kind: Kind) -> Read
    ensures { TellsNotResolved sequence commit kind result.frame result.found }
{
    let mut frame = frame;
    match spell(&mut frame, sequence, Message::NotResolved { commit, kind }) {
        Ok(()) => unresolved(frame),
        Err(_) => out_of_memory(frame),
    }
}

fn judged(frame: Bytes, commit: u64, allowed: bool) -> Read
    ensures { result ≡ record { frame = frame; found = Judged commit allowed } }
{
    Read {
        frame,
        found: Found::Judged { commit, allowed },
    }
}

fn unresolved(frame: Bytes) -> Read
    ensures { result ≡ record { frame = frame; found = Unresolved } }
{
    Read {
        frame,
        found: Found::Unresolved,
    }
}

fn out_of_memory(frame: Bytes) -> Read
    ensures { result ≡ record { frame = frame; found = Memory } }
{
    Read {
        frame,
        found: Found::Memory,
    }
}
