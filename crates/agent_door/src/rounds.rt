// One question after the other, until it is answered or withdrawn.
ghost use Rattle.std.specs.Prelude.{◌≡◌, ◌<◌, ◌≤◌, [], ◌∷◌, Bool, false};
ghost use Rattle.std.specs.Prelude.{not, IsTrue, Some, None, length, MatchResult, OnOk, Result};
ghost use Rattle.std.specs.List.{flat_map};
ghost use Rattle.cynara_keys.specs.PolicyResult.{is_agent};
ghost use Rattle.agent_table.specs.declared.table.Asked as asked_type;
ghost use Rattle.agent_table.specs.declared.refusals.AnswerRefusal as refusal_type;
ghost use Rattle.wire_reading.specs.Frame.{spelling};
ghost use Rattle.wire_fields.specs.declared.operations.Heard.TheVariants.{AtAgent};
ghost use Rattle.door_frames.specs.Carried.{Carried};
ghost use Rattle.door_frames.specs.Hearing.{IsSound};
ghost use Rattle.door_frames.specs.Ending.{EndsSending};
ghost use Rattle.agent_door.specs.Frame.{question_frame, unknown_frame, withdrawn_frame};
ghost use Rattle.agent_door.specs.Round.{told_of, told_at};
ghost use Rattle.agent_door.specs.Serving.{agent_side};
ghost use Rattle.agent_door.specs.parts.Talk.{Goes, Ends, HandsIn, LooksIn, TakesTurn, waiting_since};

use crate::agent_halls::AgentHall;
use crate::hearing::{HeardAnswer, LinkFeeder};
use crate::messages::Registration;
use crate::sending::send;
use agent_table::Asked;
use cynara_keys::{Kind, PolicyResult};
use desk_ports::Bytes;
use door_frames::Ended;
use link_ports::Link;
use server_hall::NextRefusal;
use wire_messages::Message;

/// How many turns a question may be open, each a tenth of a second at most: an agent that has not answered in this
/// time, a minute, is treated as one that left.
pub const MOST_TURNS: u32 = 600;

/// Gives the agent its next question, and waits until that is answered or withdrawn. An agent that left, and one that
/// does not answer in time, ends its connection. It may wait.
pub(crate) fn round<L: Link, A: AgentHall<L>>(
    hall: &mut A,
    link: &mut L,
    feeder: &mut LinkFeeder<L>,
    room: &mut [u8],
    frame: &mut Bytes,
    registration: Registration,
) -> Result<(), Ended>
    requires agent { IsTrue (is_agent registration.kind.0) }
    requires some { 0 < length room.old }
    requires side { feeder.old.heard ≡ AtAgent }
    requires sound { IsSound feeder.old }
    ensures side { OnOk result (feeder.new.heard ≡ AtAgent) }
    ensures sound { OnOk result (IsSound feeder.new) }
    ensures round { MatchResult result
        (λ _. Goes registration
        (agent_side (A.tally hall.old) (A.calls hall.old) (L.traffic link.old) (L.marks link.old) (L.faults link.old))
        feeder.old None
        (agent_side (A.tally hall.new) (A.calls hall.new) (L.traffic link.new) (L.marks link.new) (L.faults link.new))
        feeder.new None)
        (Ends registration
        (agent_side (A.tally hall.old) (A.calls hall.old) (L.traffic link.old) (L.marks link.old) (L.faults link.old))
        feeder.old None
        (agent_side (A.tally hall.new) (A.calls hall.new) (L.traffic link.new) (L.marks link.new)
        (L.faults link.new))) }
{
    let kind = registration.kind;
    let asked = match hall.next(kind, link) {
        Ok(asked) => asked,
        Err(NextRefusal::Stopped) => return Err(Ended::Stopped),
        Err(NextRefusal::Left) => return Err(Ended::Closed),
        Err(NextRefusal::Memory(_)) => return Err(Ended::Memory),
    };
    let number = asked.number;
    if let Err(ended) = send_question(link, frame, kind, asked) {
        return Err(ended);
    }
    match take_turns(hall, link, feeder, room, frame, registration, number) {
        Ok(()) => Ok(()),
        Err(ended) => Err(ended),
    }
}

// Sends a question, with the low 16 bits of its number as the frame's sequence number.
fn send_question<L: Link>(
    link: &mut L,
    frame: &mut Bytes,
    kind: Kind,
    asked: Asked,
) -> Result<(), Ended>
    requires { IsTrue (is_agent kind.0) }
    ensures sent { MatchResult result
        (λ _. Carried (L.traffic link.old) (L.traffic link.new) [] (spelling (question_frame kind asked))
        × (L.faults link.new ≡ L.faults link.old))
        (λ ended. EndsSending ended (L.faults link.old) (L.faults link.new)
        × Carried (L.traffic link.old) (L.traffic link.new) [] []) }
    ensures marks { L.marks link.new ≡ L.marks link.old }
{
    let Asked {
        number,
        question,
        metadata,
    } = asked;
    let Ok(result) = PolicyResult::of(kind, metadata) else {
        unreachable!();
    };
    let sequence = (number % 0x1_0000) as u16;
    let message = Message::AgentQuestion {
        number,
        question,
        result,
    };
    match send(link, frame, sequence, message) {
        Ok(()) => Ok(()),
        Err(ended) => Err(ended),
    }
}

// Takes turns until the question of this number is answered or withdrawn.
fn take_turns<L: Link, A: AgentHall<L>>(
    hall: &mut A,
    link: &mut L,
    feeder: &mut LinkFeeder<L>,
    room: &mut [u8],
    frame: &mut Bytes,
    registration: Registration,
    number: u32,
) -> Result<(), Ended>
    requires agent { IsTrue (is_agent registration.kind.0) }
    requires some { 0 < length room.old }
    requires side { feeder.old.heard ≡ AtAgent }
    requires sound { IsSound feeder.old }
    ensures side { OnOk result (feeder.new.heard ≡ AtAgent) }
    ensures sound { OnOk result (IsSound feeder.new) }
    ensures closed { (asked : asked_type.Asked) → asked.number ≡ number → MatchResult result
        (λ _. Goes registration
        (agent_side (A.tally hall.old) (A.calls hall.old) (L.traffic link.old) (L.marks link.old) (L.faults link.old))
        feeder.old (Some (waiting_since asked 0))
        (agent_side (A.tally hall.new) (A.calls hall.new) (L.traffic link.new) (L.marks link.new) (L.faults link.new))
        feeder.new None)
        (Ends registration
        (agent_side (A.tally hall.old) (A.calls hall.old) (L.traffic link.old) (L.marks link.old) (L.faults link.old))
        feeder.old (Some (waiting_since asked 0))
        (agent_side (A.tally hall.new) (A.calls hall.new) (L.traffic link.new) (L.marks link.new)
        (L.faults link.new))) }
{
    for turn in 0..MOST_TURNS {
        match take_turn(hall, link, feeder, room, frame, registration, number) {
            Ok(true) => return Ok(()),
            Ok(false) => {}
            Err(ended) => return Err(ended),
        }
    }
    Err(Ended::Closed)
}

// Hands in the next answer, if one comes in time, and else looks whether the question of this number is open still.
// Whether its round is closed.
fn take_turn<L: Link, A: AgentHall<L>>(
    hall: &mut A,
    link: &mut L,
    feeder: &mut LinkFeeder<L>,
    room: &mut [u8],
    frame: &mut Bytes,
    registration: Registration,
    number: u32,
) -> Result<bool, Ended>
    requires agent { IsTrue (is_agent registration.kind.0) }
    requires some { 0 < length room.old }
    requires side { feeder.old.heard ≡ AtAgent }
    requires sound { IsSound feeder.old }
    ensures side { OnOk result (feeder.new.heard ≡ AtAgent) }
    ensures sound { OnOk result (IsSound feeder.new) }
    ensures turn { TakesTurn registration number result
        (agent_side (A.tally hall.old) (A.calls hall.old) (L.traffic link.old) (L.marks link.old) (L.faults link.old))
        feeder.old
        (agent_side (A.tally hall.new) (A.calls hall.new) (L.traffic link.new) (L.marks link.new) (L.faults link.new))
        feeder.new }
{
    match feeder.answer_in_time(link, room) {
        Ok(Some(heard)) => {
            let kind = registration.kind;
            let given = heard.given();
            if let Err(ended) = hand_in(hall, link, frame, kind, heard) {
                return Err(ended);
            }
            return Ok(given.number == number);
        }
        Ok(None) => match look(hall, link, frame, number) {
            Ok(is_closed) => return Ok(is_closed),
            Err(ended) => return Err(ended),
        },
        Err(ended) => return Err(ended),
    }
}

// Looks whether the question of the number is open still, and tells the agent where it is not. Whether it told so.
fn look<L: Link, A: AgentHall<L>>(
    hall: &mut A,
    link: &mut L,
    frame: &mut Bytes,
    number: u32,
) -> Result<bool, Ended>
    ensures looked { (is_open : Bool)
        × LooksIn number is_open (A.tally hall.old) (A.calls hall.old) (A.tally hall.new) (A.calls hall.new)
        × MatchResult result
        (λ is_closed. (is_closed ≡ not is_open)
        × Carried (L.traffic link.old) (L.traffic link.new) [] (flat_map spelling (told_at number is_open))
        × (L.faults link.new ≡ L.faults link.old))
        (λ ended. (is_open ≡ false)
        × EndsSending ended (L.faults link.old) (L.faults link.new)
        × Carried (L.traffic link.old) (L.traffic link.new) [] []) }
    ensures marks { L.marks link.new ≡ L.marks link.old }
{
    if hall.is_open(number) {
        return Ok(false);
    }
    let sequence = (number % 0x1_0000) as u16;
    match send(link, frame, sequence, Message::AgentWithdrawn { number }) {
        Ok(()) => Ok(true),
        Err(ended) => Err(ended),
    }
}

// Hands to the hall an answer that was heard. One that the hall refuses is told so.
fn hand_in<L: Link, A: AgentHall<L>>(
    hall: &mut A,
    link: &mut L,
    frame: &mut Bytes,
    kind: Kind,
    heard: HeardAnswer<L>,
) -> Result<(), Ended>
    requires agent { IsTrue (is_agent kind.0) }
    ensures handed { (outcome : Result (Unit {0}) refusal_type.AnswerRefusal)
        × HandsIn kind heard outcome (A.tally hall.old) (A.calls hall.old) (A.tally hall.new) (A.calls hall.new)
        × MatchResult result
        (λ _. Carried (L.traffic link.old) (L.traffic link.new) [] (flat_map spelling (told_of outcome heard))
        × (L.faults link.new ≡ L.faults link.old))
        (λ ended. (told_of outcome heard ≡ unknown_frame heard ∷ [])
        × EndsSending ended (L.faults link.old) (L.faults link.new)
        × Carried (L.traffic link.old) (L.traffic link.new) [] []) }
    ensures marks { L.marks link.new ≡ L.marks link.old }
{
    let given = heard.given();
    match hall.answer(kind, heard) {
        Ok(()) => Ok(()),
        Err(_) => {
            let number = given.number;
            let message = Message::UnknownNumber { number };
            match send(link, frame, given.sequence, message) {
                Ok(()) => Ok(()),
                Err(ended) => Err(ended),
            }
        }
    }
}
