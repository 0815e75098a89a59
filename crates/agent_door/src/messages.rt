// What an agent says, and what is not known where it stands.
ghost use Rattle.std.specs.Prelude.{◌≡◌, IsTrue, MatchResult, MatchOption};
ghost use Rattle.cynara_keys.specs.PolicyResult.{is_agent};
ghost use Rattle.wire_reading.specs.Hearing.{IsHeard};
ghost use Rattle.wire_fields.specs.declared.operations.Heard.TheVariants.{AtAgent};
ghost use Rattle.wire_fields.specs.Operation.{number_of};
ghost use Rattle.wire_fields.specs.declared.refusals.WireRefusal.TheVariants.{BadOperation};
ghost use Rattle.door_frames.specs.declared.endings.Ended.TheVariants.{BadFrame};
ghost use Rattle.agent_door.specs.Frame.{register_frame, answer_frame, IsOutOfPlace, IsNoRegistration, IsNoAnswer};

use cynara_keys::Kind;
use door_frames::Ended;
use wire_messages::{Framed, Message, Operation, WireRefusal};

/// An agent says what kind it answers: the frame's sequence number, and the kind.
#[derive(Clone, Copy, Debug, PartialEq, Eq)]
pub(crate) struct Registration {
    pub sequence: u16,
    pub kind: Kind,
}

/// An agent answers a question: the frame's sequence number, the number of the question, and whether it is allowed.
#[derive(Clone, Copy, Debug, PartialEq, Eq)]
pub(crate) struct Answer {
    pub sequence: u16,
    pub number: u32,
    pub allowed: bool,
}

/// The registration that a frame is. An answer is out of place before it.
pub(crate) fn read_registration(framed: Framed) -> Result<Registration, Ended>
    requires { IsHeard AtAgent framed }
    ensures { MatchResult result
        (λ registration. (framed ≡ register_frame registration) × IsTrue (is_agent registration.kind.0))
        (IsOutOfPlace 0x21 framed) }
{
    let registration = registration_in(&framed);
    // proof: handed on by value, so that it is not gone through variant by variant here.
    drop(framed);
    match registration {
        Some(registration) => Ok(registration),
        None => Err(out_of_place(Operation::AgentAnswer)),
    }
}

/// The answer that a frame is. A registration is out of place behind the first.
pub(crate) fn read_answer(framed: Framed) -> Result<Answer, Ended>
    requires { IsHeard AtAgent framed }
    ensures { MatchResult result (λ answer. framed ≡ answer_frame answer) (IsOutOfPlace 0x20 framed) }
{
    let answer = answer_in(&framed);
    drop(framed);
    match answer {
        Some(answer) => Ok(answer),
        None => Err(out_of_place(Operation::Register)),
    }
}

fn registration_in(framed: &Framed) -> Option<Registration>
    ensures { MatchOption result (IsNoRegistration framed.now.message)
        (λ registration. framed.now ≡ register_frame registration) }
{
    match &framed.message {
        Message::Register { kind } => Some(Registration {
            sequence: framed.sequence,
            kind: *kind,
        }),
        _ => None,
    }
}

fn answer_in(framed: &Framed) -> Option<Answer>
    ensures { MatchOption result (IsNoAnswer framed.now.message) (λ answer. framed.now ≡ answer_frame answer) }
{
    match &framed.message {
        Message::AgentAnswer { number, allowed } => Some(Answer {
            sequence: framed.sequence,
            number: *number,
            allowed: *allowed,
        }),
        _ => None,
    }
}

// An operation that is not known where it stands.
fn out_of_place(operation: Operation) -> Ended
    ensures { result ≡ BadFrame (BadOperation (number_of operation)) }
{
    Ended::BadFrame(WireRefusal::BadOperation(operation.number()))
}
