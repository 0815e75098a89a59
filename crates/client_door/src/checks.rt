ghost use Rattle.std.specs.Prelude.{◌≡◌, ◌∷◌, [], MatchOption};
ghost use Rattle.wire_fields.specs.declared.operations.Heard.TheVariants.{AtClient};
ghost use Rattle.door_frames.specs.Hearing.{HandsOut};
ghost use Rattle.client_door.specs.Check.{framed_of, IsNoCheck};

use cynara_keys::Question;
use wire_messages::{Feeder, Framed, Message};

/// A check that came as a frame: the frame's sequence number, whether an agent may not be asked, and the question.
#[derive(Debug, Drop)]
pub struct Check {
    pub sequence: u16,
    pub simple: bool,
    pub question: Question,
}

/// Takes the next check that was heard, if one waits.
pub(crate) fn take_check(feeder: &mut Feeder) -> Option<Check>
    requires { feeder.old.heard ≡ AtClient }
    ensures taken { MatchOption result (feeder.new ≡ feeder.old)
        (λ check. HandsOut [] (framed_of check) feeder.old feeder.new) }
    ensures empty { MatchOption result (feeder.old.waiting ≡ []) (λ check. feeder.new.heard ≡ feeder.old.heard) }
    ensures first { MatchOption result (feeder.new ≡ feeder.old)
        (λ check. feeder.old.waiting ≡ framed_of check ∷ feeder.new.waiting) }
    ensures rest { feeder.new ≡ record feeder.old { waiting = feeder.new.waiting } }
{
    match feeder.take() {
        Some(framed) => check_of(framed),
        None => None,
    }
}

// The check that a frame is.
fn check_of(framed: Framed) -> Option<Check>
    ensures { MatchOption result (IsNoCheck framed.message) (λ check. framed ≡ framed_of check) }
{
    let Framed { sequence, message } = framed;
    match message {
        Message::Check { question } => Some(Check {
            sequence,
            simple: false,
            question,
        }),
        Message::SimpleCheck { question } => Some(Check {
            sequence,
            simple: true,
            question,
        }),
        _ => None,
    }
}
