// What an agent says within a tenth of a second.
ghost use Rattle.std.specs.Prelude.{◌≡◌, ◌<◌, ◌≤◌, ℕ, List, [], None, IfOk, IfSome, length, MatchResult, OnOk};
ghost use Rattle.wire_reading.specs.Hearing.{IsHeard};
ghost use Rattle.wire_fields.specs.declared.operations.Heard.TheVariants.{AtAgent};
ghost use Rattle.door_frames.specs.Carried.{Carried};
ghost use Rattle.door_frames.specs.Hearing.{IsSound};
ghost use Rattle.door_frames.specs.Ending.{EndsReading};
ghost use Rattle.agent_door.specs.parts.Talk.{HearsFrame, HearsAnswer, EndsHearing};

use crate::messages::{Answer, read_answer};
use door_frames::{Ended, receive_more};
use link_ports::Link;
use wire_messages::{Feeder, Framed};

/// The next answer, where one is there or comes within a tenth of a second.
pub(crate) fn answer_in_time<L: Link>(
    link: &mut L,
    feeder: &mut Feeder,
    room: &mut [u8],
) -> Result<Option<Answer>, Ended>
    requires some { 0 < length room.old }
    requires side { feeder.old.heard ≡ AtAgent }
    requires sound { IsSound feeder.old }
    ensures side { OnOk result (feeder.new.heard ≡ AtAgent) }
    ensures sound { OnOk result (IsSound feeder.new) }
    ensures taken { MatchResult result
        (λ answer. (bytes : List ℕ)
        × Carried (L.traffic link.old) (L.traffic link.new) bytes []
        × HearsAnswer answer bytes feeder.old feeder.new)
        (EndsHearing feeder.old feeder.new (L.traffic link.old) (L.traffic link.new)
        (L.marks link.new) (L.faults link.old) (L.faults link.new)) }
    ensures faults { OnOk result (L.faults link.old ≤ L.faults link.new) }
    ensures ends { (L.marks link.new).ends ≡ (L.marks link.old).ends }
{
    match frame_in_time(link, feeder, room) {
        Ok(Some(framed)) => match read_answer(framed) {
            Ok(given) => Ok(Some(given)),
            Err(ended) => Err(ended),
        },
        Ok(None) => Ok(None),
        Err(ended) => Err(ended),
    }
}

// The next frame, where one is there or comes within a tenth of a second. Of a frame that comes in pieces one is
// received.
fn frame_in_time<L: Link>(
    link: &mut L,
    feeder: &mut Feeder,
    room: &mut [u8],
) -> Result<Option<Framed>, Ended>
    requires some { 0 < length room.old }
    requires sound { IsSound feeder.old }
    ensures taken { MatchResult result
        (λ framed. (bytes : List ℕ)
        × Carried (L.traffic link.old) (L.traffic link.new) bytes []
        × HearsFrame framed bytes feeder.old feeder.new)
        (λ ended. (between : ℕ) × (L.faults link.old ≤ between)
        × EndsReading ended feeder.new (L.marks link.new) between (L.faults link.new)
        × (bytes : List ℕ)
        × Carried (L.traffic link.old) (L.traffic link.new) bytes []
        × HearsFrame None bytes feeder.old feeder.new
        × (feeder.new.waiting ≡ [])) }
    ensures right { IfOk result (λ framed. IfSome framed (IsHeard feeder.old.heard)) }
    ensures side { feeder.new.heard ≡ feeder.old.heard }
    ensures sound { IsSound feeder.new }
    ensures faults { OnOk result (L.faults link.old ≤ L.faults link.new) }
    ensures ends { (L.marks link.new).ends ≡ (L.marks link.old).ends }
{
    if let Some(framed) = feeder.take() {
        return Ok(Some(framed));
    }
    if !link.has_come() {
        return Ok(None);
    }
    if let Err(ended) = receive_more(link, feeder, room) {
        return Err(ended);
    }
    match feeder.take() {
        Some(framed) => Ok(Some(framed)),
        None => Ok(None),
    }
}
