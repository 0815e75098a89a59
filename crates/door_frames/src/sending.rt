ghost use Rattle.std.specs.Prelude.{◌≡◌, [], OnOk, OnErr, MatchResult};
ghost use Rattle.desk_ports.specs.Faults.{next_count};
ghost use Rattle.wire_reading.specs.Frame.{spelling, with_sequence};
ghost use Rattle.door_frames.specs.Carried.{Carried};
ghost use Rattle.door_frames.specs.Ending.{EndsSending};

use crate::Ended;
use desk_ports::Bytes;
use link_ports::Link;
use wire_messages::{Message, encode_message_into};

/// Spells a message with its sequence number into a buffer in place of what it held, and sends it. Ends where a call of
/// the link failed, and for want of memory, where nothing is sent.
pub fn send_message<L: Link>(
    link: &mut L,
    frame: &mut Bytes,
    sequence: u16,
    message: &Message,
) -> Result<(), Ended>
    ensures sent { OnOk result (Carried (L.traffic link.old) (L.traffic link.new)
        [] (spelling (with_sequence sequence message.now))) }
    ensures unsent { OnErr result (Carried (L.traffic link.old) (L.traffic link.new) [] []) }
    ensures ended { MatchResult result (λ _. L.faults link.new ≡ L.faults link.old)
        (λ ended. EndsSending ended (L.faults link.old) (L.faults link.new)) }
    ensures marks { L.marks link.new ≡ L.marks link.old }
{
    let Ok(()) = encode_message_into(frame, sequence, message) else {
        return Err(Ended::Memory);
    };
    match link.send(frame.as_slice()) {
        Ok(()) => Ok(()),
        Err(_) => Err(Ended::LinkFault),
    }
}
