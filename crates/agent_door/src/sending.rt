ghost use Rattle.std.specs.Prelude.{◌≡◌, [], MatchResult};
ghost use Rattle.wire_reading.specs.Frame.{spelling, with_sequence};
ghost use Rattle.door_frames.specs.Carried.{Carried};
ghost use Rattle.door_frames.specs.Ending.{EndsSending};

use desk_ports::Bytes;
use door_frames::{Ended, send_message};
use link_ports::Link;
use wire_messages::Message;

/// Sends a message with its sequence number, which is spelled in the buffer.
pub(crate) fn send<L: Link>(
    link: &mut L,
    frame: &mut Bytes,
    sequence: u16,
    message: Message,
) -> Result<(), Ended>
    ensures sent { MatchResult result
        (λ _. Carried (L.traffic link.old) (L.traffic link.new) [] (spelling (with_sequence sequence message))
        × (L.faults link.new ≡ L.faults link.old))
        (λ ended. EndsSending ended (L.faults link.old) (L.faults link.new)
        × Carried (L.traffic link.old) (L.traffic link.new) [] []) }
    ensures marks { L.marks link.new ≡ L.marks link.old }
{
    let sent = send_message(link, frame, sequence, &message);
    // proof: handed on by value, so that it is not gone through variant by variant here.
    drop(message);
    match sent {
        Ok(()) => Ok(()),
        Err(ended) => Err(ended),
    }
}
