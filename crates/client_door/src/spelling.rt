ghost use Rattle.std.specs.Prelude.{◌≡◌, MatchResult};
ghost use Rattle.wire_reading.specs.Frame.{spelling, with_sequence};
ghost use Rattle.door_frames.specs.declared.endings.Ended.TheVariants.{Memory};

use desk_ports::Bytes;
use door_frames::Ended;
use wire_messages::{Message, encode_message_into};

/// Spells a short message into a buffer in place of what it held.
pub(crate) fn spell(frame: &mut Bytes, sequence: u16, message: Message) -> Result<(), Ended>
    ensures { MatchResult result (λ _. frame.new ≡ spelling (with_sequence sequence message)) (λ ended. ended ≡ Memory) }
{
    let spelled = encode_message_into(frame, sequence, &message);
    // Handed on by value, it is not gone through variant by variant here.
    drop(message);
    match spelled {
        Ok(()) => Ok(()),
        Err(_) => Err(Ended::Memory),
    }
}
