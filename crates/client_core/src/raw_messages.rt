// Messages of an administrator, by the bytes of their fields.
ghost use Rattle.std.specs.Prelude.{◌≡◌, ◌≤◌, ◌+◌, [], length, IfOk, OnOk};
ghost use Rattle.wire_reading.specs.Frame.{Answers, spelling, frame_of, length_of};
ghost use Rattle.wire_reading.specs.Hearing.{IsHeard};
ghost use Rattle.wire_fields.specs.declared.operations.Heard.TheVariants.{AtAdmin};
ghost use Rattle.client_core.specs.Admin.{raw_frame};

use desk_ports::Bytes;
use std::alloc::{AllocError, Global};
use wire_messages::{Framed, Heard, WireRefusal, decode};

/// The most bytes that the fields of a message may have.
pub(crate) const MOST_FIELDS: usize = 1_048_573;

/// Puts a frame together of a sequence number, the number of an operation and its fields, in place of what the buffer
/// held, and reads it as the service does.
pub(crate) fn read_raw(
    alloc: Global,
    frame: &mut Bytes,
    sequence: u16,
    operation: u8,
    fields: &[u8],
) -> Result<Framed, WireRefusal>
    requires { length fields.now ≤ 1048573 }
    ensures raw { OnOk result (frame.new ≡ raw_frame sequence operation fields.now) }
    ensures message { IfOk result (λ framed. IsHeard AtAdmin framed × (frame.new ≡ spelling framed)) }
    ensures read { Answers result (frame_of AtAdmin (raw_frame sequence operation fields.now)) }
{
    frame.clear();
    if let Err(error) = put_raw(frame, sequence, operation, fields) {
        return Err(WireRefusal::Memory(error));
    }
    length_is_that_of_the_rest(sequence, operation, fields);
    decode(alloc, Heard::AtAdmin, frame.as_slice())
}

fn put_raw(frame: &mut Bytes, sequence: u16, operation: u8, fields: &[u8]) -> Result<(), AllocError>
    requires empty { frame.old ≡ [] }
    requires most { length fields.now ≤ 1048573 }
    ensures { OnOk result (frame.new ≡ raw_frame sequence operation fields.now) }
{
    let length = (fields.len() + 3) as u32;
    frame.append(&length.to_be_bytes())?;
    frame.append(&sequence.to_be_bytes())?;
    frame.append_both(&[operation], fields)
}

// Does nothing; its clause is what `decode` asks of a frame.
fn length_is_that_of_the_rest(sequence: u16, operation: u8, fields: &[u8])
    requires { length fields.now ≤ 1048573 }
    ensures { length (raw_frame sequence operation fields.now)
        ≡ length_of (raw_frame sequence operation fields.now) + 4 }
{}
