ghost use Rattle.std.specs.Prelude.{◌≡◌, ◌+◌, ◌≤◌, ◌==◌, if◌then◌else◌, Ok, Err, length, IfOk};
ghost use Rattle.wire_reading.specs.Frame.{length_of, length_fault, body_of, frame_of, spelling};
ghost use Rattle.wire_reading.specs.Frame.{Answers, BeginsRight, IsKnown};
ghost use Rattle.wire_fields.specs.Left.{OnMemory, place};
ghost use Rattle.wire_fields.specs.declared.refusals.WireRefusal.TheVariants.{Trailing};
ghost use Rattle.wire_reading.specs.Hearing.{IsHeard};
ghost use Rattle.wire_fields.specs.declared.messages.Framed.{Framed};

use crate::message_readers::message;
use std::alloc::Global;
use wire_fields::{Fields, Framed, Heard, LEAST_LENGTH, MOST_LENGTH, Operation, WireRefusal};

/// Reads a frame, whose length is the number of the bytes behind it. Refuses at its first fault: `TooShort` and
/// `TooLong` by the length, then `BadOperation`, `BadField` or `Trailing`, whichever comes first. Fields are kept as
/// they are read, so `Memory` may come where a field that is not yet read is wrong.
pub fn decode(alloc: Global, heard: Heard, frame: &[u8]) -> Result<Framed, WireRefusal>
    requires { length frame.now ≡ length_of frame.now + 4 }
    // Which message it is, or which fault.
    ensures exact { Answers result (frame_of heard frame.now) }
    // What is read is spelled so.
    ensures found { IfOk result (λ framed. IsHeard heard framed × (frame.now ≡ spelling framed)) }
    // What is spelled so is read, unless memory runs out.
    ensures only { (framed : Framed) → IsHeard heard framed → frame.now ≡ spelling framed
        → Answers result (Ok framed) }
    // Memory runs out only behind a right length and a known operation; a later field may then be wrong.
    ensures memory { OnMemory result (BeginsRight heard frame.now) }
{
    read(alloc, heard, frame)
}

fn read(alloc: Global, heard: Heard, frame: &[u8]) -> Result<Framed, WireRefusal>
    requires { length frame.now ≡ length_of frame.now + 4 }
    ensures answer { Answers result (frame_of heard frame.now) }
    ensures memory { OnMemory result (BeginsRight heard frame.now) }
{
    if let Some(fault) = length_fault(length_of(frame)) {
        return Err(fault);
    }
    let mut fields = Fields::of(frame);
    fields.skip_length();
    body(alloc, heard, &mut fields)
}

/// The length that stands in front of bytes.
pub fn length_of(bytes: &[u8]) -> u32
    requires { 4 ≤ length bytes.now }
    ensures { result ≡ length_of bytes.now }
{
    u32::from_be_bytes([bytes[0], bytes[1], bytes[2], bytes[3]])
}

/// The fault of a frame's length.
pub fn length_fault(length: u32) -> Option<WireRefusal>
    ensures { result ≡ length_fault length }
{
    if length < LEAST_LENGTH {
        return Some(WireRefusal::TooShort(length));
    }
    if length > MOST_LENGTH {
        return Some(WireRefusal::TooLong(length));
    }
    None
}

// what follows the length
#[tactic(auto, unfolding(crate::specs::Frame::body_of))]
fn body(alloc: Global, heard: Heard, fields: &mut Fields) -> Result<Framed, WireRefusal>
    ensures answer { Answers result (body_of heard fields.old) }
    ensures memory { OnMemory result (IsKnown heard fields.old.rest) }
{
    let sequence = fields.number2()?;
    let number = fields.number1()?;
    let Some(operation) = Operation::of(heard, number) else {
        return Err(WireRefusal::BadOperation(number));
    };
    let message = message(alloc, operation, fields)?;
    let message = unless_more(message, fields)?;
    Ok(Framed { sequence, message })
}

// The value, where no byte is left behind it. It is let go here, once for every type of value.
fn unless_more<T: Drop>(value: T, fields: &Fields) -> Result<T, WireRefusal>
    ensures { result ≡ (if length fields.now.rest == 0 then Ok value else Err (Trailing (place fields.now))) }
{
    if !fields.is_empty() {
        return Err(WireRefusal::Trailing(fields.place()));
    }
    Ok(value)
}
