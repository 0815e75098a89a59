ghost use Rattle.wire_fields.specs.Limits.{most_length};
ghost use Rattle.std.specs.Prelude.{◌≡◌, ◌≤◌, ◌++◌, ◌∷◌, [], length, drop, Ok, IfOk, OnOk, IfErr, OnErr};
ghost use Rattle.std.specs.Int.{w16, w32, to_be_bytes};
ghost use Rattle.wire_fields.specs.Operation.{number_of};
ghost use Rattle.wire_reading.specs.Frame.{body, spelling, with_sequence, frame_of, IsTooLong};
ghost use Rattle.wire_reading.specs.Hearing.{IsHeard};
ghost use Rattle.wire_fields.specs.declared.operations.Heard.{Heard};

use crate::message_writers::put_fields;
use byteorder::{BigEndian, ByteOrder};
use desk_ports::Bytes;
use std::alloc::{AllocError, Global};
use wire_fields::{EncodeRefusal, Framed, MOST_LENGTH, Message, Operation, operation};

/// Spells a message with its sequence number, as a frame. Refuses `TooLong` where the frame's length would be above
/// 1,048,576, and gives that length.
pub fn encode(alloc: Global, framed: &Framed) -> Result<Bytes, EncodeRefusal>
    ensures spelled { IfOk result (λ frame. frame ≡ spelling framed.now) }
    // What is spelled is read again, by the side that knows the operation.
    ensures again { IfOk result
        (λ frame. (heard : Heard) → IsHeard heard framed.now → frame_of heard frame ≡ Ok framed.now) }
    ensures fits { OnOk result (length (body framed.now) ≤ most_length) }
    ensures refused { IfErr result (IsTooLong framed.now) }
{
    let mut frame = Bytes::new(alloc);
    encode_into(&mut frame, framed)?;
    Ok(frame)
}

/// Spells a message as `encode` does, into a buffer in place of what it held. The buffer keeps its memory, so that one
/// serves many messages without asking for more. It is empty after a refusal.
pub fn encode_into(frame: &mut Bytes, framed: &Framed) -> Result<(), EncodeRefusal>
    ensures spelled { OnOk result (frame.new ≡ spelling framed.now) }
    ensures emptied { OnErr result (frame.new ≡ []) }
    ensures fits { OnOk result (length (body framed.now) ≤ most_length) }
    ensures refused { IfErr result (IsTooLong framed.now) }
{
    encode_message_into(frame, framed.sequence, &framed.message)
}

/// The same for a message that is lent, and its sequence number.
pub fn encode_message_into(
    frame: &mut Bytes,
    sequence: u16,
    message: &Message,
) -> Result<(), EncodeRefusal>
    ensures spelled { OnOk result (frame.new ≡ spelling (with_sequence sequence message.now)) }
    ensures emptied { OnErr result (frame.new ≡ []) }
    ensures fits { OnOk result (length (body (with_sequence sequence message.now)) ≤ most_length) }
    ensures refused { IfErr result (IsTooLong (with_sequence sequence message.now)) }
{
    frame.clear();
    if let Err(error) = put_frame(frame, sequence, message) {
        frame.clear();
        return Err(EncodeRefusal::Memory(error));
    }
    let length = frame.len() - 4;
    if length > MOST_LENGTH as usize {
        frame.clear();
        return Err(EncodeRefusal::TooLong(length as u64));
    }
    let mut front = [0; 4];
    BigEndian::write_u32(&mut front, length as u32);
    frame.overwrite_front(&front);
    Ok(())
}

// a length of 0 and what follows it
fn put_frame(out: &mut Bytes, sequence: u16, message: &Message) -> Result<(), AllocError>
    requires { out.old ≡ [] }
    ensures { OnOk result (out.new ≡ (0 ∷ 0 ∷ 0 ∷ 0 ∷ []) ++ body (with_sequence sequence message.now)) }
{
    put_front(out, sequence, operation(message))?;
    put_fields(out, message)
}

/// A length of 0, the sequence number and the operation, into a buffer without a byte.
pub fn put_front(out: &mut Bytes, sequence: u16, operation: Operation) -> Result<(), AllocError>
    requires { out.old ≡ [] }
    ensures { OnOk result (out.new ≡
        (0 ∷ 0 ∷ 0 ∷ 0 ∷ []) ++ (to_be_bytes w16 sequence ++ (number_of operation ∷ []))) }
{
    let mut number = [0; 2];
    BigEndian::write_u16(&mut number, sequence);
    out.append(&[0, 0, 0, 0, number[0], number[1], operation.number()])
}

/// Writes the length of what follows them over the first four bytes.
pub fn set_length(frame: &mut Bytes)
    requires least { 4 ≤ length frame.old }
    requires most { length frame.old ≤ 1048580 }
    ensures { frame.new ≡ to_be_bytes w32 (length (drop 4 frame.old)) ++ drop 4 frame.old }
{
    let mut front = [0; 4];
    BigEndian::write_u32(&mut front, (frame.len() - 4) as u32);
    frame.overwrite_front(&front);
}
