// A check that stands whole at the front of bytes, and is read where it stands.
ghost use Rattle.std.specs.Prelude.{◌≡◌, ◌≤◌, ◌<◌, ◌+◌, length, drop, None, is_none, IfSome, IfNone};
ghost use Rattle.wire_reading.specs.Frame.{length_of, length_fault, body_of, frame_of, with_sequence};
ghost use Rattle.wire_fields.specs.Left.{Gives, OnMemory};
ghost use Rattle.wire_fields.specs.Field as field;
ghost use Rattle.wire_reading.specs.Lent.{asks};
ghost use Rattle.wire_fields.specs.Operation.{operation_of};
ghost use Rattle.wire_reading.specs.Stream.{Whole, first_of, NoneWhole};
ghost use Rattle.wire_reading.specs.parts.LentCheck.{asked_by, ReadsCheck, FrontFrame};
ghost use Rattle.std.specs.Option.{option_map};
ghost use Rattle.wire_fields.specs.declared.operations.Heard.TheVariants.{AtClient};

use crate::decoding::{length_fault, length_of};
use cynara_keys::BorrowedQuestion;
use wire_fields::readers::name_text;
use wire_fields::{Fields, WireRefusal};

/// A check that is read where it stands. Its names are lent, and no memory is taken.
#[derive(Drop)]
pub struct LentCheck<'a> {
    /// The sequence number of its frame.
    pub sequence: u16,
    /// Whether no agent is to be asked.
    pub simple: bool,
    /// What is asked.
    pub question: BorrowedQuestion<'a>,
    /// How many bytes its frame has.
    pub size: usize,
}

/// The check whose frame stands whole at the front of bytes that a client sent, behind no bytes of an earlier frame:
/// what a feeder hears first in them. `None` exactly where no whole right frame stands there. Takes no memory.
pub fn check_in_front<'a>(bytes: &'a [u8]) -> Option<LentCheck<'a>>
    ensures whole { IfSome result (λ check. first_of AtClient bytes.now
        ≡ Whole (with_sequence check.sequence (asks check.simple check.question)) (drop check.size bytes.now)) }
    ensures size { IfSome result (λ check. (0 < check.size) × (check.size ≤ length bytes.now)) }
    ensures none { IfNone result (NoneWhole AtClient bytes.now) }
{
    let Some(frame) = frame_in_front(bytes) else {
        return None;
    };
    match check_of_frame(frame) {
        Ok(check) => Some(check),
        Err(_) => None,
    }
}

// The frame at the front of the bytes, where it is whole and its length has no fault.
fn frame_in_front<'a>(bytes: &'a [u8]) -> Option<&'a [u8]>
    ensures whole { IfSome result (λ frame. FrontFrame bytes.now frame.now) }
    ensures none { IfNone result (NoneWhole AtClient bytes.now) }
{
    if bytes.len() < 4 {
        return None;
    }
    let length = length_of(bytes);
    if !is_right_length(length) {
        return None;
    }
    let size = length as usize + 4;
    if bytes.len() < size {
        return None;
    }
    let (front, _) = bytes.split_at(size);
    Some(front)
}

fn is_right_length(length: u32) -> bool
    ensures { result ≡ is_none (length_fault length) }
{
    length_fault(length).is_none()
}

// The check of a whole frame whose length has no fault.
fn check_of_frame<'a>(frame: &'a [u8]) -> Result<LentCheck<'a>, WireRefusal>
    requires size { length frame.now ≡ length_of frame.now + 4 }
    requires right { length_fault (length_of frame.now) ≡ None }
    ensures answer { ReadsCheck result (length frame.now) (frame_of AtClient frame.now) }
    ensures memory { OnMemory result ⊥ }
{
    let size = frame.len();
    let mut fields = Fields::of(frame);
    fields.skip_length();
    check_of(size, &mut fields)
}

// what follows the length
#[tactic(auto, unfolding(crate::specs::Frame::body_of))]
fn check_of<'a>(size: usize, fields: &mut Fields<'a>) -> Result<LentCheck<'a>, WireRefusal>
    ensures answer { ReadsCheck result size (body_of AtClient fields.old) }
    ensures memory { OnMemory result ⊥ }
{
    let sequence = fields.number2()?;
    let number = fields.number1()?;
    let Some(simple) = is_simple(number) else {
        return Err(WireRefusal::BadOperation(number));
    };
    let question = lent_question(fields)?;
    if !fields.is_empty() {
        return Err(WireRefusal::Trailing(fields.place()));
    }
    Ok(LentCheck {
        sequence,
        simple,
        question,
        size,
    })
}

// Whether the operation of this number is a check that asks no agent; none where it is no check.
fn is_simple(number: u8) -> Option<bool>
    ensures { operation_of AtClient number ≡ option_map asked_by result }
{
    match number {
        0x01 => Some(false),
        0x02 => Some(true),
        _ => None,
    }
}

fn lent_question<'a>(fields: &mut Fields<'a>) -> Result<BorrowedQuestion<'a>, WireRefusal>
    ensures read { Gives result fields.new (field.question.read fields.old) }
    ensures memory { OnMemory result ⊥ }
{
    let client = name_text(fields)?;
    let user = name_text(fields)?;
    let privilege = name_text(fields)?;
    Ok(BorrowedQuestion::of(client, user, privilege))
}
