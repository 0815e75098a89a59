// Frames of messages whose parts are lent, but for the length in front, which is 0.
ghost use Rattle.std.specs.Prelude.{◌≡◌, ◌≤◌, ◌+◌, [], ◌∷◌, ◌++◌, OnOk, OnErr};
ghost use Rattle.std.specs.Int.{w16, w32, w64, to_be_bytes};
ghost use Rattle.std.specs.Option.{option_map};
ghost use Rattle.bucket_eval.specs.Found.{row_of};
ghost use Rattle.wire_fields.specs.Appended.{Appended};
ghost use Rattle.wire_fields.specs.Field as field;
ghost use Rattle.wire_fields.specs.Format.{text};
ghost use Rattle.wire_reading.specs.Frame.{body, spelling, with_sequence};
ghost use Rattle.wire_fields.specs.Right.{IsRight};
ghost use Rattle.wire_reading.specs.Lent.{asks, judged};
ghost use Rattle.wire_fields.specs.declared.messages.Message.TheVariants.{Judged, ListRow};

use crate::encoding::put_front;
use crate::list_writers::put_optional_row;
use crate::writers::{
    put_bucket, put_key, put_kind_and_metadata, put_policy, put_question, put_ruling,
};
use bucket_eval::{BorrowedAnswer, Verdict};
use byteorder::{BigEndian, ByteOrder};
use cynara_keys::{Key, Policy, Question};
use desk_ports::Bytes;
use std::alloc::AllocError;
use wire_fields::plain_writers::{put_text, put1, put8};
use wire_fields::{Operation, lent_row};

/// Puts the frame of a check, or of a simple check, into the empty buffer, behind four bytes of room for its length.
pub fn put_check_frame(
    out: &mut Bytes,
    sequence: u16,
    simple: bool,
    question: &Question,
) -> Result<(), AllocError>
    requires { out.old ≡ [] }
    ensures { OnOk result (out.new ≡
        (0 ∷ 0 ∷ 0 ∷ 0 ∷ []) ++ body (with_sequence sequence (asks simple question.now))) }
{
    if simple {
        put_front(out, sequence, Operation::SimpleCheck)?;
        put_question(out, question)
    } else {
        put_front(out, sequence, Operation::Check)?;
        put_question(out, question)
    }
}

/// Puts the frame of a verdict on a lent answer into the empty buffer, behind four bytes of room for its length.
pub fn put_judged_frame(
    out: &mut Bytes,
    sequence: u16,
    commit: u64,
    answer: &BorrowedAnswer<'_>,
) -> Result<(), AllocError>
    requires { out.old ≡ [] }
    ensures { OnOk result (out.new ≡
        (0 ∷ 0 ∷ 0 ∷ 0 ∷ []) ++ body (with_sequence sequence (judged commit answer.now))) }
{
    put_front(out, sequence, Operation::Judged)?;
    put8(out, commit)?;
    put_ruling(out, answer.result)?;
    put_bucket(out, answer.bucket)?;
    put_optional_key(out, answer.key)
}

/// Puts the whole frame of a verdict on a lent answer behind what the buffer has, or leaves the buffer as it is.
pub fn put_judged_behind(
    out: &mut Bytes,
    sequence: u16,
    commit: u64,
    answer: &BorrowedAnswer<'_>,
) -> Result<(), AllocError>
    requires { IsRight (judged commit answer.now) }
    ensures spelled { OnOk result
        (out.new ≡ out.old ++ spelling (with_sequence sequence (judged commit answer.now))) }
    ensures kept { OnErr result (out.new ≡ out.old) }
{
    let metadata = answer.result.metadata().as_slice();
    let bucket = answer.bucket.as_slice();
    let (flag, key) = flag_and_key(answer.key);
    let length = judged_length(metadata.len(), bucket.len(), key.len());
    let kind = answer.result.kind().0;
    let head = judged_head(length, sequence, commit, kind, metadata.len());
    match put_parts(out, &head, metadata, bucket, flag, key) {
        Ok(()) => Ok(()),
        Err(error) => Err(error),
    }
}

// The length of the frame of a verdict.
fn judged_length(metadata: usize, bucket: usize, key: usize) -> u32
    requires metadata { metadata ≤ 255 }
    requires bucket { bucket ≤ 255 }
    requires key { key ≤ 771 }
    ensures { result ≡ 18 + metadata + bucket + key }
{
    (18 + metadata + bucket + key) as u32
}

// What stands in a frame of a verdict up to its metadata.
fn judged_head(length: u32, sequence: u16, commit: u64, kind: u16, count: usize) -> [u8; 19]
    ensures { result ≡ to_be_bytes w32 length ++ (to_be_bytes w16 sequence ++ (129 ∷ (to_be_bytes w64 commit
        ++ (to_be_bytes w16 kind ++ to_be_bytes w16 count)))) }
{
    let mut front = [0; 4];
    BigEndian::write_u32(&mut front, length);
    let mut number = [0; 2];
    BigEndian::write_u16(&mut number, sequence);
    let mut at = [0; 8];
    BigEndian::write_u64(&mut at, commit);
    let mut of = [0; 2];
    BigEndian::write_u16(&mut of, kind);
    let mut many = [0; 8];
    BigEndian::write_u64(&mut many, count as u64);
    [
        front[0], front[1], front[2], front[3], number[0], number[1], 0x81, at[0], at[1], at[2],
        at[3], at[4], at[5], at[6], at[7], of[0], of[1], many[6], many[7],
    ]
}

// Puts the head of a frame, its metadata, its bucket and its key behind a flag, all or none of them.
fn put_parts(
    out: &mut Bytes,
    head: &[u8],
    metadata: &[u8],
    bucket: &[u8],
    flag: u8,
    key: &[u8],
) -> Result<(), AllocError>
    ensures spelled { OnOk result (out.new ≡ out.old ++ ((head.now ++ metadata.now)
        ++ (text.spelled bucket.now ++ (flag ∷ key.now)))) }
    ensures kept { OnErr result (out.new ≡ out.old) }
{
    let before = out.len();
    if let Err(error) = out.append_both(head, metadata) {
        return Err(error);
    }
    if let Err(error) = put_text(out, bucket) {
        out.truncate(before);
        return Err(error);
    }
    if let Err(error) = out.append_both(&[flag], key) {
        out.truncate(before);
        return Err(error);
    }
    Ok(())
}

// The flag of a key and its packed texts: 1 and the texts where there is a key, else 0 and no texts.
fn flag_and_key<'a>(key: Option<&'a Key>) -> (u8, &'a [u8])
    ensures spelled { result.0 ∷ result.1.now
        ≡ (field.optional field.row).spelled (option_map row_of (option_map (λ key. key.now) key.entry)) }
{
    match key {
        None => (0, b""),
        Some(key) => (1, key.packed()),
    }
}

/// Puts the frame of a verdict into the empty buffer, behind four bytes of room for its length.
pub fn put_verdict_frame(
    out: &mut Bytes,
    sequence: u16,
    verdict: &Verdict,
) -> Result<(), AllocError>
    requires { out.old ≡ [] }
    ensures { OnOk result (out.new ≡
        (0 ∷ 0 ∷ 0 ∷ 0 ∷ []) ++ body (with_sequence sequence (Judged verdict.now))) }
{
    let answer = &verdict.answer;
    put_front(out, sequence, Operation::Judged)?;
    put8(out, verdict.commit)?;
    put_kind_and_metadata(out, answer.kind, answer.metadata.as_slice())?;
    put_text(out, answer.cause.bucket.as_slice())?;
    put_optional_row(out, &lent_row(&answer.cause.row))
}

/// Puts the frame of one row of a listing into the empty buffer, behind four bytes of room for its length.
pub fn put_row_frame(out: &mut Bytes, sequence: u16, policy: &Policy) -> Result<(), AllocError>
    requires { out.old ≡ [] }
    ensures { OnOk result (out.new ≡
        (0 ∷ 0 ∷ 0 ∷ 0 ∷ []) ++ body (with_sequence sequence (ListRow policy.now))) }
{
    put_front(out, sequence, Operation::ListRow)?;
    put_policy(out, policy)
}

fn put_optional_key(out: &mut Bytes, key: Option<&Key>) -> Result<(), AllocError>
    ensures { Appended result out.old out.new
        ((field.optional field.row).spelled (option_map (λ key. row_of key.now) key.entry)) }
{
    match key {
        None => put1(out, 0),
        Some(key) => {
            put1(out, 1)?;
            put_key(out, key)
        }
    }
}
