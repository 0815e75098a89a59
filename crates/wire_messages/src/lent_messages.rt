// Messages that are spelled from parts that stand elsewhere, so that none is copied.
ghost use Rattle.std.specs.Prelude.{◌≡◌, [], ◌++◌, OnOk, OnErr};
ghost use Rattle.wire_reading.specs.Frame.{spelling, with_sequence};
ghost use Rattle.wire_reading.specs.Hearing.{IsHeard};
ghost use Rattle.wire_reading.specs.Lent.{asks, judged};
ghost use Rattle.wire_fields.specs.Right.{IsRightVerdict};
ghost use Rattle.wire_fields.specs.Packed.{IsShortVerdict, IsShortOptionalRow};
ghost use Rattle.wire_fields.specs.declared.operations.Heard.TheVariants.{AtClient, Replies};
ghost use Rattle.wire_fields.specs.declared.messages.Message.TheVariants.{Judged, ListRow};

use crate::encoding::set_length;
use crate::lent_writers::{
    put_check_frame, put_judged_behind, put_judged_frame, put_row_frame, put_verdict_frame,
};
use crate::right_fields::{answer_is_right, policy_is_right, question_is_right};
use bucket_eval::{BorrowedAnswer, Row, Verdict};
use cynara_keys::{Policy, Question};
use desk_ports::Bytes;
use std::alloc::AllocError;

/// Spells a client's question into a buffer in place of what it held: `SimpleCheck` where no agent is to be asked, and
/// else `Check`. Fails for want of memory alone, and the buffer is then empty. The service hears what is spelled.
pub fn encode_check_into(
    frame: &mut Bytes,
    sequence: u16,
    simple: bool,
    question: &Question,
) -> Result<(), AllocError>
    ensures spelled { OnOk result (frame.new ≡ spelling (with_sequence sequence (asks simple question.now))) }
    ensures emptied { OnErr result (frame.new ≡ []) }
    ensures heard { IsHeard AtClient (with_sequence sequence (asks simple question.now)) }
{
    question_is_right(question);
    frame.clear();
    if let Err(error) = put_check_frame(frame, sequence, simple, question) {
        frame.clear();
        return Err(error);
    }
    set_length(frame);
    Ok(())
}

/// Spells the reply that the policies of a commit decide, from an answer whose texts are lent, in place of what the
/// buffer held. Fails for want of memory alone, and the buffer is then empty. A client hears what is spelled.
pub fn encode_judged_into(
    frame: &mut Bytes,
    sequence: u16,
    commit: u64,
    answer: &BorrowedAnswer<'_>,
) -> Result<(), AllocError>
    ensures spelled { OnOk result (frame.new ≡ spelling (with_sequence sequence (judged commit answer.now))) }
    ensures emptied { OnErr result (frame.new ≡ []) }
    ensures heard { IsHeard Replies (with_sequence sequence (judged commit answer.now)) }
{
    answer_is_right(commit, answer);
    frame.clear();
    if let Err(error) = put_judged_frame(frame, sequence, commit, answer) {
        frame.clear();
        return Err(error);
    }
    set_length(frame);
    Ok(())
}

/// Spells the same reply behind what the buffer has. Fails for want of memory alone, and the buffer is then as it was.
pub fn encode_judged_behind(
    frames: &mut Bytes,
    sequence: u16,
    commit: u64,
    answer: &BorrowedAnswer<'_>,
) -> Result<(), AllocError>
    ensures spelled { OnOk result
        (frames.new ≡ frames.old ++ spelling (with_sequence sequence (judged commit answer.now))) }
    ensures kept { OnErr result (frames.new ≡ frames.old) }
    ensures heard { IsHeard Replies (with_sequence sequence (judged commit answer.now)) }
{
    answer_is_right(commit, answer);
    match put_judged_behind(frames, sequence, commit, answer) {
        Ok(()) => Ok(()),
        Err(error) => Err(error),
    }
}

/// Spells a verdict by value as the reply `Judged`, in place of what the buffer held. Fails for want of memory alone,
/// and the buffer is then empty. A client hears what is spelled, where no text of the verdict is wrong.
pub fn encode_verdict_into(
    frame: &mut Bytes,
    sequence: u16,
    verdict: &Verdict,
) -> Result<(), AllocError>
    ensures spelled { OnOk result (frame.new ≡ spelling (with_sequence sequence (Judged verdict.now))) }
    ensures emptied { OnErr result (frame.new ≡ []) }
    ensures heard { IsRightVerdict verdict.now → IsHeard Replies (with_sequence sequence (Judged verdict.now)) }
{
    texts_are_short(verdict);
    frame.clear();
    if let Err(error) = put_verdict_frame(frame, sequence, verdict) {
        frame.clear();
        return Err(error);
    }
    set_length(frame);
    Ok(())
}

/// Spells one policy of those that were asked for as the reply `ListRow`, in place of what the buffer held. Fails for
/// want of memory alone, and the buffer is then empty. An administrator hears what is spelled.
pub fn encode_row_into(frame: &mut Bytes, sequence: u16, policy: &Policy) -> Result<(), AllocError>
    ensures spelled { OnOk result (frame.new ≡ spelling (with_sequence sequence (ListRow policy.now))) }
    ensures emptied { OnErr result (frame.new ≡ []) }
    ensures heard { IsHeard Replies (with_sequence sequence (ListRow policy.now)) }
{
    policy_is_right(policy);
    frame.clear();
    if let Err(error) = put_row_frame(frame, sequence, policy) {
        frame.clear();
        return Err(error);
    }
    set_length(frame);
    Ok(())
}

// The texts of a verdict stand in fixed places.
fn texts_are_short(verdict: &Verdict)
    ensures { IsShortVerdict verdict.now }
{
    let _metadata = verdict.answer.metadata.as_slice();
    let _bucket = verdict.answer.cause.bucket.as_slice();
    row_is_short(&verdict.answer.cause.row);
}

fn row_is_short(row: &Option<Row>)
    ensures { IsShortOptionalRow row.now }
{
    match row {
        Some(row) => {
            let _client = row.client.as_slice();
            let _user = row.user.as_slice();
            let _privilege = row.privilege.as_slice();
        }
        None => {}
    }
}
