//! The texts of answers, piece by piece.

ghost use Rattle.std.specs.Prelude.{◌≡◌, ◌++◌, OnOk, OnErr};
ghost use Rattle.line_answers.specs.Answers.{answer_text, accepted_text, erased_text, by_policy_text, by_fallback_text};
ghost use Rattle.line_answers.specs.Answers.{row_text, rows_text, access_text, status_text, line_fault_text};
ghost use Rattle.line_answers.specs.Answers.{damaged_text, ruling};
ghost use Rattle.line_answers.specs.parts.Appending.{Lengthens};

use crate::answers::{LineAnswer, command_line_fault, reply_fault};
use crate::pieces::{append_decision, append_key, append_number, append_result, append_verdict};
use crate::print_agents::{
    append_agent_full, append_agent_gone, append_from_agent, append_no_agent, append_not_resolved,
    append_question, append_store_damaged, append_store_fault, append_taken, append_too_long,
};
use crate::print_levels::append_level_answer;
use crate::print_refusals::append_refusal;
use crate::print_shares::append_share_answer;
use cynara_keys::Kind;
use desk_ports::Bytes;
use std::alloc::AllocError;

/// Appends the text of the answer. Where memory runs out, a front of it may stand at the end.
#[inline(always)]
pub(crate) fn append_answer(answer: &LineAnswer, out: &mut Bytes) -> Result<(), AllocError>
    ensures ok { OnOk result (out.new ≡ out.old ++ answer_text answer.now) }
    ensures err { OnErr result (Lengthens out.old out.new) }
{
    match answer {
        LineAnswer::Accepted { commit } => append_accepted(out, *commit),
        LineAnswer::Erased { commit, count } => append_erased(out, *commit, *count),
        LineAnswer::ByPolicy {
            commit,
            bucket,
            kind,
            metadata,
            client,
            user,
            privilege,
        } => {
            append_by_policy(
                out, *commit, bucket, *kind, metadata, client, user, privilege,
            )
        }
        LineAnswer::ByFallback {
            commit,
            bucket,
            kind,
            metadata,
        } => append_by_fallback(out, *commit, bucket, *kind, metadata),
        LineAnswer::FromAgent {
            commit,
            allowed,
            kind,
            number,
        } => append_from_agent(out, *commit, *allowed, *kind, *number),
        LineAnswer::NotResolved { commit, kind } => append_not_resolved(out, *commit, *kind),
        LineAnswer::NoAgent { commit, kind } => append_no_agent(out, *commit, *kind),
        LineAnswer::AgentGone { commit, number } => append_agent_gone(out, *commit, *number),
        LineAnswer::AgentFull { commit, kind, most } => append_agent_full(
            out, *commit, *kind, *most,
        ),
        LineAnswer::Row {
            client,
            user,
            privilege,
            kind,
            metadata,
        } => append_row(out, client, user, privilege, *kind, metadata),
        LineAnswer::Rows { count } => append_rows(out, *count),
        LineAnswer::Access { allowed, rule } => append_access(out, *allowed, *rule),
        LineAnswer::Status { commit } => append_status(out, *commit),
        LineAnswer::OfLevels(answer) => append_level_answer(out, answer),
        LineAnswer::OfShares(answer) => append_share_answer(out, answer),
        LineAnswer::Refused(broken) => append_refusal(out, broken.refusal),
        LineAnswer::StoreFault => append_store_fault(out),
        LineAnswer::StoreDamaged { file, line } => append_store_damaged(out, file, *line),
        LineAnswer::AgentQuestion {
            number,
            client,
            user,
            privilege,
            kind,
            metadata,
        } => append_question(out, *number, client, user, privilege, *kind, metadata),
        LineAnswer::KindTaken { kind } => append_taken(out, *kind),
        LineAnswer::CommandLineFault => out.append(command_line_fault()),
        LineAnswer::LineFault { line } => append_line_fault(out, *line),
        LineAnswer::Damaged { file, line } => append_damaged(out, file, *line),
        LineAnswer::ReplyFault => out.append(reply_fault()),
        LineAnswer::FrameTooLong { length } => append_too_long(out, *length),
    }
}

#[tactic(auto, unfolding(crate::specs::Answers::accepted_text))]
fn append_accepted(out: &mut Bytes, commit: u64) -> Result<(), AllocError>
    ensures ok { OnOk result (out.new ≡ out.old ++ accepted_text commit) }
    ensures err { OnErr result (Lengthens out.old out.new) }
{
    out.append(b"ok ")?;
    append_number(out, commit)?;
    out.append(b"\n")
}

#[tactic(auto, unfolding(crate::specs::Answers::erased_text))]
fn append_erased(out: &mut Bytes, commit: u64, count: u32) -> Result<(), AllocError>
    ensures ok { OnOk result (out.new ≡ out.old ++ erased_text commit count) }
    ensures err { OnErr result (Lengthens out.old out.new) }
{
    out.append(b"ok ")?;
    append_number(out, commit)?;
    out.append(b" erased ")?;
    append_number(out, u64::from(count))?;
    out.append(b"\n")
}

#[tactic(auto, unfolding(crate::specs::Answers::by_policy_text))]
fn append_by_policy(
    out: &mut Bytes,
    commit: u64,
    bucket: &[u8],
    kind: Kind,
    metadata: &[u8],
    client: &[u8],
    user: &[u8],
    privilege: &[u8],
) -> Result<(), AllocError>
    ensures ok { OnOk result (out.new ≡ out.old ++ by_policy_text
        commit bucket.now (ruling kind.0 metadata.now) client.now user.now privilege.now) }
    ensures err { OnErr result (Lengthens out.old out.new) }
{
    append_verdict(out, commit, bucket, kind, metadata)?;
    out.append(b" ")?;
    append_key(out, client, user, privilege)?;
    out.append(b"\n")
}

#[tactic(auto, unfolding(crate::specs::Answers::by_fallback_text))]
fn append_by_fallback(
    out: &mut Bytes,
    commit: u64,
    bucket: &[u8],
    kind: Kind,
    metadata: &[u8],
) -> Result<(), AllocError>
    ensures ok { OnOk result (out.new ≡ out.old ++ by_fallback_text commit bucket.now (ruling kind.0 metadata.now)) }
    ensures err { OnErr result (Lengthens out.old out.new) }
{
    append_verdict(out, commit, bucket, kind, metadata)?;
    out.append(b" default\n")
}

#[tactic(auto, unfolding(crate::specs::Answers::row_text))]
fn append_row(
    out: &mut Bytes,
    client: &[u8],
    user: &[u8],
    privilege: &[u8],
    kind: Kind,
    metadata: &[u8],
) -> Result<(), AllocError>
    ensures ok { OnOk result (out.new ≡ out.old ++ row_text
        client.now user.now privilege.now (ruling kind.0 metadata.now)) }
    ensures err { OnErr result (Lengthens out.old out.new) }
{
    out.append(b"row ")?;
    append_key(out, client, user, privilege)?;
    out.append(b" ")?;
    append_result(out, kind, metadata)?;
    out.append(b"\n")
}

#[tactic(auto, unfolding(crate::specs::Answers::rows_text))]
fn append_rows(out: &mut Bytes, count: u32) -> Result<(), AllocError>
    ensures ok { OnOk result (out.new ≡ out.old ++ rows_text count) }
    ensures err { OnErr result (Lengthens out.old out.new) }
{
    out.append(b"rows ")?;
    append_number(out, u64::from(count))?;
    out.append(b"\n")
}

#[tactic(auto, unfolding(crate::specs::Answers::access_text))]
fn append_access(out: &mut Bytes, allowed: bool, rule: u8) -> Result<(), AllocError>
    ensures ok { OnOk result (out.new ≡ out.old ++ access_text allowed rule) }
    ensures err { OnErr result (Lengthens out.old out.new) }
{
    out.append(b"access ")?;
    append_decision(out, allowed)?;
    out.append(b" ")?;
    append_number(out, u64::from(rule))?;
    out.append(b"\n")
}

#[tactic(auto, unfolding(crate::specs::Answers::status_text))]
fn append_status(out: &mut Bytes, commit: u64) -> Result<(), AllocError>
    ensures ok { OnOk result (out.new ≡ out.old ++ status_text commit) }
    ensures err { OnErr result (Lengthens out.old out.new) }
{
    out.append(b"commit ")?;
    append_number(out, commit)?;
    out.append(b"\n")
}

#[tactic(auto, unfolding(crate::specs::Answers::line_fault_text))]
fn append_line_fault(out: &mut Bytes, line: u32) -> Result<(), AllocError>
    ensures ok { OnOk result (out.new ≡ out.old ++ line_fault_text line) }
    ensures err { OnErr result (Lengthens out.old out.new) }
{
    out.append(b"syntax ")?;
    append_number(out, u64::from(line))?;
    out.append(b"\n")
}

#[tactic(auto, unfolding(crate::specs::Answers::damaged_text))]
fn append_damaged(out: &mut Bytes, file: &[u8], line: u32) -> Result<(), AllocError>
    ensures ok { OnOk result (out.new ≡ out.old ++ damaged_text file.now line) }
    ensures err { OnErr result (Lengthens out.old out.new) }
{
    out.append(b"damaged ")?;
    out.append(file)?;
    out.append(b" ")?;
    append_number(out, u64::from(line))?;
    out.append(b"\n")
}
