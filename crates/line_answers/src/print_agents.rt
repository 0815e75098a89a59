//! The texts of answers that a service gives and takes, piece by piece. Where memory runs out, a front may stand at the
//! end.

ghost use Rattle.std.specs.Prelude.{◌≡◌, ◌++◌, decimal, codes, OnOk, OnErr};
ghost use Rattle.line_answers.specs.Answers.{from_agent_text, not_resolved_text, no_agent_text, agent_gone_text};
ghost use Rattle.line_answers.specs.Answers.{agent_full_text};
ghost use Rattle.line_answers.specs.Answers.{store_fault_text, store_damaged_text, question_text, taken_text};
ghost use Rattle.line_answers.specs.Answers.{too_long_text, ruling};
ghost use Rattle.line_answers.specs.parts.Appending.{Lengthens};

use crate::pieces::{append_decision, append_key, append_number, append_result};
use cynara_keys::Kind;
use desk_ports::Bytes;
use std::alloc::AllocError;

#[tactic(auto, unfolding(crate::specs::Answers::from_agent_text))]
pub(crate) fn append_from_agent(
    out: &mut Bytes,
    commit: u64,
    allowed: bool,
    kind: Kind,
    number: u32,
) -> Result<(), AllocError>
    ensures ok { OnOk result (out.new ≡ out.old ++ from_agent_text commit allowed kind.0 number) }
    ensures err { OnErr result (Lengthens out.old out.new) }
{
    append_decision(out, allowed)?;
    out.append(b" ")?;
    append_number(out, commit)?;
    out.append(b" agent ")?;
    append_last_numbers(out, u64::from(kind.0), number)
}

#[tactic(auto, unfolding(crate::specs::Answers::not_resolved_text))]
pub(crate) fn append_not_resolved(
    out: &mut Bytes,
    commit: u64,
    kind: Kind,
) -> Result<(), AllocError>
    ensures ok { OnOk result (out.new ≡ out.old ++ not_resolved_text commit kind.0) }
    ensures err { OnErr result (Lengthens out.old out.new) }
{
    out.append(b"not-resolved ")?;
    append_last_numbers(out, commit, u32::from(kind.0))
}

#[tactic(auto, unfolding(crate::specs::Answers::no_agent_text))]
pub(crate) fn append_no_agent(out: &mut Bytes, commit: u64, kind: Kind) -> Result<(), AllocError>
    ensures ok { OnOk result (out.new ≡ out.old ++ no_agent_text commit kind.0) }
    ensures err { OnErr result (Lengthens out.old out.new) }
{
    out.append(b"no-agent ")?;
    append_last_numbers(out, commit, u32::from(kind.0))
}

#[tactic(auto, unfolding(crate::specs::Answers::agent_gone_text))]
pub(crate) fn append_agent_gone(out: &mut Bytes, commit: u64, number: u32) -> Result<(), AllocError>
    ensures ok { OnOk result (out.new ≡ out.old ++ agent_gone_text commit number) }
    ensures err { OnErr result (Lengthens out.old out.new) }
{
    out.append(b"agent-gone ")?;
    append_last_numbers(out, commit, number)
}

#[tactic(auto, unfolding(crate::specs::Answers::agent_full_text))]
pub(crate) fn append_agent_full(
    out: &mut Bytes,
    commit: u64,
    kind: Kind,
    most: u32,
) -> Result<(), AllocError>
    ensures ok { OnOk result (out.new ≡ out.old ++ agent_full_text commit kind.0 most) }
    ensures err { OnErr result (Lengthens out.old out.new) }
{
    out.append(b"agent-full ")?;
    append_number(out, commit)?;
    out.append(b" ")?;
    append_last_numbers(out, u64::from(kind.0), most)
}

#[tactic(auto, unfolding(crate::specs::Answers::store_fault_text))]
pub(crate) fn append_store_fault(out: &mut Bytes) -> Result<(), AllocError>
    ensures ok { OnOk result (out.new ≡ out.old ++ store_fault_text) }
    ensures err { OnErr result (Lengthens out.old out.new) }
{
    out.append(b"store-fault\n")
}

#[tactic(auto, unfolding(crate::specs::Answers::store_damaged_text))]
pub(crate) fn append_store_damaged(
    out: &mut Bytes,
    file: &[u8],
    line: u32,
) -> Result<(), AllocError>
    ensures ok { OnOk result (out.new ≡ out.old ++ store_damaged_text file.now line) }
    ensures err { OnErr result (Lengthens out.old out.new) }
{
    out.append(b"store-damaged ")?;
    out.append(file)?;
    out.append(b" ")?;
    append_number(out, u64::from(line))?;
    out.append(b"\n")
}

#[tactic(auto, unfolding(crate::specs::Answers::question_text))]
pub(crate) fn append_question(
    out: &mut Bytes,
    number: u32,
    client: &[u8],
    user: &[u8],
    privilege: &[u8],
    kind: Kind,
    metadata: &[u8],
) -> Result<(), AllocError>
    ensures ok { OnOk result (out.new ≡ out.old ++ question_text
        number client.now user.now privilege.now (ruling kind.0 metadata.now)) }
    ensures err { OnErr result (Lengthens out.old out.new) }
{
    out.append(b"question ")?;
    append_number(out, u64::from(number))?;
    out.append(b" ")?;
    append_key(out, client, user, privilege)?;
    out.append(b" ")?;
    append_result(out, kind, metadata)?;
    out.append(b"\n")
}

#[tactic(auto, unfolding(crate::specs::Answers::taken_text))]
pub(crate) fn append_taken(out: &mut Bytes, kind: Kind) -> Result<(), AllocError>
    ensures ok { OnOk result (out.new ≡ out.old ++ taken_text kind.0) }
    ensures err { OnErr result (Lengthens out.old out.new) }
{
    out.append(b"taken ")?;
    append_number(out, u64::from(kind.0))?;
    out.append(b"\n")
}

#[tactic(auto, unfolding(crate::specs::Answers::too_long_text))]
pub(crate) fn append_too_long(out: &mut Bytes, length: u64) -> Result<(), AllocError>
    ensures ok { OnOk result (out.new ≡ out.old ++ too_long_text length) }
    ensures err { OnErr result (Lengthens out.old out.new) }
{
    out.append(b"fault too-long ")?;
    append_number(out, length)?;
    out.append(b"\n")
}

/// The two numbers that a line ends with.
fn append_last_numbers(out: &mut Bytes, first: u64, second: u32) -> Result<(), AllocError>
    ensures ok { OnOk result (out.new ≡ out.old ++ (decimal first ++ (codes " " ++ (decimal second ++ codes "\n")))) }
    ensures err { OnErr result (Lengthens out.old out.new) }
{
    append_number(out, first)?;
    out.append(b" ")?;
    append_number(out, u64::from(second))?;
    out.append(b"\n")
}
