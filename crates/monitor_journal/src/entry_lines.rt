// The lines that a run of `watch` writes: one for each check that was recorded, and at the end one for each worker with
// the count of its checks that were missed.
ghost use Rattle.std.specs.Prelude.{◌≡◌, ◌++◌, OnOk, OnErr};
ghost use Rattle.monitor_journal.specs.Lines.{decision_text, names_text, answer_text};
ghost use Rattle.monitor_journal.specs.Lines.{check_text, entry_text, missed_text};
ghost use Rattle.monitor_journal.specs.parts.Appending.{Lengthens};

use crate::causes::append_decided;
use crate::numbers::append_number;
use desk_ports::Bytes;
use monitor_rule::Entry;
use std::alloc::AllocError;

/// Appends the line of a check that was recorded, `monitor WORKER NUMBER RESULT COMMIT CLIENT USER PRIVILEGE TIME BY`
/// and the cause. Fails for want of memory alone, and has then appended nothing.
pub(crate) fn append_entry(out: &mut Bytes, entry: &Entry) -> Result<(), AllocError>
    ensures ok { OnOk result (out.new ≡ out.old ++ entry_text entry.now) }
    ensures err { OnErr result (out.new ≡ out.old) }
{
    let length = out.len();
    match append_all(out, entry) {
        Ok(()) => Ok(()),
        Err(error) => {
            out.truncate(length);
            Err(error)
        }
    }
}

/// Appends the line that says how many checks of a worker were missed, `missed WORKER COUNT`. Fails as `append_entry`
/// does.
pub(crate) fn append_missed(out: &mut Bytes, worker: u32, count: u64) -> Result<(), AllocError>
    ensures ok { OnOk result (out.new ≡ out.old ++ missed_text worker count) }
    ensures err { OnErr result (out.new ≡ out.old) }
{
    let length = out.len();
    match append_count(out, worker, count) {
        Ok(()) => Ok(()),
        Err(error) => {
            out.truncate(length);
            Err(error)
        }
    }
}

// Where memory runs out, a front of the line may stand at the end; so below.
#[tactic(auto, unfolding(crate::specs::Lines::entry_text))]
fn append_all(out: &mut Bytes, entry: &Entry) -> Result<(), AllocError>
    ensures ok { OnOk result (out.new ≡ out.old ++ entry_text entry.now) }
    ensures err { OnErr result (Lengthens out.old out.new) }
{
    out.append(b"monitor ")?;
    append_number(out, u64::from(entry.worker))?;
    out.append(b" ")?;
    append_number(out, entry.number)?;
    out.append(b" ")?;
    append_check(out, entry)
}

#[tactic(auto, unfolding(crate::specs::Lines::check_text))]
fn append_check(out: &mut Bytes, entry: &Entry) -> Result<(), AllocError>
    ensures ok { OnOk result (out.new ≡ out.old ++ check_text entry.now) }
    ensures err { OnErr result (Lengthens out.old out.new) }
{
    append_answer(out, entry)?;
    out.append(b" ")?;
    append_decided(out, entry.time, entry.agent, &entry.cause)
}

#[tactic(auto, unfolding(crate::specs::Lines::answer_text))]
fn append_answer(out: &mut Bytes, entry: &Entry) -> Result<(), AllocError>
    ensures ok { OnOk result (out.new ≡ out.old ++ answer_text
        entry.now.allowed entry.now.commit entry.now.client entry.now.user entry.now.privilege) }
    ensures err { OnErr result (Lengthens out.old out.new) }
{
    append_decision(out, entry.allowed)?;
    out.append(b" ")?;
    append_number(out, entry.commit)?;
    out.append(b" ")?;
    append_names(
        out,
        entry.client.as_slice(),
        entry.user.as_slice(),
        entry.privilege.as_slice(),
    )
}

#[tactic(auto, unfolding(crate::specs::Lines::names_text))]
pub(crate) fn append_names(
    out: &mut Bytes,
    client: &[u8],
    user: &[u8],
    privilege: &[u8],
) -> Result<(), AllocError>
    ensures ok { OnOk result (out.new ≡ out.old ++ names_text client.now user.now privilege.now) }
    ensures err { OnErr result (Lengthens out.old out.new) }
{
    out.append(client)?;
    out.append(b" ")?;
    out.append(user)?;
    out.append(b" ")?;
    out.append(privilege)
}

#[tactic(auto, unfolding(crate::specs::Lines::missed_text))]
fn append_count(out: &mut Bytes, worker: u32, count: u64) -> Result<(), AllocError>
    ensures ok { OnOk result (out.new ≡ out.old ++ missed_text worker count) }
    ensures err { OnErr result (Lengthens out.old out.new) }
{
    out.append(b"missed ")?;
    append_number(out, u64::from(worker))?;
    out.append(b" ")?;
    append_number(out, count)?;
    out.append(b"\n")
}

fn append_decision(out: &mut Bytes, allowed: bool) -> Result<(), AllocError>
    ensures ok { OnOk result (out.new ≡ out.old ++ decision_text allowed) }
    ensures err { OnErr result (Lengthens out.old out.new) }
{
    out.append(if allowed {
        b"allow".as_slice()
    } else {
        b"deny".as_slice()
    })
}
