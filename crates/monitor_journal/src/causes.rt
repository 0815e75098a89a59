// When, by whom and why a check was decided, as text. Where memory runs out, a front of a text may stand at the end.
ghost use Rattle.std.specs.Prelude.{◌≡◌, ◌++◌, Some, OnOk, OnErr};
ghost use Rattle.monitor_journal.specs.Lines.{by_text, bucket_text, row_text, cause_text, decided_text};
ghost use Rattle.monitor_journal.specs.parts.Appending.{Lengthens};

use crate::entry_lines::append_names;
use crate::numbers::{append_number, append_time};
use bucket_eval::{Cause, Row};
use cynara_keys::Kind;
use desk_ports::Bytes;
use monitor_rule::Moment;
use std::alloc::AllocError;

/// Appends `TIME BY` and the cause, and ends the line.
#[tactic(auto, unfolding(crate::specs::Lines::decided_text))]
pub(crate) fn append_decided(
    out: &mut Bytes,
    time: Option<Moment>,
    agent: Option<Kind>,
    cause: &Cause,
) -> Result<(), AllocError>
    ensures ok { OnOk result (out.new ≡ out.old ++ decided_text time agent cause.now) }
    ensures err { OnErr result (Lengthens out.old out.new) }
{
    append_time(out, time)?;
    out.append(b" ")?;
    append_by(out, agent)?;
    out.append(b" ")?;
    append_cause(out, cause)
}

fn append_by(out: &mut Bytes, agent: Option<Kind>) -> Result<(), AllocError>
    ensures ok { OnOk result (out.new ≡ out.old ++ by_text agent) }
    ensures err { OnErr result (Lengthens out.old out.new) }
{
    match agent {
        Some(kind) => append_agent(out, kind),
        None => out.append(b"policy"),
    }
}

fn append_agent(out: &mut Bytes, kind: Kind) -> Result<(), AllocError>
    ensures ok { OnOk result (out.new ≡ out.old ++ by_text (Some kind)) }
    ensures err { OnErr result (Lengthens out.old out.new) }
{
    out.append(b"agent:")?;
    append_number(out, u64::from(kind.0))
}

#[tactic(auto, unfolding(crate::specs::Lines::cause_text))]
fn append_cause(out: &mut Bytes, cause: &Cause) -> Result<(), AllocError>
    ensures ok { OnOk result (out.new ≡ out.old ++ cause_text cause.now) }
    ensures err { OnErr result (Lengthens out.old out.new) }
{
    append_bucket(out, cause.bucket.as_slice())?;
    out.append(b" ")?;
    append_row(out, &cause.row)?;
    out.append(b"\n")
}

fn append_bucket(out: &mut Bytes, name: &[u8]) -> Result<(), AllocError>
    ensures ok { OnOk result (out.new ≡ out.old ++ bucket_text name.now) }
    ensures err { OnErr result (Lengthens out.old out.new) }
{
    if name.is_empty() {
        return out.append(b".");
    }
    out.append(name)
}

fn append_row(out: &mut Bytes, row: &Option<Row>) -> Result<(), AllocError>
    ensures ok { OnOk result (out.new ≡ out.old ++ row_text row.now) }
    ensures err { OnErr result (Lengthens out.old out.new) }
{
    match row {
        Some(row) => append_names(
            out,
            row.client.as_slice(),
            row.user.as_slice(),
            row.privilege.as_slice(),
        ),
        None => out.append(b"default"),
    }
}
