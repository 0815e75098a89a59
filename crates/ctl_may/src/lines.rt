// The line of an answer.
use crate::whys::why_undecided;
use bucket_eval::Verdict;
use ctl_text::{put, put_bucket, put_number, put_outcome};
use cynara_client::{Checked, ClientRefusal};
use cynara_keys::Kind;
use desk_ports::Bytes;
use std::alloc::{AllocError, Global};

/// The line of the answer. It is empty where the question was not asked.
pub(crate) fn line_of(
    alloc: Global,
    answer: &Result<Checked, ClientRefusal>,
) -> Result<Bytes, AllocError> {
    let mut out = Bytes::new(alloc);
    match answer {
        Ok(Checked::Judged(verdict)) => put_verdict(&mut out, verdict)?,
        Ok(
            Checked::FromAgent {
                commit,
                kind,
                number,
                allowed,
            },
        ) => put_agents(&mut out, *commit, *kind, *number, *allowed)?,
        Err(refusal) => put_refusal(&mut out, refusal)?,
    }
    Ok(out)
}

fn put_verdict(out: &mut Bytes, verdict: &Verdict) -> Result<(), AllocError> {
    let answer = &verdict.answer;
    put_outcome(out, answer.kind, answer.metadata.as_slice())?;
    put(out, " at commit ")?;
    put_number(out, verdict.commit)?;
    match &answer.cause.row {
        Some(row) => {
            put(out, ", by a policy of ")?;
            put_bucket(out, answer.cause.bucket.as_slice())?;
            put(out, ": ")?;
            out.append(row.client.as_slice())?;
            put(out, " ")?;
            out.append(row.user.as_slice())?;
            put(out, " ")?;
            out.append(row.privilege.as_slice())?;
        }
        None => {
            put(out, ", by the fallback of ")?;
            put_bucket(out, answer.cause.bucket.as_slice())?;
        }
    }
    put(out, "\n")
}

fn put_agents(
    out: &mut Bytes,
    commit: u64,
    kind: Kind,
    number: u32,
    allowed: bool,
) -> Result<(), AllocError> {
    put(out, if allowed { "allow" } else { "deny" })?;
    put(out, " at commit ")?;
    put_number(out, commit)?;
    put(out, ", by the agent of kind ")?;
    put_number(out, u64::from(kind.0))?;
    put(out, ", asked question ")?;
    put_number(out, u64::from(number))?;
    put(out, "\n")
}

fn put_refusal(out: &mut Bytes, refusal: &ClientRefusal) -> Result<(), AllocError> {
    let Some((commit, why)) = why_undecided(refusal) else {
        return Ok(());
    };
    put(out, "nobody decided at commit ")?;
    put_number(out, commit)?;
    put(out, ": ")?;
    put(out, why)?;
    put(out, "\n")
}
