// The line of JSON.
use crate::statuses::{ALLOWED, DENIED, UNDECIDED};
use crate::whys::why_undecided;
use bucket_eval::Verdict;
use ctl_text::{put, put_json, put_json_field, put_number};
use cynara_client::{Checked, ClientRefusal};
use cynara_keys::Question;
use desk_ports::Bytes;
use std::alloc::{AllocError, Global};

/// One line of JSON: the question, the status and its word, and what decided, or why nothing did.
pub(crate) fn object_of(
    alloc: Global,
    question: &Question,
    answer: &Result<Checked, ClientRefusal>,
    status: u8,
) -> Result<Bytes, AllocError> {
    let mut out = Bytes::new(alloc);
    put(&mut out, "{\"client\":")?;
    put_json(&mut out, question.client())?;
    put_json_field(&mut out, "user", question.user())?;
    put_json_field(&mut out, "privilege", question.privilege())?;
    put_number_field(&mut out, "status", u64::from(status))?;
    put_json_field(&mut out, "answer", word_of(status).as_bytes())?;
    match answer {
        Ok(Checked::Judged(verdict)) => put_verdict(&mut out, verdict)?,
        Ok(
            Checked::FromAgent {
                commit,
                kind,
                number,
                ..
            },
        ) => {
            put_number_field(&mut out, "commit", *commit)?;
            put_number_field(&mut out, "agent", u64::from(kind.0))?;
            put_number_field(&mut out, "question", u64::from(*number))?;
        }
        Err(refusal) => put_refusal(alloc, &mut out, refusal)?,
    }
    put(&mut out, "}\n")?;
    Ok(out)
}

// The word of a status.
fn word_of(status: u8) -> &'static str {
    match status {
        ALLOWED => "allow",
        DENIED => "deny",
        UNDECIDED => "undecided",
        _ => "not asked",
    }
}

fn put_number_field(out: &mut Bytes, name: &str, number: u64) -> Result<(), AllocError> {
    put(out, ",")?;
    put_json(out, name.as_bytes())?;
    put(out, ":")?;
    put_number(out, number)
}

fn put_verdict(out: &mut Bytes, verdict: &Verdict) -> Result<(), AllocError> {
    let cause = &verdict.answer.cause;
    put_number_field(out, "commit", verdict.commit)?;
    put_json_field(out, "bucket", cause.bucket.as_slice())?;
    let Some(row) = &cause.row else {
        return put(out, ",\"policy\":null");
    };
    put(out, ",\"policy\":{\"client\":")?;
    put_json(out, row.client.as_slice())?;
    put_json_field(out, "user", row.user.as_slice())?;
    put_json_field(out, "privilege", row.privilege.as_slice())?;
    put(out, "}")
}

fn put_refusal(alloc: Global, out: &mut Bytes, refusal: &ClientRefusal) -> Result<(), AllocError> {
    if let Some((commit, _)) = why_undecided(refusal) {
        put_number_field(out, "commit", commit)?;
    }
    let why = format!(in alloc; "{refusal}")?;
    put_json_field(out, "why", why.as_bytes())
}
