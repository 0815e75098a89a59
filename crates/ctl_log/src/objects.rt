// Lines of JSON.
use crate::entries::{Cause, Decider, Entry, LogLine};
use ctl_text::{put, put_json, put_json_field};
use desk_ports::Bytes;
use std::alloc::AllocError;

/// Appends a line of JSON for the line of a log, which has these bytes.
pub(crate) fn put_object(
    out: &mut Bytes,
    line: &LogLine<'_>,
    bytes: &[u8],
) -> Result<(), AllocError> {
    match line {
        LogLine::Check(entry) => put_entry(out, entry),
        LogLine::Missed { worker, count } => {
            put(out, "{\"worker\":")?;
            out.append(worker)?;
            put_plain_field(out, "missed", count)?;
            put(out, "}\n")
        }
        LogLine::Other => {
            put(out, "{\"line\":")?;
            put_json(out, bytes)?;
            put(out, "}\n")
        }
    }
}

fn put_entry(out: &mut Bytes, entry: &Entry<'_>) -> Result<(), AllocError> {
    put(out, "{\"worker\":")?;
    out.append(entry.worker)?;
    put_plain_field(out, "number", entry.number)?;
    let decision = &entry.decision;
    put_json_field(out, "result", decision.result)?;
    put_plain_field(out, "commit", decision.commit)?;
    put_json_field(out, "client", decision.client)?;
    put_json_field(out, "user", decision.user)?;
    put_json_field(out, "privilege", decision.privilege)?;
    if let Some(decider) = &entry.decider {
        put_decider(out, decider)?;
    }
    put(out, "}\n")
}

fn put_decider(out: &mut Bytes, decider: &Decider<'_>) -> Result<(), AllocError> {
    if decider.time == b"-".as_slice() {
        put(out, ",\"time\":null")?;
    } else {
        put_json_field(out, "time", decider.time)?;
    }
    put_json_field(out, "by", decider.by)?;
    put_cause(out, &decider.cause)
}

fn put_cause(out: &mut Bytes, cause: &Cause<'_>) -> Result<(), AllocError> {
    put_json_field(out, "bucket", cause.bucket)?;
    let Some(key) = &cause.key else {
        return put(out, ",\"policy\":null");
    };
    put(out, ",\"policy\":{\"client\":")?;
    put_json(out, key.client)?;
    put_json_field(out, "user", key.user)?;
    put_json_field(out, "privilege", key.privilege)?;
    put(out, "}")
}

// A field whose value is a number, in these digits.
fn put_plain_field(out: &mut Bytes, name: &str, digits: &[u8]) -> Result<(), AllocError> {
    put(out, ",")?;
    put_json(out, name.as_bytes())?;
    put(out, ":")?;
    out.append(digits)
}
