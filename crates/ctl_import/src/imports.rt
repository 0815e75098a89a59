// The script.
ghost use Rattle.std.specs.Prelude.{IfOk, OnOk};
ghost use Rattle.ctl_import.specs.Rows as word;
ghost use Rattle.ctl_import.specs.LeftOut.{TellsLeftOut, IsLeftOut};

use crate::faults::ImportFault;
use crate::fields::Ruling;
use crate::headings::{Heading, headings_in};
use crate::policies::{Reason, Row, put_row, put_ruling, reason_against, row_in};
use ctl_text::{put, put_bucket, put_json, put_number};
use cynara_keys::{Kind, is_metadata};
use desk_ports::Bytes;
use std::alloc::{AllocError, Global};
use text_lines::split_line;

/// The most changes of one command. So many fit into one message to a service.
const MOST_CHANGES: u32 = 500;

/// The most bytes of a line that a comment shows.
const MOST_SHOWN_BYTES: usize = 1_000;

/// A script that grows bucket by bucket.
#[derive(Drop)]
pub struct Import {
    alloc: Global,
    headings: Vec<Heading>,
    text: Bytes,
}

impl Import {
    /// The script of the buckets in the file `buckets`, without a policy.
    pub fn begin(alloc: Global, buckets: &[u8]) -> Result<Import, ImportFault> {
        let headings = headings_in(alloc, buckets)?;
        let mut text = Bytes::new(alloc);
        put(&mut text, "# policies of Cynara\n")?;
        for heading in &headings {
            put_heading(&mut text, heading)?;
        }
        Ok(Import {
            alloc,
            headings,
            text,
        })
    }

    /// The buckets, in the order of their lines.
    pub fn headings(&self) -> &[Heading] {
        &self.headings
    }

    /// The script with the policies of the bucket at this place behind it, which are those of its file.
    pub fn add(&mut self, place: usize, file: &[u8]) -> Result<(), ImportFault> {
        let Some(heading) = self.headings.get(place) else {
            return Ok(());
        };
        put_policies(self.alloc, &mut self.text, heading, &self.headings, file)
    }

    /// The script so far.
    pub fn text(&self) -> &[u8] {
        self.text.as_slice()
    }
}

// The line that makes a bucket. Where its name or its fallback is another one, a comment says so.
fn put_heading(out: &mut Bytes, heading: &Heading) -> Result<(), AllocError> {
    if heading.name.as_slice() != heading.given.as_slice() {
        put(out, "# renamed: the bucket ")?;
        put_json(out, front_of(heading.name.as_slice()))?;
        put(out, " is ")?;
        out.append(heading.given.as_slice())?;
        put(out, " here, since a device may not have its name\n")?;
    }
    let ruling = Ruling {
        kind: heading.kind,
        metadata: heading.metadata.as_slice(),
    };
    let may_be = is_fallback(heading, &ruling);
    if !may_be {
        put(
            out,
            "# left out: the fallback of the next bucket, which a device cannot keep\n",
        )?;
    }
    put(out, "bucket ")?;
    put_bucket(out, heading.given.as_slice())?;
    put(out, " ")?;
    if may_be {
        put_ruling(out, &ruling, &[])?;
    } else {
        put(out, "deny")?;
    }
    put(out, "\n")
}

// Whether a bucket may have the fallback. The root may not have `none`, no bucket another bucket.
fn is_fallback(heading: &Heading, ruling: &Ruling<'_>) -> bool {
    if ruling.kind == Kind::BUCKET {
        return false;
    }
    if ruling.kind == Kind::NONE && heading.name.as_slice().is_empty() {
        return false;
    }
    !ruling.kind.is_agent() || is_metadata(ruling.metadata)
}

// The policies of a file, so many in one command.
fn put_policies(
    alloc: Global,
    out: &mut Bytes,
    heading: &Heading,
    headings: &[Heading],
    file: &[u8],
) -> Result<(), ImportFault> {
    let mut count = 0u32;
    let mut number = 0u32;
    let mut rest = file;
    while let Some((line, behind)) = split_line(rest) {
        number = number.saturating_add(1);
        let Some(row) = row_in(line) else {
            return Err(ImportFault::Line(number));
        };
        count = put_policy(alloc, out, heading, headings, &row, line, number, count)?;
        rest = behind;
    }
    if count > 0 {
        put(out, "end\n")?;
    }
    Ok(())
}

// A policy, behind so many of its command, or why it is left out. How many the command has then.
fn put_policy(
    alloc: Global,
    out: &mut Bytes,
    heading: &Heading,
    headings: &[Heading],
    row: &Row<'_>,
    line: &[u8],
    number: u32,
    count: u32,
) -> Result<u32, AllocError>
    ensures told { IfOk result
        (λ more. IsLeftOut (word.reason_against headings.now row.now) count more out.old out.new) }
{
    if let Some(reason) = reason_against(row, headings) {
        put_left_out(alloc, out, heading, line, number, reason)?;
        return Ok(count);
    }
    if count == 0 {
        put(out, "batch\n")?;
    }
    put_loss(out, row)?;
    put(out, "set ")?;
    put_bucket(out, heading.given.as_slice())?;
    put_row(out, row, headings)?;
    let more = count.saturating_add(1);
    if more >= MOST_CHANGES {
        put(out, "end\n")?;
        return Ok(0);
    }
    Ok(more)
}

// Tells that metadata is lost: a device keeps them for agents alone.
fn put_loss(out: &mut Bytes, row: &Row<'_>) -> Result<(), AllocError> {
    let kind = row.ruling.kind;
    if kind == Kind::BUCKET || kind.is_agent() || row.ruling.metadata.is_empty() {
        return Ok(());
    }
    put(out, "# left out: the metadata ")?;
    put_json(out, front_of(row.ruling.metadata))?;
    put(out, " of the next policy\n")
}

// Tells in a comment that a policy is left out, and why.
fn put_left_out(
    alloc: Global,
    out: &mut Bytes,
    heading: &Heading,
    line: &[u8],
    number: u32,
    reason: Reason,
) -> Result<(), AllocError>
    ensures { OnOk result (TellsLeftOut out.old out.new) }
{
    let policy = policy_left_out(alloc, heading, line, number, reason)?;
    put(out, "# left out: ")?;
    out.append(policy.as_slice())
}

// The policy of a line, and the reason.
fn policy_left_out(
    alloc: Global,
    heading: &Heading,
    line: &[u8],
    number: u32,
    reason: Reason,
) -> Result<Bytes, AllocError> {
    let mut out = Bytes::new(alloc);
    put(&mut out, "line ")?;
    put_number(&mut out, u64::from(number))?;
    put(&mut out, " of ")?;
    put_json_name(&mut out, heading)?;
    put(&mut out, ": ")?;
    put_json(&mut out, front_of(line))?;
    put(&mut out, text_of(reason))?;
    Ok(out)
}

// As much of a line as a comment shows.
fn front_of(line: &[u8]) -> &[u8] {
    if line.len() <= MOST_SHOWN_BYTES {
        return line;
    }
    let (front, _) = line.split_at(MOST_SHOWN_BYTES);
    front
}

// The name of the bucket's file.
fn put_json_name(out: &mut Bytes, heading: &Heading) -> Result<(), AllocError> {
    put(out, "_")?;
    if heading.name.as_slice().is_empty() {
        return Ok(());
    }
    put_json(out, front_of(heading.name.as_slice()))
}

fn text_of(reason: Reason) -> &'static str {
    match reason {
        Reason::Key => ", whose key has a text that is no name\n",
        Reason::None => ", whose result is none: it decides there, and has no say here\n",
        Reason::Bucket => ", which points to a bucket that is not there\n",
        Reason::Metadata => ", whose metadata an agent cannot be given here\n",
    }
}
