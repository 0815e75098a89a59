// The policies of a bucket.
ghost use Rattle.std.specs.Prelude.{◌≡◌, ℕ, List, IfSome};
ghost use Rattle.ctl_import.specs.Fields.{row_text};
ghost use Rattle.ctl_import.specs.Rows as word;

use crate::fields::{Ruling, field_before, ruling_in};
use crate::headings::{Heading, has_bucket, heading_of};
use ctl_text::{put, put_bucket, put_kind};
use cynara_keys::{Kind, field_fault, is_metadata};
use desk_ports::Bytes;
use std::alloc::AllocError;

/// A policy as a data base has it.
#[derive(Clone, Copy)]
pub(crate) struct Row<'a> {
    pub client: &'a [u8],
    pub user: &'a [u8],
    pub privilege: &'a [u8],
    pub ruling: Ruling<'a>,
}

/// Why a policy is left out.
#[derive(Clone, Copy, Debug, PartialEq, Eq)]
pub(crate) enum Reason {
    /// A text of its key is empty, too long, or has a space or another byte that a name may not have.
    Key,
    /// Its result is `none`.
    None,
    /// It points to a bucket that is not there.
    Bucket,
    /// The metadata for its agent are too long, or have a byte that they may not have.
    Metadata,
}

/// `CLIENT;USER;PRIVILEGE;KIND;METADATA`
pub(crate) fn row_in(line: &[u8]) -> Option<Row<'_>>
    ensures { IfSome result (λ row. (kind : List ℕ) × (line.now ≡ row_text kind row)) }
{
    let (client, rest) = field_before(line)?;
    let (user, rest) = field_before(rest)?;
    let (privilege, rest) = field_before(rest)?;
    let ruling = ruling_in(rest)?;
    Some(Row {
        client,
        user,
        privilege,
        ruling,
    })
}

/// Why the policy cannot stand in a script, if it cannot.
pub(crate) fn reason_against(row: &Row<'_>, headings: &[Heading]) -> Option<Reason>
    ensures { result ≡ word.reason_against headings.now row.now }
{
    if !is_key(row) {
        return Some(Reason::Key);
    }
    result_against(&row.ruling, headings)
}

// What stands against the result.
fn result_against(ruling: &Ruling<'_>, headings: &[Heading]) -> Option<Reason>
    ensures { result ≡ word.result_against headings.now ruling.now }
{
    if ruling.kind == Kind::NONE {
        return Some(Reason::None);
    }
    if ruling.kind == Kind::BUCKET && !has_bucket(headings, ruling.metadata) {
        return Some(Reason::Bucket);
    }
    if ruling.kind.is_agent() && !is_metadata(ruling.metadata) {
        return Some(Reason::Metadata);
    }
    None
}

fn is_key(row: &Row<'_>) -> bool
    ensures { result ≡ word.is_key row.now }
{
    field_fault(row.client).is_none()
        && (field_fault(row.user).is_none() && field_fault(row.privilege).is_none())
}

/// Appends ` CLIENT USER PRIVILEGE RESULT` and a newline.
pub(crate) fn put_row(
    out: &mut Bytes,
    row: &Row<'_>,
    headings: &[Heading],
) -> Result<(), AllocError> {
    put(out, " ")?;
    out.append(row.client)?;
    put(out, " ")?;
    out.append(row.user)?;
    put(out, " ")?;
    out.append(row.privilege)?;
    put(out, " ")?;
    put_ruling(out, &row.ruling, headings)?;
    put(out, "\n")
}

/// Appends the result, as a script writes it.
pub(crate) fn put_ruling(
    out: &mut Bytes,
    ruling: &Ruling<'_>,
    headings: &[Heading],
) -> Result<(), AllocError> {
    if ruling.kind == Kind::BUCKET {
        put(out, "bucket:")?;
        if let Some(target) = heading_of(headings, ruling.metadata) {
            return put_bucket(out, target.given.as_slice());
        }
        return Ok(());
    }
    put_kind(out, ruling.kind)?;
    if ruling.kind.is_agent() {
        put(out, ":")?;
        return out.append(ruling.metadata);
    }
    Ok(())
}
