// Lists of fields, verdicts, installs and refusals, appended to a frame.
ghost use Rattle.std.specs.Prelude.{◌∷◌, []};
ghost use Rattle.wire_fields.specs.Format as format;
ghost use Rattle.wire_fields.specs.Field as field;
ghost use Rattle.wire_fields.specs.Refused as refused;
ghost use Rattle.wire_fields.specs.Appended.{Appended};

use crate::writers::{
    put_author, put_bucket, put_ident, put_key, put_kind_and_metadata, put_name, put_ruling,
    put_scope,
};
use app_registry::Install;
use bucket_store::Change;
use cynara_keys::{Counted, Name};
use desk_ports::Bytes;
use desk_state::Refusal;
use std::alloc::AllocError;
use wire_fields::plain_writers::{put_count, put_text, put1, put1_and_text, put8};
use wire_fields::{BorrowedRow, PackedVerdict};

/// Puts one change of a batch.
pub fn put_change(out: &mut Bytes, change: &Change) -> Result<(), AllocError>
    ensures { Appended result out.old out.new (field.change.spelled change.now) }
{
    match change {
        Change::Set {
            bucket,
            key,
            result: ruling,
        } => {
            put1_and_text(out, 1, bucket.as_slice())?;
            put_key(out, key)?;
            put_ruling(out, ruling)
        }
        Change::Delete { bucket, key } => {
            put1_and_text(out, 0, bucket.as_slice())?;
            put_key(out, key)
        }
    }
}

/// Puts the changes of a batch behind their count, which has four bytes.
pub fn put_changes(out: &mut Bytes, changes: &[Change]) -> Result<(), AllocError>
    ensures { Appended result out.old out.new ((format.counted field.change).spelled changes.now) }
{
    put_count(out, changes.len())?;
    for change in changes {
        put_change(out, change)?;
    }
    Ok(())
}

/// Puts the names of privileges behind their count, which has four bytes.
pub fn put_names(out: &mut Bytes, names: &[Name]) -> Result<(), AllocError>
    ensures { Appended result out.old out.new (field.privileges.spelled names.now) }
{
    put_count(out, names.len())?;
    for name in names {
        put_name(out, name)?;
    }
    Ok(())
}

/// An install without the kind of its package, which the operation tells.
pub fn put_install(out: &mut Bytes, install: &Install) -> Result<(), AllocError>
    ensures { Appended result out.old out.new ((field.install install.now.hybrid).spelled install.now) }
{
    put_ident(out, &install.package)?;
    put_author(out, &install.author)?;
    put_ident(out, &install.app)?;
    put_scope(out, install.scope)?;
    put_names(out, install.privileges.as_slice())
}

/// Puts a verdict: the commit, the result, the bucket, and the key of the policy that decided, where one did.
pub fn put_verdict(out: &mut Bytes, verdict: &PackedVerdict) -> Result<(), AllocError>
    ensures { Appended result out.old out.new (field.verdict.spelled verdict.now) }
{
    put8(out, verdict.commit())?;
    put_kind_and_metadata(out, verdict.kind(), verdict.metadata())?;
    put_text(out, verdict.bucket())?;
    put_optional_row(out, &verdict.row())
}

/// Puts a flag and, where there is a key, the key behind it.
pub fn put_optional_row(out: &mut Bytes, row: &Option<BorrowedRow<'_>>) -> Result<(), AllocError>
    ensures { Appended result out.old out.new ((field.optional field.row).spelled row.now) }
{
    match row {
        None => put1(out, 0),
        Some(row) => {
            put1_and_text(out, 1, row.client())?;
            put_text(out, row.user())?;
            put_text(out, row.privilege())
        }
    }
}

/// A refusal that is not want of memory.
pub fn put_refusal(out: &mut Bytes, refusal: &Refusal) -> Result<(), AllocError>
    ensures { Appended result out.old out.new (refused.refusal_spelled refusal.now) }
{
    match refusal {
        Refusal::Reserved(name) => {
            put1(out, 1)?;
            put_bucket(out, name)?;
            put8(out, 0)
        }
        Refusal::LayoutThere => put_plain(out, 2),
        Refusal::NoLayout => put_plain(out, 3),
        Refusal::NoBucket(name) => {
            put1(out, 4)?;
            put_bucket(out, name)?;
            put8(out, 0)
        }
        Refusal::RootBucket => put_plain(out, 5),
        Refusal::BadKind(kind) => put_number(out, 6, u64::from(kind.0)),
        Refusal::UnknownUser(uid) => put_number(out, 7, u64::from(*uid)),
        Refusal::OtherPackage(name) => {
            put1(out, 8)?;
            put_ident(out, name)?;
            put8(out, 0)
        }
        Refusal::OtherAuthor(author) => {
            put1(out, 9)?;
            put_author(out, author)?;
            put8(out, 0)
        }
        Refusal::OtherHybrid(hybrid) => put_number(out, 14, u64::from(*hybrid)),
        Refusal::NotInstalled => put_plain(out, 10),
        Refusal::Limit(counted, limit) => {
            put1(out, 11)?;
            put_counted(out, *counted)?;
            put8(out, *limit)
        }
        Refusal::Cycle(name) => {
            put1(out, 12)?;
            put_bucket(out, name)?;
            put8(out, 0)
        }
        Refusal::Memory(_) => Ok(()),
    }
}

// a rule without text and value
fn put_plain(out: &mut Bytes, rule: u8) -> Result<(), AllocError>
    ensures { Appended result out.old out.new (rule ∷ refused.plain.spelled ([], 0)) }
{
    put_number(out, rule, 0)
}

// a rule with a value alone
fn put_number(out: &mut Bytes, rule: u8, value: u64) -> Result<(), AllocError>
    ensures { Appended result out.old out.new (rule ∷ refused.plain.spelled ([], value)) }
{
    put1(out, rule)?;
    put_text(out, b"")?;
    put8(out, value)
}

fn put_counted(out: &mut Bytes, counted: Counted) -> Result<(), AllocError>
    ensures { Appended result out.old out.new (refused.which.spelled counted) }
{
    match counted {
        Counted::Commits => put_text(out, b"commits"),
        Counted::Users => put_text(out, b"users"),
        Counted::Packages => put_text(out, b"packages"),
        Counted::Installs => put_text(out, b"installs"),
        Counted::Grants => put_text(out, b"grants"),
        Counted::Buckets => put_text(out, b"buckets"),
        Counted::Policies => put_text(out, b"policies"),
    }
}
