// Lists of fields, verdicts and installs, read from the front of what is left of a frame.
ghost use Rattle.std.specs.Prelude.{None};
ghost use Rattle.wire_fields.specs.Left.{Gives};
ghost use Rattle.wire_fields.specs.Format as format;
ghost use Rattle.wire_fields.specs.Field as field;
ghost use Rattle.std.specs.Option.{option_copied};

use app_registry::{Install, NameSet};
use bucket_store::{Change, Changes};
use cynara_keys::Name;
use std::alloc::Global;
use wire_fields::readers::{
    author, bucket, bucket_text, flag, ident, key, key_field_text, name, ruling, ruling_text, scope,
};
use wire_fields::{BorrowedRow, Fields, PackedVerdict, WireRefusal};

/// Reads one change of a batch: a policy that is set in a bucket, or the key of one that is deleted there.
pub fn change(alloc: Global, fields: &mut Fields) -> Result<Change, WireRefusal>
    ensures { Gives result fields.new (field.change.read fields.old) }
{
    let sets = flag(fields)?;
    let bucket = bucket(alloc, fields)?;
    let key = key(alloc, fields)?;
    if !sets {
        return Ok(Change::Delete { bucket, key });
    }
    let result = ruling(alloc, fields)?;
    Ok(Change::Set {
        bucket,
        key,
        result,
    })
}

/// So many changes. Takes memory for those alone that are there.
pub fn changes(alloc: Global, count: u32, fields: &mut Fields) -> Result<Changes, WireRefusal>
    ensures { Gives result fields.new (format.each field.change count fields.old) }
{
    let mut list = Vec::new(alloc);
    for _ in 0..count {
        list.push(change(alloc, fields)?)?;
    }
    Ok(Changes::of(list))
}

/// So many names that rise. Takes memory for those alone that are there.
pub fn rising_names(alloc: Global, count: u32, fields: &mut Fields) -> Result<NameSet, WireRefusal>
    ensures { Gives result fields.new (field.rising_names None count fields.old) }
{
    let mut names: Vec<Name> = Vec::new(alloc);
    for _ in 0..count {
        let name = name_behind(alloc, names.last(), fields)?;
        names.push(name)?;
    }
    Ok(NameSet::of(names)?)
}

// A name behind another, if there is one.
fn name_behind(alloc: Global, last: Option<&Name>, fields: &mut Fields) -> Result<Name, WireRefusal>
    ensures { Gives result fields.new
        ((format.tested (field.comes_after (option_copied last.entry)) field.name).read fields.old) }
{
    let place = fields.place();
    let name = name(alloc, fields)?;
    if let Some(last) = last
        && *last >= name
    {
        return Err(WireRefusal::BadField(place));
    }
    Ok(name)
}

/// An install into a package of this kind.
pub fn install(alloc: Global, hybrid: bool, fields: &mut Fields) -> Result<Install, WireRefusal>
    ensures { Gives result fields.new ((field.install hybrid).read fields.old) }
{
    let package = ident(alloc, fields)?;
    let author = author(alloc, fields)?;
    let app = ident(alloc, fields)?;
    let scope = scope(fields)?;
    let count = fields.number4()?;
    let privileges = rising_names(alloc, count, fields)?;
    Ok(Install {
        package,
        author,
        app,
        scope,
        privileges,
        hybrid,
    })
}

/// Reads a verdict: the commit, the result, the bucket, and the key of the policy that decided, where one did.
pub fn verdict(alloc: Global, fields: &mut Fields) -> Result<PackedVerdict, WireRefusal>
    ensures { Gives result fields.new (field.verdict.read fields.old) }
{
    let commit = fields.number8()?;
    let ruling = ruling_text(fields)?;
    let bucket = bucket_text(fields)?;
    let row = optional_row(fields)?;
    PackedVerdict::of(alloc, commit, &ruling, bucket, row).map_err(WireRefusal::Memory)
}

fn optional_row<'a>(fields: &mut Fields<'a>) -> Result<Option<BorrowedRow<'a>>, WireRefusal>
    ensures { Gives result fields.new ((field.optional field.row).read fields.old) }
{
    if flag(fields)? {
        Ok(Some(row(fields)?))
    } else {
        Ok(None)
    }
}

fn row<'a>(fields: &mut Fields<'a>) -> Result<BorrowedRow<'a>, WireRefusal>
    ensures { Gives result fields.new (field.row.read fields.old) }
{
    let client = key_field_text(fields)?;
    let user = key_field_text(fields)?;
    let privilege = key_field_text(fields)?;
    Ok(BorrowedRow::of(client, user, privilege))
}
