// What is read from a disk after the calls of a record.
ghost use Rattle.std.specs.Prelude.{◌≡◌, ℕ, List, true, false, if◌then◌else◌, find, is_some, IfOk, OnOk};
ghost use Rattle.desk_ports.specs.DiskCalls.{after_calls};
ghost use Rattle.desk_ports.specs.DiskContent.{content_after};
ghost use Rattle.desk_ports.specs.FileMap.{map_of};
ghost use Rattle.desk_ports.specs.parts.NamesHeld.{has_name, is_held_after};
ghost use Rattle.std.specs.Option.{option_copied};
ghost use Rattle.std.specs.Str.{bytes_eq};

use crate::{Bytes, DiskCall, FileName, RecordedCall, SetFile};
use std::alloc::{AllocError, Global};
use std::collections::BTreeSet;

/// What is read at the name after the calls, from these files on.
pub(crate) fn content_of<'a>(
    files: &'a [SetFile],
    calls: &'a [RecordedCall],
    name: &FileName,
) -> Option<&'a Bytes>
    ensures { option_copied result ≡ (after_calls files.now calls.now).current name.now }
{
    let mut content = first_content(files, name);
    for made in calls {
        content = next_content(made, name, content);
    }
    content
}

// What the files hold at the name.
fn first_content<'a>(files: &'a [SetFile], name: &FileName) -> Option<&'a Bytes>
    ensures { option_copied result ≡ map_of files.now name.now }
{
    match file_of(files, name) {
        Some(file) => Some(&file.bytes),
        None => None,
    }
}

// The first file of the name.
fn file_of<'a>(files: &'a [SetFile], name: &FileName) -> Option<&'a SetFile>
    ensures { option_copied result ≡ find (λ file. bytes_eq file.name name.now) files.now }
{
    files.iter().find(|file| file.name == *name)
}

// What the name holds after one call more.
fn next_content<'a>(
    made: &'a RecordedCall,
    name: &FileName,
    content: Option<&'a Bytes>,
) -> Option<&'a Bytes>
    ensures { option_copied result ≡ content_after made.now name.now (option_copied content.entry) }
{
    if !made.is_done {
        return content;
    }
    match &made.call {
        DiskCall::Write(file) if file.name == *name => Some(&file.bytes),
        DiskCall::Remove(removed) if *removed == *name => None,
        _ => content,
    }
}

/// The names that have a file after the calls, from these files on.
pub(crate) fn held_names(
    alloc: Global,
    files: &[SetFile],
    calls: &[RecordedCall],
) -> Result<BTreeSet<FileName>, AllocError>
    ensures { IfOk result (λ names. (name : List ℕ)
        → has_name names name ≡ is_some ((after_calls files.now calls.now).current name)) }
{
    let mut names = first_names(alloc, files)?;
    for made in calls {
        follow_name(&mut names, made)?;
    }
    Ok(names)
}

// The names of the files.
fn first_names(alloc: Global, files: &[SetFile]) -> Result<BTreeSet<FileName>, AllocError>
    ensures { IfOk result (λ names. (name : List ℕ)
        → has_name names name ≡ is_some (map_of files.now name)) }
{
    let mut names = BTreeSet::new(alloc);
    for file in files {
        put_name(&mut names, &file.name)?;
    }
    Ok(names)
}

// Follows what one call more does to the names that have a file.
fn follow_name(names: &mut BTreeSet<FileName>, made: &RecordedCall) -> Result<(), AllocError>
    ensures { OnOk result ((name : List ℕ)
        → has_name names.new name ≡ is_held_after made.now name (has_name names.old name)) }
{
    if !made.is_done {
        return Ok(());
    }
    match &made.call {
        DiskCall::Write(file) => put_name(names, &file.name),
        DiskCall::Remove(removed) => {
            drop_name(names, removed);
            Ok(())
        }
        DiskCall::Names | DiskCall::Read(_) | DiskCall::Sync => Ok(()),
    }
}

/// Adds the name.
pub(crate) fn put_name(names: &mut BTreeSet<FileName>, name: &FileName) -> Result<(), AllocError>
    ensures { OnOk result ((other : List ℕ)
        → has_name names.new other ≡ (if bytes_eq name.now other then true else has_name names.old other)) }
{
    names.insert(name.copy()?)?;
    Ok(())
}

fn drop_name(names: &mut BTreeSet<FileName>, name: &FileName)
    ensures { (other : List ℕ)
        → has_name names.new other ≡ (if bytes_eq name.now other then false else has_name names.old other) }
{
    names.remove(name);
}
