// The list of a set's files, as bytes and as names.
ghost use Rattle.std.specs.Prelude.{◌≡◌, true, map, filter, not, IfOk};
ghost use Rattle.desk_ports.specs.FileMap.{names_of, NamesRise};
ghost use Rattle.guard_files.specs.OwnName.{backup_name, is_listable as may_stand};
ghost use Rattle.guard_files.specs.ListFile.{saved_list, are_listable};
ghost use Rattle.guard_files.specs.Holding.{is_among};

use crate::store_names::fixed_name;
use desk_ports::{Bytes, FileName, FileSet, SetFile};
use std::alloc::{AllocError, Global};

/// What a list of version 2 begins with.
pub const VERSION_LINE: &[u8] = b"version 2\n";

/// The bytes of the list of these files, which is of version 2: its first line, and then their names in order, each with
/// a newline behind it.
pub fn list_bytes(alloc: Global, files: &[SetFile]) -> Result<Bytes, AllocError>
    ensures { IfOk result (λ bytes. bytes ≡ saved_list (names_of files.now)) }
{
    let mut bytes = Bytes::new(alloc);
    bytes.append(VERSION_LINE)?;
    for file in files {
        bytes.append(file.name.as_slice())?;
        bytes.append(b"\n")?;
    }
    Ok(bytes)
}

/// The name of the backup of a file that may stand in a list.
pub fn backup_of(alloc: Global, name: &FileName) -> Result<FileName, AllocError>
    requires { may_stand name.now ≡ true }
    ensures { IfOk result (λ backup. backup ≡ backup_name name.now) }
{
    let mut bytes = Bytes::new(alloc);
    bytes.append(name.as_slice())?;
    bytes.append(b"~")?;
    fixed_name(alloc, bytes.as_slice())
}

/// The names of the backups of these files, in their order.
pub fn backups_of(alloc: Global, files: &[SetFile]) -> Result<Vec<FileName>, AllocError>
    requires { are_listable (names_of files.now) ≡ true }
    ensures { IfOk result (λ backups. backups.items ≡ map backup_name (names_of files.now)) }
{
    let mut backups = Vec::new(alloc);
    for file in files {
        backups.push(backup_of(alloc, &file.name)?)?;
    }
    Ok(backups)
}

fn has_name_in(files: &[SetFile], name: &FileName) -> bool
    requires { NamesRise (names_of files.now) }
    ensures { result ≡ is_among (names_of files.now) name.now }
{
    files.binary_search_by(|file| file.name.cmp(name)).is_ok()
}

/// Whether a file of the set has this name.
pub fn has_name(set: &FileSet, name: &FileName) -> bool
    ensures { result ≡ is_among (names_of set.now) name.now }
{
    has_name_in(set.as_slice(), name)
}

/// The names of the files that the set has not, in their order.
pub fn names_without(
    alloc: Global,
    files: &[SetFile],
    set: &FileSet,
) -> Result<Vec<FileName>, AllocError>
    ensures { IfOk result (λ names. names.items ≡ filter
        (λ name. not (is_among (names_of set.now) name)) (names_of files.now)) }
{
    let mut names = Vec::new(alloc);
    for file in files {
        if !has_name(set, &file.name) {
            names.push(file.name.copy()?)?;
        }
    }
    Ok(names)
}
