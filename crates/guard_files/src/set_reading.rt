// The set that a folder holds, read from its backups or from its primaries.
ghost use Rattle.std.specs.Prelude.{◌≡◌, true, IfSome, [], ◌∷◌, ◌++◌, Ok, Err, IsSome, IfOk, IfErr, OnOk};
ghost use Rattle.std.specs.List.{list_all};
ghost use Rattle.desk_ports.specs.FileMap.{names_of};
ghost use Rattle.desk_ports.specs.Disk.{WhereTold, KeepsState, MayLeave, Reads};
ghost use Rattle.desk_ports.specs.Moments.{AddsOnly};
ghost use Rattle.guard_files.specs.OwnName.{is_listable, list_name};
ghost use Rattle.guard_files.specs.ListFile.{are_listable, is_old_list};
ghost use Rattle.guard_files.specs.Recovery.{files_at};
ghost use Rattle.guard_files.specs.Mounted.{IfDamaged, count_after_mount, placed, set_read};

use crate::list_files::backup_of;
use crate::list_reading::{has_version, read_list};
use crate::refusals::{VaultRefusal, refusal_of};
use crate::store_names::StoreNames;
use desk_ports::{Bytes, Disk, FileName, FileSet, SetFile};
use std::alloc::{AllocError, Global};

/// Reads a file of a set, or its backup. One disk call.
pub fn read_placed<D: Disk>(
    alloc: Global,
    disk: &mut D,
    guarded: bool,
    name: &FileName,
) -> Result<Option<Bytes>, VaultRefusal>
    requires { is_listable name.now ≡ true }
    ensures content { IfOk result (λ content. Reads (D.state disk.old) (placed guarded name.now) content) }
    ensures undamaged { IfErr result (λ refusal. IfDamaged refusal (λ file. ⊥)) }
    ensures kept { KeepsState (D.state disk.old) (D.state disk.new) }
    ensures moments { WhereTold (D.state disk.old)
        (λ before. AddsOnly D.moment D.left_since disk.old disk.new (MayLeave before)) }
    ensures count { D.faults disk.new ≡ count_after_mount result (D.faults disk.old) }
{
    if guarded {
        let backup = match backup_of(alloc, name) {
            Ok(backup) => backup,
            Err(error) => return Err(VaultRefusal::Memory(error)),
        };
        match disk.read(&backup) {
            Ok(content) => Ok(content),
            Err(fault) => Err(refusal_of(fault)),
        }
    } else {
        match disk.read(name) {
            Ok(content) => Ok(content),
            Err(fault) => Err(refusal_of(fault)),
        }
    }
}

/// Reads the files of these names, or their backups. One disk call for each, up to the first that is absent.
pub fn read_files<D: Disk>(
    alloc: Global,
    disk: &mut D,
    guarded: bool,
    list: &[FileName],
) -> Result<Vec<SetFile>, VaultRefusal>
    requires { list_all is_listable list.now ≡ true }
    ensures named { IfOk result (λ files. names_of files.items ≡ list.now) }
    ensures read { IfOk result (λ files. WhereTold (D.state disk.old)
        (λ before. files_at (placed guarded) before.current list.now ≡ Ok files.items)) }
    ensures damaged { IfErr result (λ refusal. IfDamaged refusal (λ file. WhereTold (D.state disk.old)
        (λ before. files_at (placed guarded) before.current list.now ≡ Err file))) }
    ensures kept { KeepsState (D.state disk.old) (D.state disk.new) }
    ensures moments { WhereTold (D.state disk.old)
        (λ before. AddsOnly D.moment D.left_since disk.old disk.new (MayLeave before)) }
    ensures count { D.faults disk.new ≡ count_after_mount result (D.faults disk.old) }
{
    let mut files = Vec::new(alloc);
    for name in list {
        let content = match read_placed(alloc, disk, guarded, name) {
            Ok(content) => content,
            Err(refusal) => return Err(refusal),
        };
        let copy = match name.copy() {
            Ok(copy) => copy,
            Err(error) => return Err(VaultRefusal::Memory(error)),
        };
        let Some(bytes) = content else {
            return Err(VaultRefusal::Damaged { file: copy });
        };
        if let Err(error) = push_file(&mut files, SetFile { name: copy, bytes }) {
            return Err(VaultRefusal::Memory(error));
        }
    }
    Ok(files)
}

fn push_file(files: &mut Vec<SetFile>, file: SetFile) -> Result<(), AllocError>
    ensures { OnOk result (files.new.items ≡ files.old.items ++ file ∷ []) }
{
    files.push(file)?;
    Ok(())
}

// Reads the list, or its backup. One disk call.
fn list_content<D: Disk>(
    disk: &mut D,
    names: &StoreNames,
    guarded: bool,
) -> Result<Option<Bytes>, VaultRefusal>
    ensures content { IfOk result (λ content. Reads (D.state disk.old) (placed guarded list_name) content) }
    ensures undamaged { IfErr result (λ refusal. IfDamaged refusal (λ file. ⊥)) }
    ensures kept { KeepsState (D.state disk.old) (D.state disk.new) }
    ensures moments { WhereTold (D.state disk.old)
        (λ before. AddsOnly D.moment D.left_since disk.old disk.new (MayLeave before)) }
    ensures count { D.faults disk.new ≡ count_after_mount result (D.faults disk.old) }
{
    if guarded {
        match disk.read(&names.list_backup) {
            Ok(content) => Ok(content),
            Err(fault) => Err(refusal_of(fault)),
        }
    } else {
        match disk.read(&names.list) {
            Ok(content) => Ok(content),
            Err(fault) => Err(refusal_of(fault)),
        }
    }
}

// The name of the list, or of its backup.
fn list_file(names: &StoreNames, guarded: bool) -> Result<FileName, AllocError>
    ensures { IfOk result (λ name. name ≡ placed guarded list_name) }
{
    if guarded {
        names.list_backup.copy()
    } else {
        names.list.copy()
    }
}

/// The set that was read, or none, and whether the list that named it was of version 1.
#[derive(Debug, Drop)]
pub struct Found {
    pub held: Option<FileSet>,
    pub is_old: bool,
}

/// Reads the set of the backups where the guard stands, else that of the primaries. One disk call for the list file,
/// and one for each file that it names, up to the first that is absent.
pub fn read_set<D: Disk>(
    alloc: Global,
    disk: &mut D,
    names: &StoreNames,
    guarded: bool,
) -> Result<Found, VaultRefusal>
    ensures some { IfOk result (λ found. guarded ≡ true → IsSome found.held) }
    ensures old { IfOk result (λ found. found.is_old ≡ true → IsSome found.held) }
    ensures listable { IfOk result (λ found. IfSome found.held (λ set. are_listable (names_of set) ≡ true)) }
    ensures read { IfOk result (λ found. WhereTold (D.state disk.old)
        (λ before. set_read guarded before.current ≡ Ok found.held)) }
    ensures version { IfOk result (λ found. WhereTold (D.state disk.old)
        (λ before. found.is_old ≡ is_old_list (before.current (placed guarded list_name)))) }
    ensures damaged { IfErr result (λ refusal. IfDamaged refusal (λ file. WhereTold (D.state disk.old)
        (λ before. set_read guarded before.current ≡ Err file))) }
    ensures kept { KeepsState (D.state disk.old) (D.state disk.new) }
    ensures moments { WhereTold (D.state disk.old)
        (λ before. AddsOnly D.moment D.left_since disk.old disk.new (MayLeave before)) }
    ensures count { D.faults disk.new ≡ count_after_mount result (D.faults disk.old) }
{
    let file = match list_file(names, guarded) {
        Ok(file) => file,
        Err(error) => return Err(VaultRefusal::Memory(error)),
    };
    let content = match list_content(disk, names, guarded) {
        Ok(content) => content,
        Err(refusal) => return Err(refusal),
    };
    let Some(bytes) = content else {
        if guarded {
            return Err(VaultRefusal::Damaged { file });
        }
        return Ok(Found {
            held: None,
            is_old: false,
        });
    };
    let read = match read_list(alloc, bytes.as_slice()) {
        Ok(read) => read,
        Err(error) => return Err(VaultRefusal::Memory(error)),
    };
    let Some(list) = read else {
        return Err(VaultRefusal::Damaged { file });
    };
    match read_files(alloc, disk, guarded, &list) {
        Ok(files) => Ok(Found {
            held: Some(FileSet::of(files)),
            is_old: !has_version(bytes.as_slice()),
        }),
        Err(refusal) => Err(refusal),
    }
}
