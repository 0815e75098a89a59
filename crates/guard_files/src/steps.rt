// The parts of a save and of a mount, each a row of calls on the disk in one order. A part that ends well leaves the
// state after exactly its changes; however it ends, a stop in it leaves no map that a stop after all of its changes
// may not leave.
ghost use Rattle.std.specs.Prelude.{◌≡◌, [], ◌∷◌, map, Some, OnOk};
ghost use Rattle.desk_ports.specs.PortFault.{count_after_call};
ghost use Rattle.desk_ports.specs.FileMap.{names_of};
ghost use Rattle.desk_ports.specs.Disk.{WhereTold, MayLeave, with_all_durable};
ghost use Rattle.desk_ports.specs.Moments.{AddsOnly};
ghost use Rattle.guard_files.specs.OwnName.{guard_name, list_name, primary_name, backup_name};
ghost use Rattle.guard_files.specs.ListFile.{saved_list};
ghost use Rattle.guard_files.specs.Telling.{StillTells};
ghost use Rattle.guard_files.specs.parts.Changes.{after, writes, removals, set_writes, primary_changes};
ghost use Rattle.guard_files.specs.parts.Changes.{guard_up, guard_down, backups_away};

use desk_ports::{Disk, Failed, FileName, SetFile};

/// Removes each file of these names, in their order. One disk call for each.
pub fn remove_files<D: Disk>(disk: &mut D, names: &[FileName]) -> Result<(), Failed>
    ensures done { OnOk result (WhereTold (D.state disk.old)
        (λ before. D.state disk.new ≡ Some (after (removals names.now) before))) }
    ensures moments { WhereTold (D.state disk.old)
        (λ before. AddsOnly D.moment D.left_since disk.old disk.new (MayLeave (after (removals names.now) before))) }
    ensures tells { StillTells (D.state disk.old) (D.state disk.new) }
    ensures count { D.faults disk.new ≡ count_after_call result (D.faults disk.old) }
{
    for name in names {
        disk.remove(name)?;
    }
    Ok(())
}

/// Writes each file of a set under its own name. One disk call for each.
pub fn write_primaries<D: Disk>(disk: &mut D, files: &[SetFile]) -> Result<(), Failed>
    ensures done { OnOk result (WhereTold (D.state disk.old)
        (λ before. D.state disk.new ≡ Some (after (writes primary_name files.now) before))) }
    ensures moments { WhereTold (D.state disk.old)
        (λ before. AddsOnly D.moment D.left_since disk.old disk.new (MayLeave
        (after (writes primary_name files.now) before))) }
    ensures tells { StillTells (D.state disk.old) (D.state disk.new) }
    ensures count { D.faults disk.new ≡ count_after_call result (D.faults disk.old) }
{
    for file in files {
        disk.write(&file.name, file.bytes.as_slice())?;
    }
    Ok(())
}

/// Writes the backup of each file of a set. The names are those of the backups, in the files' order. One disk call
/// for each.
pub fn write_backups<D: Disk>(
    disk: &mut D,
    names: &[FileName],
    files: &[SetFile],
) -> Result<(), Failed>
    requires { names.now ≡ map backup_name (names_of files.now) }
    ensures done { OnOk result (WhereTold (D.state disk.old)
        (λ before. D.state disk.new ≡ Some (after (writes backup_name files.now) before))) }
    ensures moments { WhereTold (D.state disk.old)
        (λ before. AddsOnly D.moment D.left_since disk.old disk.new (MayLeave
        (after (writes backup_name files.now) before))) }
    ensures tells { StillTells (D.state disk.old) (D.state disk.new) }
    ensures count { D.faults disk.new ≡ count_after_call result (D.faults disk.old) }
{
    for i in 0..files.len() {
        disk.write(&names[i], files[i].bytes.as_slice())?;
    }
    Ok(())
}

/// Writes the guard, and makes it durable. Two disk calls.
pub fn raise_guard<D: Disk>(disk: &mut D, guard: &FileName) -> Result<(), Failed>
    requires { guard.now ≡ guard_name }
    ensures done { OnOk result (WhereTold (D.state disk.old)
        (λ before. D.state disk.new ≡ Some (with_all_durable (after guard_up before)))) }
    ensures moments { WhereTold (D.state disk.old)
        (λ before. AddsOnly D.moment D.left_since disk.old disk.new (MayLeave (after guard_up before))) }
    ensures tells { StillTells (D.state disk.old) (D.state disk.new) }
    ensures count { D.faults disk.new ≡ count_after_call result (D.faults disk.old) }
{
    disk.write(guard, &[])?;
    disk.sync()
}

/// Removes the guard, and makes that durable. Two disk calls.
pub fn lower_guard<D: Disk>(disk: &mut D, guard: &FileName) -> Result<(), Failed>
    requires { guard.now ≡ guard_name }
    ensures done { OnOk result (WhereTold (D.state disk.old)
        (λ before. D.state disk.new ≡ Some (with_all_durable (after guard_down before)))) }
    ensures moments { WhereTold (D.state disk.old)
        (λ before. AddsOnly D.moment D.left_since disk.old disk.new (MayLeave (after guard_down before))) }
    ensures tells { StillTells (D.state disk.old) (D.state disk.new) }
    ensures count { D.faults disk.new ≡ count_after_call result (D.faults disk.old) }
{
    disk.remove(guard)?;
    disk.sync()
}

/// Writes the backup of each file of a set and then that of their list, and makes them durable: the first two steps
/// of a save.
pub fn save_backups<D: Disk>(
    disk: &mut D,
    backups: &[FileName],
    files: &[SetFile],
    list_backup: &FileName,
    list: &[u8],
) -> Result<(), Failed>
    requires names { backups.now ≡ map backup_name (names_of files.now) }
    requires list_name { list_backup.now ≡ backup_name list_name }
    requires list { list.now ≡ saved_list (names_of files.now) }
    ensures done { OnOk result (WhereTold (D.state disk.old)
        (λ before. D.state disk.new ≡ Some (with_all_durable (after (set_writes backup_name files.now) before)))) }
    ensures moments { WhereTold (D.state disk.old)
        (λ before. AddsOnly D.moment D.left_since disk.old disk.new (MayLeave
        (after (set_writes backup_name files.now) before))) }
    ensures tells { StillTells (D.state disk.old) (D.state disk.new) }
    ensures count { D.faults disk.new ≡ count_after_call result (D.faults disk.old) }
{
    write_backups(disk, backups, files)?;
    disk.write(list_backup, list)?;
    disk.sync()?;
    Ok(())
}

/// Removes the files that the set has not, writes each file of the set under its own name and then the list of their
/// names, and makes that durable: steps five and six of a save, and a part of a mount.
pub fn save_primaries<D: Disk>(
    disk: &mut D,
    gone: &[FileName],
    files: &[SetFile],
    list_file: &FileName,
    list: &[u8],
) -> Result<(), Failed>
    requires list_name { list_file.now ≡ list_name }
    requires list { list.now ≡ saved_list (names_of files.now) }
    ensures done { OnOk result (WhereTold (D.state disk.old)
        (λ before. D.state disk.new ≡ Some (with_all_durable (after (primary_changes gone.now files.now) before)))) }
    ensures moments { WhereTold (D.state disk.old)
        (λ before. AddsOnly D.moment D.left_since disk.old disk.new (MayLeave
        (after (primary_changes gone.now files.now) before))) }
    ensures tells { StillTells (D.state disk.old) (D.state disk.new) }
    ensures count { D.faults disk.new ≡ count_after_call result (D.faults disk.old) }
{
    remove_files(disk, gone)?;
    write_primaries(disk, files)?;
    disk.write(list_file, list)?;
    disk.sync()?;
    Ok(())
}

/// Removes the backup of the list and then that of each file: the last step of a save. No sync follows.
pub fn drop_backups<D: Disk>(
    disk: &mut D,
    list_backup: &FileName,
    backups: &[FileName],
) -> Result<(), Failed>
    requires { list_backup.now ≡ backup_name list_name }
    ensures done { OnOk result (WhereTold (D.state disk.old)
        (λ before. D.state disk.new ≡ Some (after (backups_away backups.now) before))) }
    ensures moments { WhereTold (D.state disk.old)
        (λ before. AddsOnly D.moment D.left_since disk.old disk.new (MayLeave
        (after (backups_away backups.now) before))) }
    ensures tells { StillTells (D.state disk.old) (D.state disk.new) }
    ensures count { D.faults disk.new ≡ count_after_call result (D.faults disk.old) }
{
    disk.remove(list_backup)?;
    remove_files(disk, backups)?;
    Ok(())
}
