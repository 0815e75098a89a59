// A save: the calls on the disk that bring a store at rest from one set of files to the next.
ghost use Rattle.std.specs.Prelude.{◌≡◌, true, map, List, Option, Some, OnOk};
ghost use Rattle.desk_ports.specs.declared.file_sets.SetFile.{SetFile};
ghost use Rattle.desk_ports.specs.PortFault.{count_after_call};
ghost use Rattle.desk_ports.specs.FileMap.{names_of};
ghost use Rattle.desk_ports.specs.Disk.{DiskState, WhereTold};
ghost use Rattle.desk_ports.specs.Moments.{AddsOnly, LeavesOnly};
ghost use Rattle.guard_files.specs.OwnName.{guard_name, list_name, backup_name};
ghost use Rattle.guard_files.specs.ListFile.{saved_list, are_listable};
ghost use Rattle.guard_files.specs.Telling.{StillTells};
ghost use Rattle.guard_files.specs.Settled.{IsSettled, gone_names, IsInSave, EndsSettled};

use crate::steps::{drop_backups, lower_guard, raise_guard, save_backups, save_primaries};
use crate::store_names::StoreNames;
use desk_ports::{Disk, Failed, FileName, SetFile};

/// Makes the calls of a save, in this order: the backups of the next set and of its list, a sync, the guard, a sync;
/// the primaries that go are removed, those of the next set and their list are written, a sync; the guard is removed,
/// a sync; the backups are removed. The names of the backups and the bytes of the list are given. Takes no memory.
pub fn save_set<D: Disk>(
    disk: &mut D,
    names: &StoreNames,
    set: &[SetFile],
    backups: &[FileName],
    gone: &[FileName],
    list: &[u8],
) -> Result<(), Failed>
    requires backups { backups.now ≡ map backup_name (names_of set.now) }
    requires list { list.now ≡ saved_list (names_of set.now) }
    requires listable { are_listable (names_of set.now) ≡ true }

    // From a store at rest it ends with a store at rest that holds the next set.
    ensures done { OnOk result (WhereTold (D.state disk.old) (λ before. (held : Option (List SetFile))
        → IsSettled held before → gone.now ≡ gone_names held set.now
        → EndsSettled set.now (D.state disk.new))) }

    // A stop at any moment leaves the set before or the set after.
    ensures moments { WhereTold (D.state disk.old) (λ before. (held : Option (List SetFile)) → IsSettled held before
        → gone.now ≡ gone_names held set.now
        → LeavesOnly D.moment D.left_since disk.old disk.new (IsInSave before held set.now)) }
    ensures tells { StillTells (D.state disk.old) (D.state disk.new) }
    ensures count { D.faults disk.new ≡ count_after_call result (D.faults disk.old) }
{
    save_backups(disk, backups, set, &names.list_backup, list)?;
    raise_guard(disk, &names.guard)?;
    save_primaries(disk, gone, set, &names.list, list)?;
    lower_guard(disk, &names.guard)?;
    drop_backups(disk, &names.list_backup, backups)?;
    Ok(())
}
