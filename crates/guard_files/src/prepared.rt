ghost use Rattle.std.specs.Prelude.{◌≡◌, true, List, Option, Some, IfOk, OnOk};
ghost use Rattle.desk_ports.specs.declared.file_sets.SetFile.{SetFile};
ghost use Rattle.desk_ports.specs.PortFault.{count_after_call};
ghost use Rattle.desk_ports.specs.Disk.{WhereTold};
ghost use Rattle.desk_ports.specs.Moments.{LeavesOnly};
ghost use Rattle.std.specs.List.{AllPass};
ghost use Rattle.desk_ports.specs.FileMap.{NamesRise, names_of};
ghost use Rattle.guard_files.specs.OwnName.{is_listable};
ghost use Rattle.guard_files.specs.ListFile.{are_listable};
ghost use Rattle.guard_files.specs.Telling.{StillTells};
ghost use Rattle.guard_files.specs.Settled.{IsSettled, gone_names, IsInSave, EndsSettled};

use crate::list_files::{backups_of, list_bytes, names_without};
use crate::save::save_set;
use crate::store_names::StoreNames;
use desk_ports::{Bytes, Disk, Failed, FileName, FileSet};
use std::alloc::{AllocError, Global};
use std::marker::Model;

/// The next set, with all that a save of it needs beside the disk: the names of its backups, the bytes of its list, and
/// the names that it takes away.
#[derive(Debug, Drop)]
pub struct Prepared {
    set: FileSet,
    gone: Vec<FileName>,
    backups: Vec<FileName>,
    list: Bytes,
}

impl Model for Prepared {
    ghost use Rattle.guard_files.specs.Settled.{Save};
    ghost use Rattle.guard_files.specs.parts.Prepared.{IsPrepared};

    ghost Value = { Save };

    ghost view = { λ prepared. record { set = prepared.set; gone = prepared.gone.items } };

    ghost invariant = { λ prepared. IsPrepared prepared.set prepared.backups.items prepared.list };
}

impl Prepared {
    /// What a save of this set needs where the other one is held. The names of the set may stand in a list.
    pub fn new(alloc: Global, held: &Option<FileSet>, set: FileSet) -> Result<Prepared, AllocError>
        requires { AllPass is_listable (names_of set) }
        ensures set { IfOk result (λ prepared. prepared.set ≡ set) }
        ensures gone { IfOk result (λ prepared. prepared.gone ≡ gone_names held.now set) }
    {
        let gone = gone_of(alloc, held, &set)?;
        let backups = backups_of(alloc, set.as_slice())?;
        let list = list_bytes(alloc, set.as_slice())?;
        Ok(Prepared {
            set,
            gone,
            backups,
            list,
        })
    }
}

impl Prepared {
    /// Makes the calls of the save, and gives back the set. Takes no memory. The clauses are those of `save_set`.
    pub fn save<D: Disk>(self, disk: &mut D, names: &StoreNames) -> Result<FileSet, Failed>
        ensures set { IfOk result (λ set. set ≡ self.set) }
        ensures done { OnOk result (WhereTold (D.state disk.old) (λ before. (held : Option (List SetFile))
            → IsSettled held before → self.gone ≡ gone_names held self.set
            → EndsSettled self.set (D.state disk.new))) }
        ensures moments { WhereTold (D.state disk.old) (λ before. (held : Option (List SetFile))
            → IsSettled held before → self.gone ≡ gone_names held self.set
            → LeavesOnly D.moment D.left_since disk.old disk.new (IsInSave before held self.set)) }
        ensures tells { StillTells (D.state disk.old) (D.state disk.new) }
        ensures count { D.faults disk.new ≡ count_after_call result (D.faults disk.old) }
    {
        let Prepared {
            set,
            gone,
            backups,
            list,
        } = self;
        save_set(
            disk,
            names,
            set.as_slice(),
            &backups,
            &gone,
            list.as_slice(),
        )?;
        Ok(set)
    }
}

fn gone_of(
    alloc: Global,
    held: &Option<FileSet>,
    set: &FileSet,
) -> Result<Vec<FileName>, AllocError>
    ensures { IfOk result (λ gone. gone.items ≡ gone_names held.now set.now) }
{
    match held {
        Some(files) => names_without(alloc, files.as_slice(), set),
        None => Ok(Vec::new(alloc)),
    }
}
