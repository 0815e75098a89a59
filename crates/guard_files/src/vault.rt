ghost use Rattle.std.specs.Prelude.{◌≡◌, true, false, Some, Ok, Err, IfOk, IfErr, OnOk, OnErr};
ghost use Rattle.std.specs.Option.{option_copied};
ghost use Rattle.std.specs.List.{AllPass};
ghost use Rattle.desk_ports.specs.Faults.{next_count};
ghost use Rattle.desk_ports.specs.FileMap.{names_of};
ghost use Rattle.desk_ports.specs.Disk.{WhereTold, MayLeave, with_all_durable};
ghost use Rattle.desk_ports.specs.Moments.{AddsOnly, LeavesOnly};
ghost use Rattle.guard_files.specs.OwnName.{is_listable};
ghost use Rattle.guard_files.specs.Telling.{StillTells};
ghost use Rattle.guard_files.specs.Recovery.{recover};
ghost use Rattle.guard_files.specs.Mounted.{IfDamaged, count_after_mount, IsFound, WhereFound, StandsFor, EndsAtRest};
ghost use Rattle.guard_files.specs.Settled.{IsSettled, gone_names, IsInSave, EndsSettled};

use crate::mounted::Mounted;
use crate::prepared::Prepared;
use crate::refusals::VaultRefusal;
use crate::settling::settle;
use crate::store_names::StoreNames;
use crate::survey::Survey;
use crate::surveying::look;
use desk_ports::{Disk, FileSet};
use std::alloc::{AllocError, Global};
use thiserror::Error;

/// A save failed: a call of the disk did, and its count of faults rose. The vault is undecided until it is settled.
#[derive(Clone, Copy, Debug, PartialEq, Eq, Error)]
#[error("the disk failed in a save")]
pub struct StoreFault;

/// An atomic store for a set of files in a folder. It replaces the whole set at once: a stop at any moment leaves the
/// set before or the set after. Clauses see its disk, the set that it holds, and whether it is decided which set that
/// is.
#[derive(Drop)]
pub struct Vault<'d, D: Disk> {
    disk: &'d mut D,
    alloc: Global,
    names: StoreNames,
    held: Option<FileSet>,
    decided: bool,
}

impl<'d, D: Disk> Vault<'d, D> {
    /// The vault over a disk that `settle` brought to rest with this set, and which no other call was made on since.
    /// Takes no memory.
    pub fn of(alloc: Global, disk: &'d mut D, found: Mounted) -> Vault<'d, D>
        ensures decided { result.decided ≡ true }
        ensures held { result.held ≡ found }
        ensures disk { result.disk.now ≡ disk.old }
        ensures same_disk { result.disk.ghost_name ≡ disk.entry.ghost_name }
    {
        let Mounted { names, held } = found;
        Vault {
            disk,
            alloc,
            names,
            held,
            decided: true,
        }
    }

    /// Finds what the store holds, as the function `look` does, from whatever state. The vault is undecided then.
    pub fn look(&mut self) -> Result<Survey, VaultRefusal>
        ensures undecided { self.new.decided ≡ false }
        ensures held { IfOk result (λ found. WhereTold (D.state self.old.disk.now)
            (λ before. recover before.current ≡ Ok found.held)) }
        ensures found { IfOk result (λ found. WhereTold (D.state self.old.disk.now) (λ before.
            (D.state self.new.disk.now ≡ Some (with_all_durable before)) × IsFound before.current found)) }
        ensures damaged { IfErr result (λ refusal. IfDamaged refusal (λ file. WhereTold (D.state self.old.disk.now)
            (λ before. (recover before.current ≡ Err file)
            × (D.state self.new.disk.now ≡ Some (with_all_durable before))))) }
        ensures moments { WhereTold (D.state self.old.disk.now)
            (λ before. LeavesOnly D.moment D.left_since self.old.disk.now self.new.disk.now (MayLeave before)) }
        ensures tells { StillTells (D.state self.old.disk.now) (D.state self.new.disk.now) }
        ensures count { D.faults self.new.disk.now ≡ count_after_mount result (D.faults self.old.disk.now) }
        ensures same_disk { self.new.disk.ghost_name ≡ self.old.disk.ghost_name }
    {
        self.decided = false;
        match look(self.alloc, self.disk) {
            Ok(found) => Ok(found),
            Err(refusal) => Err(refusal),
        }
    }

    /// Settles what `look` found, as the function `settle` does, where no other call was made on the disk since. A
    /// refusal leaves the vault undecided.
    pub fn settle(&mut self, found: Survey) -> Result<(), VaultRefusal>
        ensures decided { OnOk result (self.new.decided ≡ true) }
        ensures undecided { OnErr result (self.new.decided ≡ false) }
        ensures held { OnOk result (self.new.held ≡ found.held) }
        ensures settled { OnOk result (WhereFound (D.state self.old.disk.now) found
            (λ base. EndsAtRest found.held (D.state self.new.disk.now))) }
        ensures undamaged { IfErr result (λ refusal. IfDamaged refusal (λ file. ⊥)) }
        ensures moments { WhereFound (D.state self.old.disk.now) found
            (λ base. AddsOnly D.moment D.left_since self.old.disk.now self.new.disk.now
            (StandsFor base.current found.held)) }
        ensures tells { StillTells (D.state self.old.disk.now) (D.state self.new.disk.now) }
        ensures count { D.faults self.new.disk.now ≡ count_after_mount result (D.faults self.old.disk.now) }
        ensures same_disk { self.new.disk.ghost_name ≡ self.old.disk.ghost_name }
    {
        self.decided = false;
        match settle(self.alloc, self.disk, found) {
            Ok(mounted) => {
                let Mounted { names, held } = mounted;
                self.names = names;
                self.held = held;
                self.decided = true;
                Ok(())
            }
            Err(refusal) => Err(refusal),
        }
    }

    /// Whether it is decided which set the store holds. After a failed save only `look` and `settle` may be called.
    pub fn is_decided(&self) -> bool
        ensures { result ≡ self.now.decided }
    {
        self.decided
    }

    /// Gives the disk back, as it stands. A caller that lent it knows it again by this alone.
    pub fn into_disk(self) -> &'d mut D
        ensures disk { result.now ≡ self.entry.disk.now }
        ensures same_disk { result.ghost_name ≡ self.entry.disk.ghost_name }
    {
        self.disk
    }

    /// The set that the store holds, or nothing where it holds none.
    pub fn held(&self) -> Option<&FileSet>
        requires { self.now.decided ≡ true }
        ensures { option_copied result ≡ self.now.held }
    {
        self.held.as_ref()
    }

    /// What a save of this set needs. The names of the set may stand in a list.
    pub fn prepare(&self, set: FileSet) -> Result<Prepared, AllocError>
        requires decided { self.now.decided ≡ true }
        requires listable { AllPass is_listable (names_of set) }
        ensures set { IfOk result (λ prepared. prepared.set ≡ set) }
        ensures gone { IfOk result (λ prepared. prepared.gone ≡ gone_names self.now.held set) }
    {
        Prepared::new(self.alloc, &self.held, set)
    }

    /// Replaces the held set by the prepared one, by the calls of `save_set`. Takes no memory. After `StoreFault` the
    /// vault is undecided.
    pub fn replace(&mut self, prepared: Prepared) -> Result<(), StoreFault>
        requires decided { self.old.decided ≡ true }
        requires prepared { prepared.gone ≡ gone_names self.old.held prepared.set }

        ensures held { OnOk result (self.new.held ≡ Some prepared.set) }
        ensures decided { OnOk result (self.new.decided ≡ true) }
        ensures undecided { OnErr result (self.new.decided ≡ false) }

        // From a store at rest, as a mount and a replacement leave it, it ends with a store at rest that
        // holds the new set, and a stop at any moment of the call leaves the set before or the set after.
        ensures settled { OnOk result (WhereTold (D.state self.old.disk.now) (λ before. IsSettled self.old.held before
            → EndsSettled prepared.set (D.state self.new.disk.now))) }
        ensures moments { WhereTold (D.state self.old.disk.now) (λ before. IsSettled self.old.held before
            → LeavesOnly D.moment D.left_since self.old.disk.now self.new.disk.now (IsInSave before self.old.held
            prepared.set)) }

        // A disk that told its state tells it behind the call, also where it failed.
        ensures tells { StillTells (D.state self.old.disk.now) (D.state self.new.disk.now) }

        // It fails only where a call of the disk did, once.
        ensures count { OnOk result (D.faults self.new.disk.now ≡ D.faults self.old.disk.now) }
        ensures cause { OnErr result (D.faults self.new.disk.now ≡ next_count (D.faults self.old.disk.now)) }
        ensures same_disk { self.new.disk.ghost_name ≡ self.old.disk.ghost_name }
    {
        self.decided = false;
        let Ok(set) = prepared.save(self.disk, &self.names) else {
            return Err(StoreFault);
        };
        self.held = Some(set);
        self.decided = true;
        Ok(())
    }
}
