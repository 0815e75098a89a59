// The second half of a mount: what a stop left a part of is made whole, and what is left over is removed.
ghost use Rattle.std.specs.Prelude.{◌≡◌, List, ℕ, true, map, filter, Some, None, Ok, IfOk, IfErr, OnOk};
ghost use Rattle.desk_ports.specs.FileMap.{FileMap, AreNamesOf, names_of};
ghost use Rattle.desk_ports.specs.PortFault.{count_after_call};
ghost use Rattle.desk_ports.specs.Disk.{DiskState, WhereTold, MayLeave, with_all_durable};
ghost use Rattle.desk_ports.specs.Moments.{AddsOnly};
ghost use Rattle.guard_files.specs.OwnName.{guard_name, backup_name};
ghost use Rattle.guard_files.specs.ListFile.{IsCurrent, are_listable, saved_list};
ghost use Rattle.guard_files.specs.Telling.{StillTells};
ghost use Rattle.guard_files.specs.Recovery.{backup_set, primary_set};
ghost use Rattle.guard_files.specs.Holding.{is_among};
ghost use Rattle.guard_files.specs.Mounted.{IfDamaged, count_after_mount, WhereFound, StandsFor, Rests, EndsAtRest};
ghost use Rattle.guard_files.specs.Mounted.{goes as does_go, is_left_over as left_over, set_names};
ghost use Rattle.guard_files.specs.parts.Changes.{after, removals, primary_changes, guard_down};

use crate::list_files::{backups_of, has_name, list_bytes};
use crate::mounted::Mounted;
use crate::own_names::{is_backup, is_guard, is_list, is_own};
use crate::refusals::VaultRefusal;
use crate::save::save_set;
use crate::steps::{lower_guard, remove_files, save_primaries};
use crate::store_names::StoreNames;
use crate::survey::Survey;
use desk_ports::{Disk, Failed, FileName, FileSet, SetFile};
use std::alloc::{AllocError, Global};

// Whether a set has a file of this name.
fn is_held(held: &Option<FileSet>, name: &FileName) -> bool
    ensures { result ≡ is_among (set_names held.now) name.now }
{
    match held {
        Some(files) => has_name(files, name),
        None => false,
    }
}

fn goes(held: &Option<FileSet>, name: &FileName) -> bool
    ensures { result ≡ does_go held.now name.now }
{
    let bytes = name.as_slice();
    (!is_backup(bytes) && !is_guard(bytes))
        && ((!is_list(bytes) && !is_held(held, name)) && is_own(bytes))
}

fn is_left_over(guarded: bool, held: &Option<FileSet>, name: &FileName) -> bool
    ensures { result ≡ left_over guarded held.now name.now }
{
    let bytes = name.as_slice();
    if guarded {
        is_backup(bytes) && is_own(bytes)
    } else {
        !is_guard(bytes) && ((!is_list(bytes) && !is_held(held, name)) && is_own(bytes))
    }
}

// The names that go before the primaries are written, in their order.
fn going(
    alloc: Global,
    held: &Option<FileSet>,
    names: &[FileName],
) -> Result<Vec<FileName>, AllocError>
    ensures { IfOk result (λ gone. gone.items ≡ filter (does_go held.now) names.now) }
{
    let mut gone = Vec::new(alloc);
    for name in names {
        if goes(held, name) {
            gone.push(name.copy()?)?;
        }
    }
    Ok(gone)
}

// The names that are left over at the end, in their order.
fn leftover(
    alloc: Global,
    guarded: bool,
    held: &Option<FileSet>,
    names: &[FileName],
) -> Result<Vec<FileName>, AllocError>
    ensures { IfOk result (λ rest. rest.items ≡ filter (left_over guarded held.now) names.now) }
{
    let mut rest = Vec::new(alloc);
    for name in names {
        if is_left_over(guarded, held, name) {
            rest.push(name.copy()?)?;
        }
    }
    Ok(rest)
}

// Removes these files, and makes that durable where there was one. All was durable before.
fn tidy<D: Disk>(disk: &mut D, rest: &[FileName]) -> Result<(), Failed>
    ensures done { OnOk result ((base : DiskState) → D.state disk.old ≡ Some (with_all_durable base)
        → D.state disk.new ≡ Some (with_all_durable (after (removals rest.now) (with_all_durable base)))) }
    ensures moments { WhereTold (D.state disk.old)
        (λ before. AddsOnly D.moment D.left_since disk.old disk.new (MayLeave (after (removals rest.now) before))) }
    ensures tells { StillTells (D.state disk.old) (D.state disk.new) }
    ensures count { D.faults disk.new ≡ count_after_call result (D.faults disk.old) }
{
    remove_files(disk, rest)?;
    if rest.is_empty() {
        return Ok(());
    }
    disk.sync()?;
    Ok(())
}

// Makes the primaries those of the set in the backups, and takes the guard away. All was durable before.
fn restore<D: Disk>(
    alloc: Global,
    disk: &mut D,
    names: &StoreNames,
    held: &Option<FileSet>,
    set: &FileSet,
    listing: &[FileName],
) -> Result<(), VaultRefusal>
    requires { held.now ≡ Some set.now }
    ensures done { OnOk result ((base : DiskState) → D.state disk.old ≡ Some (with_all_durable base)
        → D.state disk.new ≡ Some (with_all_durable
        (after guard_down (with_all_durable (after (primary_changes (filter (does_go
        (Some set.now)) listing.now) set.now) (with_all_durable base)))))) }
    ensures undamaged { IfErr result (λ refusal. IfDamaged refusal (λ file. ⊥)) }
    ensures moments { (base : DiskState) (bytes : List ℕ) → D.state disk.old ≡ Some (with_all_durable base)
        → base.current guard_name ≡ Some bytes
        → backup_set base.current ≡ Ok (Some set.now) → AddsOnly D.moment D.left_since disk.old disk.new
        (StandsFor base.current (Some set.now)) }
    ensures tells { StillTells (D.state disk.old) (D.state disk.new) }
    ensures count { D.faults disk.new ≡ count_after_mount result (D.faults disk.old) }
{
    let gone = match going(alloc, held, listing) {
        Ok(gone) => gone,
        Err(error) => return Err(VaultRefusal::Memory(error)),
    };
    let list = match list_bytes(alloc, set.as_slice()) {
        Ok(list) => list,
        Err(error) => return Err(VaultRefusal::Memory(error)),
    };
    match save_primaries(disk, &gone, set.as_slice(), &names.list, list.as_slice()) {
        Ok(()) => {}
        Err(_) => return Err(VaultRefusal::StoreFault),
    }
    match lower_guard(disk, &names.guard) {
        Ok(()) => Ok(()),
        Err(_) => Err(VaultRefusal::StoreFault),
    }
}

// Where the guard stood: the primaries are renewed from the backups, and what is left over is removed.
fn finish_guarded<D: Disk>(
    alloc: Global,
    disk: &mut D,
    names: &StoreNames,
    held: &Option<FileSet>,
    set: &FileSet,
    listing: &[FileName],
) -> Result<(), VaultRefusal>
    requires { held.now ≡ Some set.now }
    ensures done { OnOk result ((base : DiskState) (bytes : List ℕ) → D.state disk.old ≡ Some (with_all_durable base)
        → base.current guard_name ≡ Some bytes
        → backup_set base.current ≡ Ok (Some set.now) → AreNamesOf base.current listing.now
        → EndsAtRest (Some set.now) (D.state disk.new)) }
    ensures undamaged { IfErr result (λ refusal. IfDamaged refusal (λ file. ⊥)) }
    ensures moments { (base : DiskState) (bytes : List ℕ) → D.state disk.old ≡ Some (with_all_durable base)
        → base.current guard_name ≡ Some bytes
        → backup_set base.current ≡ Ok (Some set.now) → AreNamesOf base.current listing.now
        → AddsOnly D.moment D.left_since disk.old disk.new (StandsFor base.current (Some set.now)) }
    ensures tells { StillTells (D.state disk.old) (D.state disk.new) }
    ensures count { D.faults disk.new ≡ count_after_mount result (D.faults disk.old) }
{
    let rest = match leftover(alloc, true, held, listing) {
        Ok(rest) => rest,
        Err(error) => return Err(VaultRefusal::Memory(error)),
    };
    match restore(alloc, disk, names, held, set, listing) {
        Ok(()) => {}
        Err(refusal) => return Err(refusal),
    }
    match tidy(disk, &rest) {
        Ok(()) => Ok(()),
        Err(_) => Err(VaultRefusal::StoreFault),
    }
}

// Where no guard stood: what is left over is removed. The list stays as it is.
fn finish<D: Disk>(
    alloc: Global,
    disk: &mut D,
    held: &Option<FileSet>,
    listing: &[FileName],
) -> Result<(), VaultRefusal>
    ensures done { OnOk result ((base : DiskState) → D.state disk.old ≡ Some (with_all_durable base)
        → base.current guard_name ≡ None
        → primary_set base.current ≡ Ok held.now → AreNamesOf base.current listing.now
        → Rests base.current held.now (D.state disk.new)) }
    ensures current { OnOk result ((base : DiskState) → D.state disk.old ≡ Some (with_all_durable base)
        → base.current guard_name ≡ None
        → primary_set base.current ≡ Ok held.now → AreNamesOf base.current listing.now → IsCurrent base.current
        → EndsAtRest held.now (D.state disk.new)) }
    ensures undamaged { IfErr result (λ refusal. IfDamaged refusal (λ file. ⊥)) }
    ensures moments { (base : DiskState) → D.state disk.old ≡ Some (with_all_durable base)
        → base.current guard_name ≡ None
        → primary_set base.current ≡ Ok held.now → AreNamesOf base.current listing.now
        → AddsOnly D.moment D.left_since disk.old disk.new (StandsFor base.current held.now) }
    ensures tells { StillTells (D.state disk.old) (D.state disk.new) }
    ensures count { D.faults disk.new ≡ count_after_mount result (D.faults disk.old) }
{
    let rest = match leftover(alloc, false, held, listing) {
        Ok(rest) => rest,
        Err(error) => return Err(VaultRefusal::Memory(error)),
    };
    match tidy(disk, &rest) {
        Ok(()) => Ok(()),
        Err(_) => Err(VaultRefusal::StoreFault),
    }
}

// Saves the set that the store holds once more, so that its list is of version 2. A stop meanwhile leaves that set.
fn renew<D: Disk>(
    disk: &mut D,
    names: &StoreNames,
    set: &[SetFile],
    backups: &[FileName],
    list: &[u8],
) -> Result<(), Failed>
    requires backups { backups.now ≡ map backup_name (names_of set.now) }
    requires list { list.now ≡ saved_list (names_of set.now) }
    requires listable { are_listable (names_of set.now) ≡ true }
    ensures done { OnOk result ((files : FileMap) → Rests files (Some set.now) (D.state disk.old)
        → EndsAtRest (Some set.now) (D.state disk.new)) }
    ensures moments { (files : FileMap) → Rests files (Some set.now) (D.state disk.old)
        → AddsOnly D.moment D.left_since disk.old disk.new (StandsFor files (Some set.now)) }
    ensures tells { StillTells (D.state disk.old) (D.state disk.new) }
    ensures count { D.faults disk.new ≡ count_after_call result (D.faults disk.old) }
{
    save_set(disk, names, set, backups, &[], list)?;
    Ok(())
}

// Where no guard stood and the list is of version 1: what is left over is removed, and then the set is saved once more.
fn finish_old<D: Disk>(
    alloc: Global,
    disk: &mut D,
    names: &StoreNames,
    held: &Option<FileSet>,
    set: &FileSet,
    listing: &[FileName],
) -> Result<(), VaultRefusal>
    requires held { held.now ≡ Some set.now }
    requires listable { are_listable (names_of set.now) ≡ true }
    ensures done { OnOk result ((base : DiskState) → D.state disk.old ≡ Some (with_all_durable base)
        → base.current guard_name ≡ None
        → primary_set base.current ≡ Ok (Some set.now) → AreNamesOf base.current listing.now
        → EndsAtRest (Some set.now) (D.state disk.new)) }
    ensures undamaged { IfErr result (λ refusal. IfDamaged refusal (λ file. ⊥)) }
    ensures moments { (base : DiskState) → D.state disk.old ≡ Some (with_all_durable base)
        → base.current guard_name ≡ None
        → primary_set base.current ≡ Ok (Some set.now) → AreNamesOf base.current listing.now
        → AddsOnly D.moment D.left_since disk.old disk.new (StandsFor base.current (Some set.now)) }
    ensures tells { StillTells (D.state disk.old) (D.state disk.new) }
    ensures count { D.faults disk.new ≡ count_after_mount result (D.faults disk.old) }
{
    let backups = match backups_of(alloc, set.as_slice()) {
        Ok(backups) => backups,
        Err(error) => return Err(VaultRefusal::Memory(error)),
    };
    let list = match list_bytes(alloc, set.as_slice()) {
        Ok(list) => list,
        Err(error) => return Err(VaultRefusal::Memory(error)),
    };
    match finish(alloc, disk, held, listing) {
        Ok(()) => {}
        Err(refusal) => return Err(refusal),
    }
    match renew(disk, names, set.as_slice(), &backups, list.as_slice()) {
        Ok(()) => Ok(()),
        Err(_) => Err(VaultRefusal::StoreFault),
    }
}

/// Brings a folder to rest in which this was found, and which no other call was made on since. Whoever calls it has
/// judged the set: what is left over cannot be had again. Where the guard stood it renews the primaries from the backups
/// and takes the guard away. Then it removes what is left over of the own names. Where no guard stood and the list was
/// of version 1, it saves the set once more, by the calls of `save_set`. It may be stopped too, at any moment.
pub fn settle<D: Disk>(alloc: Global, disk: &mut D, found: Survey) -> Result<Mounted, VaultRefusal>
    ensures held { IfOk result (λ mounted. mounted ≡ found.held) }
    ensures settled { OnOk result (WhereFound (D.state disk.old) found
        (λ base. EndsAtRest found.held (D.state disk.new))) }
    ensures undamaged { IfErr result (λ refusal. IfDamaged refusal (λ file. ⊥)) }

    // A stop at any moment leaves what recovers to the set that was found, and the files of others.
    ensures moments { WhereFound (D.state disk.old) found
        (λ base. AddsOnly D.moment D.left_since disk.old disk.new (StandsFor base.current found.held)) }
    ensures tells { StillTells (D.state disk.old) (D.state disk.new) }
    ensures count { D.faults disk.new ≡ count_after_mount result (D.faults disk.old) }
{
    let Survey {
        names,
        held,
        guarded,
        is_old,
        listing,
        ..
    } = found;
    if guarded {
        let Some(set) = &held else {
            unreachable!();
        };
        match finish_guarded(alloc, disk, &names, &held, set, &listing) {
            Ok(()) => return Ok(Mounted { names, held }),
            Err(refusal) => return Err(refusal),
        }
    }
    if is_old {
        let Some(set) = &held else {
            unreachable!();
        };
        match finish_old(alloc, disk, &names, &held, set, &listing) {
            Ok(()) => return Ok(Mounted { names, held }),
            Err(refusal) => return Err(refusal),
        }
    }
    match finish(alloc, disk, &held, &listing) {
        Ok(()) => Ok(Mounted { names, held }),
        Err(refusal) => Err(refusal),
    }
}
