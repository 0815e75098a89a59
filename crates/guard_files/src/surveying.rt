// The first half of a mount: what the folder holds is read, and nothing in it is written or removed.
ghost use Rattle.std.specs.Prelude.{◌≡◌, Some, Ok, Err, IfOk, IfErr};
ghost use Rattle.std.specs.List.{list_any};
ghost use Rattle.std.specs.Str.{bytes_eq};
ghost use Rattle.desk_ports.specs.Disk.{WhereTold, MayLeave, with_all_durable};
ghost use Rattle.desk_ports.specs.Moments.{AddsOnly, LeavesOnly};
ghost use Rattle.guard_files.specs.OwnName.{guard_name};
ghost use Rattle.guard_files.specs.Telling.{StillTells};
ghost use Rattle.guard_files.specs.Recovery.{recover};
ghost use Rattle.guard_files.specs.Mounted.{IfDamaged, count_after_mount, IsFound};

use crate::own_names::is_guard;
use crate::refusals::{VaultRefusal, refusal_of};
use crate::set_reading::{Found, read_set};
use crate::store_names::StoreNames;
use crate::survey::Survey;
use desk_ports::{Disk, FileName};
use std::alloc::Global;

fn has_guard(names: &[FileName]) -> bool
    ensures { result ≡ list_any (λ name. bytes_eq name guard_name) names.now }
{
    names.iter().any(|name| is_guard(name.as_slice()))
}

// Makes all durable, and reads what the folder holds.
fn survey_of<D: Disk>(
    alloc: Global,
    disk: &mut D,
    names: StoreNames,
) -> Result<Survey, VaultRefusal>
    ensures done { IfOk result (λ found. WhereTold (D.state disk.old) (λ before.
        (D.state disk.new ≡ Some (with_all_durable before)) × IsFound before.current found)) }
    ensures damaged { IfErr result (λ refusal. IfDamaged refusal (λ file. WhereTold (D.state disk.old) (λ before.
        (recover before.current ≡ Err file)
        × (D.state disk.new ≡ Some (with_all_durable before))))) }
    ensures moments { WhereTold (D.state disk.old)
        (λ before. AddsOnly D.moment D.left_since disk.old disk.new (MayLeave before)) }
    ensures tells { StillTells (D.state disk.old) (D.state disk.new) }
    ensures count { D.faults disk.new ≡ count_after_mount result (D.faults disk.old) }
{
    match disk.sync() {
        Ok(()) => {}
        Err(_) => return Err(VaultRefusal::StoreFault),
    }
    let listing = match disk.names() {
        Ok(listing) => listing,
        Err(fault) => return Err(refusal_of(fault)),
    };
    let guarded = has_guard(&listing);
    match read_set(alloc, disk, &names, guarded) {
        Ok(Found { held, is_old }) => Ok(Survey {
            names,
            held,
            guarded,
            is_old,
            listing,
        }),
        Err(refusal) => Err(refusal),
    }
}

/// Finds what a folder holds, whatever a stop made of it. It makes all durable and reads the names; it reads the set
/// from the backups where the guard stands, else from the primaries. Nothing is written or removed. Refuses
/// `StoreFault`, where a call of the disk failed; `Damaged`, with the file; and `Memory`.
pub fn look<D: Disk>(alloc: Global, disk: &mut D) -> Result<Survey, VaultRefusal>
    ensures held { IfOk result (λ found. WhereTold (D.state disk.old)
        (λ before. recover before.current ≡ Ok found.held)) }
    ensures found { IfOk result (λ found. WhereTold (D.state disk.old) (λ before.
        (D.state disk.new ≡ Some (with_all_durable before)) × IsFound before.current found)) }
    ensures damaged { IfErr result (λ refusal. IfDamaged refusal (λ file. WhereTold (D.state disk.old) (λ before.
        (recover before.current ≡ Err file)
        × (D.state disk.new ≡ Some (with_all_durable before))))) }

    // A stop at any moment leaves what a stop at entry may leave.
    ensures moments { WhereTold (D.state disk.old)
        (λ before. LeavesOnly D.moment D.left_since disk.old disk.new (MayLeave before)) }
    ensures tells { StillTells (D.state disk.old) (D.state disk.new) }
    ensures count { D.faults disk.new ≡ count_after_mount result (D.faults disk.old) }
{
    let names = match StoreNames::new(alloc) {
        Ok(names) => names,
        Err(error) => return Err(VaultRefusal::Memory(error)),
    };
    match survey_of(alloc, disk, names) {
        Ok(found) => Ok(found),
        Err(refusal) => Err(refusal),
    }
}
