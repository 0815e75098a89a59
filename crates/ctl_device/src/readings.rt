// The files of a folder, read into memory.
ghost use Rattle.desk_ports.specs.Disk.{KeepsState};

use desk_ports::{Bytes, Disk, FailList, FileName, MemDisk, PortFault, SetFile, set_in_order};
use guard_files::{is_guard, is_list};
use std::alloc::{AllocError, Global};

/// Why the files of a folder were not read.
#[derive(Drop)]
pub(crate) enum MayBeStore {
    /// It has neither a list nor a guard, so that it is no store.
    Not,
    /// A call of the folder failed.
    Failed,
    Memory(AllocError),
}

/// The files of the folder on a disk in memory. The folder stays as it is.
#[tactic(auto, using(crate::proofs::Keeping::keeps_then))]
pub(crate) fn files_in<D: Disk>(alloc: Global, disk: &mut D) -> Result<MemDisk, MayBeStore>
    ensures kept { KeepsState (D.state disk.old) (D.state disk.new) }
{
    let names = match disk.names() {
        Ok(names) => names,
        Err(fault) => return Err(of_fault(fault)),
    };
    if !has_list_or_guard(&names) {
        return Err(MayBeStore::Not);
    }
    let mut files = Vec::new(alloc);
    for name in &names {
        read_file(disk, name, &mut files)?;
    }
    match disk_of(alloc, &files) {
        Ok(copy) => Ok(copy),
        Err(error) => Err(MayBeStore::Memory(error)),
    }
}

// Puts the file of this name behind the others, where it is still there.
fn read_file<D: Disk>(
    disk: &mut D,
    name: &FileName,
    files: &mut Vec<SetFile>,
) -> Result<(), MayBeStore>
    ensures kept { KeepsState (D.state disk.old) (D.state disk.new) }
{
    match disk.read(name) {
        Ok(Some(bytes)) => put(files, name, bytes),
        Ok(None) => Ok(()),
        Err(fault) => Err(of_fault(fault)),
    }
}

fn put(files: &mut Vec<SetFile>, name: &FileName, bytes: Bytes) -> Result<(), MayBeStore> {
    let name = match name.copy() {
        Ok(name) => name,
        Err(error) => return Err(MayBeStore::Memory(error)),
    };
    match files.push(SetFile { name, bytes }) {
        Ok(()) => Ok(()),
        Err(failed) => Err(MayBeStore::Memory(AllocError::from(failed))),
    }
}

// A disk in memory of these files.
fn disk_of(alloc: Global, files: &[SetFile]) -> Result<MemDisk, AllocError> {
    let set = set_in_order(alloc, files)?;
    MemDisk::new(alloc, set, FailList::of(Vec::new(alloc)))
}

fn of_fault(fault: PortFault) -> MayBeStore {
    match fault {
        PortFault::Failed => MayBeStore::Failed,
        PortFault::Memory(error) => MayBeStore::Memory(error),
    }
}

// Whether one of the names is that of the list of a store's files, or of the guard of a commit under way.
fn has_list_or_guard(names: &[FileName]) -> bool {
    names.iter().any(|name| is_list(name.as_slice()) || is_guard(name.as_slice()))
}
