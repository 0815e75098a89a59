// The state that a copy of a store keeps.
ghost use Rattle.desk_ports.specs.Disk.{KeepsState};

use crate::readings::{MayBeStore, files_in};
use desk_keeper::{KeeperRefusal, KeptDesk};
use desk_ports::{Disk, FileName, MemDisk};
use desk_state::Desk;
use std::alloc::{AllocError, Global};

/// Why a folder gave no state.
#[derive(Drop)]
pub enum CopyRefusal {
    /// A call of the folder failed.
    Folder,
    /// It has neither a list of a store's files nor a guard.
    NoStore,
    /// The file of this name is not as a commit leaves it, at the line of this number, 0 where the file as a whole is
    /// wrong or absent.
    Damaged { file: FileName, line: u32 },
    Memory(AllocError),
}

/// The policy state that a mount of the folder comes to: what a stop left undone is undone. That is done in memory,
/// with the files that were read, and the folder stays as it is.
pub fn state_of_copy<D: Disk>(alloc: Global, disk: &mut D) -> Result<Desk, CopyRefusal>
    ensures kept { KeepsState (D.state disk.old) (D.state disk.new) }
{
    match files_in(alloc, disk) {
        Ok(copy) => state_in(alloc, copy),
        Err(MayBeStore::Not) => Err(CopyRefusal::NoStore),
        Err(MayBeStore::Failed) => Err(CopyRefusal::Folder),
        Err(MayBeStore::Memory(error)) => Err(CopyRefusal::Memory(error)),
    }
}

// The policy state that a mount of this disk comes to.
fn state_in(alloc: Global, copy: MemDisk) -> Result<Desk, CopyRefusal> {
    let mut disk = copy;
    match KeptDesk::find(alloc, &mut disk) {
        Ok(found) => match found.desk().copy() {
            Ok(desk) => Ok(desk),
            Err(error) => Err(CopyRefusal::Memory(error)),
        },
        Err(KeeperRefusal::StoreFault) => Err(CopyRefusal::Memory(AllocError)),
        Err(KeeperRefusal::Damaged { file, line }) => Err(CopyRefusal::Damaged { file, line }),
        Err(KeeperRefusal::Memory(error)) => Err(CopyRefusal::Memory(error)),
    }
}
