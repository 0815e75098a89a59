ghost use Rattle.std.specs.Prelude.{◌≡◌, None, IfOk};
ghost use Rattle.desk_ports.specs.FileName.{IsFileName};
ghost use Rattle.guard_files.specs.OwnName.{guard_name, list_name, backup_name};

use desk_ports::{FileName, FileNameRefusal};
use std::alloc::{AllocError, Global};

/// The fixed names of a store's folder, made once so that a save takes no memory for them.
#[derive(Debug, Drop)]
pub struct StoreNames {
    pub guard: FileName,
    pub list: FileName,
    pub list_backup: FileName,
    ghost guard_is: { guard ≡ guard_name },
    ghost list_is: { list ≡ list_name },
    ghost list_backup_is: { list_backup ≡ backup_name list_name },
}

impl StoreNames {
    /// Refuses only for want of memory.
    pub fn new(alloc: Global) -> Result<StoreNames, AllocError> {
        Ok(StoreNames {
            guard: fixed_name(alloc, b"guard")?,
            list: fixed_name(alloc, b"list")?,
            list_backup: fixed_name(alloc, b"list~")?,
        })
    }
}

/// A file name of bytes that are one. Refuses only for want of memory.
pub fn fixed_name(alloc: Global, bytes: &[u8]) -> Result<FileName, AllocError>
    requires { IsFileName bytes.now }
    ensures { IfOk result (λ name. name ≡ bytes.now) }
{
    match FileName::read(alloc, bytes) {
        Ok(name) => Ok(name),
        Err(FileNameRefusal::Memory(error)) => Err(error),
        Err(FileNameRefusal::Empty) => unreachable!(),
        Err(FileNameRefusal::TooLong) => unreachable!(),
        Err(FileNameRefusal::BadByte(_)) => unreachable!(),
    }
}
