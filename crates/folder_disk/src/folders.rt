// What the machine is asked to do with the folder, one small step a function.
ghost use Rattle.std.specs.Prelude.{IfOk};
ghost use Rattle.desk_ports.specs.FileMap.{NamesRise};

use crate::failures::{Failure, FolderStep, told};
use crate::file_marks::FileMark;
use crate::file_name_bytes::is_file_name;
use crate::lock_holders::holder_error;
use crate::paths;
use crate::store_signs::StoreSigns;
use desk_ports::{FileName, FileNameRefusal, names_in_order};
use std::alloc::{AllocError, Global};
use std::fs::{File, OpenFile, TryLockError};
use std::io::{Error, ErrorKind, Read};
use std::os::unix::fs::DirBuilderExt;
use std::rt::{Clock, Files};
use std::time::Duration;
use std::{fs, io, thread};

/// Room for the names of some entries of a folder, and for one of any length.
pub const NAMES_BYTES: usize = 4_096;

/// A folder is made for its owner alone.
const FOLDER_MODE: u32 = 0o700;

/// How often a lock that another open holds is asked for again, and after how many milliseconds each time: for five
/// seconds.
const LOCK_TRIES: u32 = 100;

const LOCK_PAUSE: u64 = 50;

/// Makes the folder, where there is none.
pub fn make_folder<R: Files + Drop>(rt: &R, folder: &str) -> io::Result<()> {
    match fs::DirBuilder::new().mode(FOLDER_MODE).create(rt, folder) {
        Err(e) if e.kind() == ErrorKind::AlreadyExists => Ok(()),
        made => made,
    }
}

/// The folder, opened, with the exclusive lock on it, which is kept until the open folder is dropped. Another open of
/// the folder that asks for the lock is refused meanwhile; one that does not ask is not kept away. Where another open
/// has it, this one waits for up to five seconds.
pub fn lock_folder<R: Files<File = File> + AllocGlobal + Clock + Drop>(
    rt: &R,
    folder: &str,
) -> Result<File, Failure> {
    let opened = told(
        rt.alloc(),
        FolderStep::OpenFolder,
        folder,
        open_folder(rt, folder),
    )?;
    match lock_patiently(rt, &opened) {
        Ok(()) => Ok(opened),
        Err(refusal) => {
            let error = lock_error(rt, &opened, refusal);
            Err(Failure::at(rt.alloc(), FolderStep::LockFolder, folder, error))
        }
    }
}

// Asks for the lock until it is given, for some seconds.
fn lock_patiently<R: Clock>(rt: &R, opened: &File) -> Result<(), TryLockError> {
    for _ in 0..LOCK_TRIES {
        match opened.try_lock() {
            Err(TryLockError::WouldBlock) => thread::sleep(rt, Duration::from_millis(LOCK_PAUSE)),
            answer => return answer,
        }
    }
    opened.try_lock()
}

// Nothing but a folder is opened: the opening of a pipe would wait.
fn open_folder<R: Files + Drop>(rt: &R, folder: &str) -> io::Result<R::File> {
    if !fs::metadata(rt, folder)?.is_dir() {
        return Err(Error::new(ErrorKind::NotADirectory, "it is no folder"));
    }
    fs::open(rt, folder)
}

fn lock_error<R: Files + AllocGlobal + Drop>(
    rt: &R,
    opened: &File,
    refusal: TryLockError,
) -> Error {
    match refusal {
        TryLockError::WouldBlock => holder_error(rt, opened),
        TryLockError::Error(error) => error,
    }
}

/// The folder, opened so that the names of its entries are read from it.
pub fn open_names<R: Files + AllocGlobal + Drop>(rt: &R, folder: &str) -> Result<R::Dir, Failure> {
    match paths::names_path(folder) {
        Some(path) => told(
            rt.alloc(),
            FolderStep::ListFolder,
            folder,
            rt.open_dir(path.as_str()),
        ),
        None => Err(Failure::long_path(rt.alloc(), FolderStep::ListFolder, folder)),
    }
}

/// The names of the folder's next entries, as many as there is room for, each with a NUL behind it. Empty at the end.
pub fn next_names<'a, D: Read>(
    alloc: Global,
    folder: &str,
    dir: &mut D,
    room: &'a mut [u8; NAMES_BYTES],
) -> Result<&'a [u8], Failure> {
    let count = told(alloc, FolderStep::ListFolder, folder, dir.read(room))?;
    Ok(&room[..count])
}

/// Refuses a folder with files of a store where neither the list nor the guard is among them: no stop leaves one.
/// Nothing is changed.
pub fn look_over<R: Files + AllocGlobal + Drop>(rt: &R, folder: &str) -> Result<(), Failure> {
    let mut dir = open_names(rt, folder)?;
    let mut room = [0; NAMES_BYTES];
    let mut signs = StoreSigns::none();
    for _ in 0..u64::MAX {
        let names = next_names(rt.alloc(), folder, &mut dir, &mut room)?;
        if names.is_empty() {
            break;
        }
        note_signs(&mut signs, names);
    }
    if signs.are_of_no_store() {
        return Err(Failure::no_store(rt.alloc(), folder, &signs));
    }
    Ok(())
}

fn note_signs(signs: &mut StoreSigns, names: &[u8]) {
    for name in names.split(|byte| *byte == 0) {
        if is_file_name(name) {
            signs.note(name);
        }
    }
}

/// The names of the folder's entries that are file names, in order.
pub fn list<R: Files + AllocGlobal + Drop>(rt: &R, folder: &str) -> Result<Vec<FileName>, Failure>
    ensures { IfOk result (λ names. NamesRise names.items) }
{
    let mut dir = open_names(rt, folder)?;
    let mut room = [0; NAMES_BYTES];
    let mut names = Vec::new(rt.alloc());
    for _ in 0..u64::MAX {
        let next = next_names(rt.alloc(), folder, &mut dir, &mut room)?;
        if next.is_empty() {
            break;
        }
        if let Err(error) = push_names(rt.alloc(), &mut names, next) {
            return Err(list_failure(rt.alloc(), folder, error));
        }
    }
    match names_in_order(rt.alloc(), names) {
        Ok(names) => Ok(names),
        Err(error) => Err(list_failure(rt.alloc(), folder, error)),
    }
}

fn list_failure(alloc: Global, folder: &str, error: AllocError) -> Failure {
    Failure::at(alloc, FolderStep::ListFolder, folder, Error::from(error))
}

// Appends those of the entries' names that are file names, but for the two folders that every folder has.
fn push_names(alloc: Global, names: &mut Vec<FileName>, next: &[u8]) -> Result<(), AllocError> {
    for entry in next.split(|byte| *byte == 0) {
        if entry == b".".as_slice() || entry == b"..".as_slice() {
            continue;
        }
        match FileName::read(alloc, entry) {
            Ok(name) => names.push(name)?,
            Err(FileNameRefusal::Memory(error)) => return Err(error),
            Err(_) => {}
        }
    }
    Ok(())
}

/// Makes sure of which files a folder has.
pub fn sync_folder<R: Files + AllocGlobal + Drop>(rt: &R, folder: &str) -> Result<(), Failure> {
    let opened = told(
        rt.alloc(),
        FolderStep::OpenFolder,
        folder,
        fs::open(rt, folder),
    )?;
    told(rt.alloc(), FolderStep::Sync, folder, opened.sync_all())
}

/// Makes sure of which files the folder has that is open, where its path still leads to it.
pub fn sync_open_folder<R: Files + AllocGlobal + Drop>(
    rt: &R,
    folder: &str,
    opened: &R::File,
) -> Result<(), Failure> {
    told(
        rt.alloc(),
        FolderStep::Sync,
        folder,
        sync_same(rt, folder, opened),
    )
}

// The files are asked for by the path. So where another folder took the place of the open one, these are in that one.
fn sync_same<R: Files + Drop>(rt: &R, folder: &str, opened: &R::File) -> io::Result<()> {
    let stands = FileMark::of(&fs::metadata(rt, folder)?);
    if !stands.is_of_same(&FileMark::of(&opened.metadata()?)) {
        return Err(Error::new(
            ErrorKind::InvalidInput,
            "another folder took its place meanwhile",
        ));
    }
    opened.sync_all()
}
