// What the machine is asked to do with files, one small step a function.
ghost use Rattle.std.specs.Prelude.{◌≡◌, ◌≤◌, ◌<◌, ◌^◌, vec_len, IfSome, IfOk, OnOk};
ghost use Rattle.std.specs.Io.KnownBytes.{Appends};
ghost use Rattle.folder_disk.specs.Limits.{most_file_bytes};

use crate::failures::{Failure, FolderStep, told};
use crate::file_marks::{FileMark, PlainFile};
use std::alloc::Global;
use std::fs::{Metadata, OpenFile, OpenOptions};
use std::io::{Error, ErrorKind, Read, Write};
use std::os::unix::fs::OpenOptionsExt;
use std::rt::Files;
use std::{fs, io};

/// The most bytes of a file that is read.
pub const MOST_FILE_BYTES: u64 = 268_435_456;

/// How many bytes of a file are compared at once.
const COMPARED_BYTES: usize = 16_384;

/// Files are made for their owner alone.
const FILE_MODE: u32 = 0o600;

/// What a file was found to hold, and by what the machine showed it before it was read.
#[derive(Drop)]
pub struct FileRead {
    pub bytes: Vec<u8>,
    pub mark: FileMark,
}

/// All bytes of the plain file of the path, where they are no more than the limit. `None` where there is none. A link
/// is not followed.
pub fn read<R: Files + AllocGlobal + Drop>(rt: &R, path: &str) -> Result<Option<FileRead>, Failure>
    ensures { IfOk result (λ read. IfSome read (λ file. vec_len file.bytes ≤ most_file_bytes)) }
{
    let seen = told(rt.alloc(), FolderStep::OpenFile, path, plain_file(rt, path))?;
    let Some(seen) = seen else {
        return Ok(None);
    };
    let opened = open_seen(rt, path, OpenOptions::new().read(true), &seen.mark);
    let file = told(rt.alloc(), FolderStep::OpenFile, path, opened)?;
    match read_whole(rt.alloc(), file, seen.mark.length()) {
        Ok(bytes) => Ok(Some(FileRead {
            bytes,
            mark: seen.mark,
        })),
        Err(error) => Err(Failure::at(rt.alloc(), FolderStep::ReadFile, path, error)),
    }
}

/// Writes these bytes to the plain file of the path, which is made where there is none, and makes sure of it. A link is
/// not followed. A file with more than one name is left as it is, and a new one is made in its place. By what the
/// machine shows the file, where it does.
pub fn write<R: Files + AllocGlobal + Drop>(
    rt: &R,
    path: &str,
    bytes: &[u8],
) -> Result<Option<FileMark>, Failure> {
    let mut file = open_to_write(rt, path)?;
    write_whole(rt.alloc(), path, &mut file, bytes)?;
    match file.metadata() {
        Ok(seen) => Ok(Some(FileMark::of(&seen))),
        Err(_) => Ok(None),
    }
}

// The plain file of the path, opened to be written, and made where there is none. A link is not followed.
fn open_to_write<R: Files + AllocGlobal + Drop>(rt: &R, path: &str) -> Result<R::File, Failure> {
    told(
        rt.alloc(),
        FolderStep::OpenFile,
        path,
        open_or_make(rt, path),
    )
}

fn open_or_make<R: Files + Drop>(rt: &R, path: &str) -> io::Result<R::File> {
    if let Some(seen) = plain_file(rt, path)? {
        if seen.names == 1 {
            return open_to_write_over(rt, path, &seen);
        }
        fs::remove_file(rt, path)?;
    }
    OpenOptions::new()
        .write(true)
        .create_new(true)
        .mode(FILE_MODE)
        .open(rt, path)
}

// Opens the file that was seen, to be written over. A file that another name leads to as well never is: what stands
// under that name, or is to stand under it after a stop, would be written too.
fn open_to_write_over<R: Files + Drop>(rt: &R, path: &str, seen: &PlainFile) -> io::Result<R::File>
    requires { seen.now.names ≡ 1 }
{
    open_seen(rt, path, OpenOptions::new().write(true), &seen.mark)
}

/// Whether the plain file that was seen by this mark stands at the path, and was not written since.
pub fn stands<R: Files + Drop>(rt: &R, path: &str, mark: &FileMark) -> bool {
    match plain_file(rt, path) {
        Ok(Some(seen)) => seen.mark == *mark,
        _ => false,
    }
}

/// Whether the plain file that was seen by this mark stands at the path, was not written since, and has these bytes.
pub fn holds<R: Files + Drop>(rt: &R, path: &str, mark: &FileMark, bytes: &[u8]) -> bool {
    if !stands(rt, path, mark) {
        return false;
    }
    match open_seen(rt, path, OpenOptions::new().read(true), mark) {
        Ok(mut file) => has_bytes(&mut file, bytes),
        Err(_) => false,
    }
}

// Whether these bytes, and no others, are read of a file. They are read through a buffer on the stack.
fn has_bytes<F: Read>(file: &mut F, bytes: &[u8]) -> bool {
    let mut room = [0; COMPARED_BYTES];
    let mut left = bytes;
    for _ in 0..u64::MAX {
        let Ok(count) = file.read(&mut room) else {
            return false;
        };
        if count == 0 {
            return left.is_empty();
        }
        let Some(rest) = left.strip_prefix(&room[..count]) else {
            return false;
        };
        left = rest;
    }
    false
}

/// Makes this path one more name of the file of another path, in place of the plain file that it may have led to.
/// Whether the machine has done so: a file system may know no such links, or refuse one.
pub fn link<R: Files + Drop>(rt: &R, from: &str, path: &str) -> bool {
    match fs::hard_link(rt, from, path) {
        Ok(()) => true,
        Err(e) if e.kind() == ErrorKind::AlreadyExists => {
            remove_plain(rt, path) && fs::hard_link(rt, from, path).is_ok()
        }
        Err(_) => false,
    }
}

// Takes the name of a plain file away. Whether it was one, and is away.
fn remove_plain<R: Files + Drop>(rt: &R, path: &str) -> bool {
    match plain_file(rt, path) {
        Ok(Some(_)) => fs::remove_file(rt, path).is_ok(),
        _ => false,
    }
}

// What stands at the path, where it is a plain file. `None` where nothing does.
fn plain_file<R: Files + Drop>(rt: &R, path: &str) -> io::Result<Option<PlainFile>> {
    match fs::symlink_metadata(rt, path) {
        Ok(seen) if seen.is_file() => Ok(Some(PlainFile::of(&seen))),
        Ok(seen) => Err(no_plain_file(&seen)),
        Err(e) if e.kind() == ErrorKind::NotFound => Ok(None),
        Err(e) => Err(e),
    }
}

// What stands in place of a plain file.
fn no_plain_file(seen: &Metadata) -> Error {
    let words = if seen.is_symlink() {
        "it is a symbolic link, which is not followed"
    } else if seen.is_dir() {
        "it is a folder"
    } else {
        "it is no plain file"
    };
    Error::new(ErrorKind::InvalidInput, words)
}

// Opens the file that was seen at the path, and no other.
fn open_seen<R: Files + Drop>(
    rt: &R,
    path: &str,
    options: &OpenOptions,
    seen: &FileMark,
) -> io::Result<R::File> {
    let file = options.open(rt, path)?;
    if FileMark::of(&file.metadata()?).is_of_same(seen) {
        Ok(file)
    } else {
        Err(Error::new(
            ErrorKind::InvalidInput,
            "another file took its place meanwhile",
        ))
    }
}

// All bytes of a file that was seen to have this length, where they are no more than the limit. A read that is
// interrupted is tried again.
fn read_whole<F: Read + OpenFile + Drop>(alloc: Global, file: F, length: u64) -> io::Result<Vec<u8>>
    ensures limit { IfOk result (λ bytes. vec_len bytes ≤ most_file_bytes) }
    ensures whole { IfOk result (λ bytes. IfSome (F.Read.remaining file) (λ left. bytes.items ≡ left)) }
{
    if length > MOST_FILE_BYTES {
        return Err(too_large());
    }
    read_at_most(alloc, file, MOST_FILE_BYTES)
}

fn too_large() -> Error {
    Error::new(
        ErrorKind::FileTooLarge,
        "it has more than 268,435,456 bytes",
    )
}

// All bytes that are left to read, where they are no more than these. A file may have grown since its length was
// asked for.
fn read_at_most<F: Read + Drop>(alloc: Global, file: F, most: u64) -> io::Result<Vec<u8>>
    requires { most < 2 ^ 63 }
    ensures limit { IfOk result (λ bytes. vec_len bytes ≤ most) }
    ensures whole { IfOk result (λ bytes. IfSome (F.remaining file) (λ left. bytes.items ≡ left)) }
{
    let mut bytes = Vec::new(alloc);
    file.take(most + 1).read_to_end(&mut bytes)?;
    if bytes.len() as u64 > most {
        return Err(too_large());
    }
    Ok(bytes)
}

/// Writes the bytes over those of the file, cuts it to their length and makes sure of it. A short write is carried on,
/// and a write that is interrupted is tried again.
pub fn write_whole<F: Write + OpenFile>(
    alloc: Global,
    path: &str,
    file: &mut F,
    bytes: &[u8],
) -> Result<(), Failure>
    ensures { OnOk result (Appends (F.Write.contents file.old) (F.Write.contents file.new) bytes.now) }
{
    told(alloc, FolderStep::WriteFile, path, file.write_all(bytes))?;
    told(
        alloc,
        FolderStep::CutFile,
        path,
        file.set_len(bytes.len() as u64),
    )?;
    told(alloc, FolderStep::Sync, path, file.sync_all())
}

/// Removes the file of the path, where there is one.
pub fn remove<R: Files + AllocGlobal + Drop>(rt: &R, path: &str) -> Result<(), Failure> {
    match fs::remove_file(rt, path) {
        Err(e) if e.kind() == ErrorKind::NotFound => Ok(()),
        removed => told(rt.alloc(), FolderStep::RemoveFile, path, removed),
    }
}

/// Makes sure of the file of the path, where it is a plain one. Anything else that stands there is left alone.
pub fn sync_if_plain<R: Files + AllocGlobal + Drop>(rt: &R, path: &str) -> Result<(), Failure> {
    let seen = told(
        rt.alloc(),
        FolderStep::OpenFile,
        path,
        fs::symlink_metadata(rt, path),
    )?;
    if !seen.is_file() {
        return Ok(());
    }
    let mark = FileMark::of(&seen);
    let opened = open_seen(rt, path, OpenOptions::new().read(true), &mark);
    let file = told(rt.alloc(), FolderStep::OpenFile, path, opened)?;
    told(rt.alloc(), FolderStep::Sync, path, file.sync_all())
}
