// What a disk in memory holds, and its calls, as texts.
use crate::{Failure, put_bytes, put_file};
use desk_ports::{Disk, DiskCall, FileName, MemDisk};
use std::alloc::{AllocError, Global};

// Adds what the disk holds, each file as `NAME=BYTES;`.
fn put_folder(text: &mut String, disk: &mut MemDisk) -> Result<(), Failure> {
    for name in &disk.names()? {
        if let Some(bytes) = disk.read(name)? {
            put_file(text, name, bytes.as_slice())?;
        }
    }
    Ok(())
}

fn put_named(text: &mut String, letter: &str, name: &FileName) -> Result<(), AllocError> {
    text.push_str(letter)?;
    put_bytes(text, name.as_slice())?;
    text.push(';')
}

fn put_call(text: &mut String, call: &DiskCall) -> Result<(), AllocError> {
    match call {
        DiskCall::Names => text.push_str("n;"),
        DiskCall::Sync => text.push_str("s;"),
        DiskCall::Read(name) => put_named(text, "r ", name),
        DiskCall::Remove(name) => put_named(text, "d ", name),
        DiskCall::Write(file) => {
            text.push_str("w ")?;
            put_file(text, &file.name, file.bytes.as_slice())
        }
    }
}

/// The calls of the disk, each as a letter (`n` lists the names, `r` reads, `w` writes, `d` removes, `s` syncs)
/// with what it was given, and `!` behind one that failed.
pub fn calls_text(alloc: Global, disk: &MemDisk) -> Result<String, Failure> {
    let mut text = String::new(alloc);
    for made in disk.calls() {
        put_call(&mut text, &made.call)?;
        if !made.is_done {
            text.push('!')?;
        }
    }
    Ok(text)
}

/// What the disk holds.
pub fn folder_text(alloc: Global, disk: &mut MemDisk) -> Result<String, Failure> {
    let mut text = String::new(alloc);
    put_folder(&mut text, disk)?;
    Ok(text)
}
