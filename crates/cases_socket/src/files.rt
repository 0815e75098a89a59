// Calls of the machine's files.
use crate::words::{Words, number};
use std::os::unix::fs::{PermissionsExt, symlink};
use std::time::Duration;
use std::{fs, io, thread};

/// Makes the call of these words, where it is one of files or of time. Whether it is.
pub fn obey(rt: &HostRuntime, words: &Words<'_>) -> io::Result<bool> {
    match words.call {
        "" => {}
        "sleep" => thread::sleep(rt, Duration::from_millis(number(words.first) as u64)),
        "folder" => fs::create_dir(rt, words.first)?,
        "unfolder" => fs::remove_dir(rt, words.first)?,
        "write" => fs::write(rt, words.first, words.second)?,
        "link" => symlink(rt, words.first, words.second)?,
        "remove" => fs::remove_file(rt, words.first)?,
        "mode" => show_mode(rt, words.first)?,
        _ => return Ok(false),
    }
    Ok(true)
}

// What stands at a path, and its mode.
fn show_mode(rt: &HostRuntime, path: &str) -> io::Result<()> {
    match fs::symlink_metadata(rt, path) {
        Ok(seen) => println!(rt; "mode {:o}", seen.permissions().mode()),
        Err(error) => println!(rt; "{error}"),
    }
}
