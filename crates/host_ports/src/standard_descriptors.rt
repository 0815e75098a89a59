// The descriptors of standard input, output and error, where the caller closed them.
use std::fs::{File, OpenOptions};
use std::os::fd::{AsRawFd, IntoRawFd};
use std::rt::Files;

/// A file that holds nothing and keeps nothing.
const NOTHING: &str = "/dev/null";

/// Standard input is descriptor 0, and standard error the last of the three.
const INPUT: i32 = 0;

const LAST: i32 = 2;

/// Keeps descriptors 0 to 2 taken, so that no file which is opened later becomes one of them, and what is said on a
/// standard error that is closed never goes into a file of the folder. What is opened in place of a closed stream
/// refuses to be read, or to be written, as a closed one does.
pub fn take_descriptors<R: Files<File = File> + Drop>(rt: &R) {
    let _input = keep(rt, OpenOptions::new().write(true), INPUT);
    for _ in INPUT..LAST {
        if !keep(rt, OpenOptions::new().read(true), LAST) {
            return;
        }
    }
}

// Opens it, and keeps it open to the end where its descriptor is at most this one. Whether it is kept.
fn keep<R: Files<File = File> + Drop>(rt: &R, options: &OpenOptions, most: i32) -> bool {
    match options.open(rt, NOTHING) {
        Ok(file) if file.as_raw_fd() <= most => {
            let _kept = file.into_raw_fd();
            true
        }
        _ => false,
    }
}
