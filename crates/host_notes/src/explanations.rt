// What failed on what and why, and then what can be done.
use crate::folder_steps::folder_advice;
use crate::socket_steps::net_advice;
use desk_ports::shown_bytes;
use folder_disk::Failure as FolderFailure;
use host_ports::{DIRECTORY, MOST_PATH_BYTES};
use socket_net::Failure as SocketFailure;
use std::io::{self, Eprint};
use std::rt::Files;

/// The status of a run that found no memory.
const NO_MEMORY: u8 = 1;

/// The status of a run whose disk failed.
const FOLDER_FAILED: u8 = 6;

/// The status of a run whose net failed.
const NET_FAILED: u8 = 7;

/// The status of a run over a folder that stands for no policy state.
const FOLDER_DAMAGED: u8 = 8;

/// The status of a run that was sent what is no reply.
const NO_REPLY: u8 = 9;

/// The status of a run with a command that is longer than a frame may be.
const COMMAND_TOO_LONG: u8 = 10;

/// Says why standard input was not read, and why standard output was not written.
pub fn explain_streams<R: Eprint>(
    rt: &R,
    source_failure: &Option<io::Error>,
    sink_failure: &Option<io::Error>,
) {
    if let Some(failure) = source_failure {
        let _ = eprintln!(rt; "privilege: cannot read standard input: {failure}");
    }
    if let Some(failure) = sink_failure {
        let _ = eprintln!(rt; "privilege: cannot write standard output: {failure}");
    }
}

/// Says what a run that ended with this status failed on, why, and what can be done. The paths are those of the
/// directory of the sockets and of the folder, and the failures the last ones there; that of the folder may have been
/// told already. Where the variable names no directory, the folder's path is empty.
pub fn explain<R: Files + Eprint + AllocGlobal>(
    rt: &R,
    status: u8,
    directory: &str,
    folder: &str,
    folder_failure: Option<&FolderFailure>,
    is_told: bool,
    net_failure: Option<&SocketFailure>,
) {
    match status {
        NO_MEMORY => tell(rt, "out of memory"),
        FOLDER_FAILED => explain_folder(rt, folder, folder_failure, is_told),
        NET_FAILED => explain_net(rt, directory, folder, net_failure),
        FOLDER_DAMAGED => explain_damage(rt, folder),
        NO_REPLY => tell(
            rt,
            "what answers at the socket is another program, or a service of another release: \
                see which process listens there",
        ),
        COMMAND_TOO_LONG => tell(
            rt,
            "nothing of it was sent: part the batch into several, each of which is a commit of its own",
        ),
        _ => {}
    }
}

fn tell<R: Eprint>(rt: &R, line: &str) {
    let _ = eprintln!(rt; "privilege: {line}");
}

/// Says which call of the folder failed on what. The folder's path is empty where the variable names no directory: that
/// is explained by `explain` alone.
pub fn tell_folder_failure<R: Eprint>(rt: &R, folder: &str, failure: Option<&FolderFailure>) {
    if folder.is_empty() {
        return;
    }
    if let Some(failure) = failure {
        let _ = eprintln!(rt; "privilege: {failure}");
    }
}

// Says which call of the folder failed on what, unless that was told, and what can be done.
fn explain_folder<R: Eprint>(rt: &R, folder: &str, failure: Option<&FolderFailure>, is_told: bool) {
    if folder.is_empty() {
        explain_directory(rt);
    } else if let Some(failure) = failure {
        if !is_told {
            tell_folder_failure(rt, folder, Some(failure));
        }
        tell(rt, folder_advice(failure.step, failure.error.kind()));
    }
}

// Says which call of the sockets failed on what, and what can be done.
fn explain_net<R: Files + Eprint>(
    rt: &R,
    directory: &str,
    folder: &str,
    failure: Option<&SocketFailure>,
) {
    if folder.is_empty() {
        explain_directory(rt);
    } else if let Some(failure) = failure {
        let _ = eprintln!(rt; "privilege: {failure}");
        tell(
            rt,
            net_advice(rt, directory, failure.step, failure.error.kind()),
        );
    }
}

// Says of which folder the run found a file damaged.
fn explain_damage<R: Eprint + AllocGlobal>(rt: &R, folder: &str) {
    if let Ok(shown) = shown_bytes(rt.alloc(), folder.as_bytes(), MOST_PATH_BYTES) {
        let _ = eprintln!(rt;
            "privilege: a file of the folder {shown} is not as a commit leaves it"
        );
    }
}

fn explain_directory<R: Eprint>(rt: &R) {
    let _ = eprintln!(rt; "privilege: {DIRECTORY} is no UTF-8, or longer than a path may be");
}
