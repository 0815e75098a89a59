// What can be done where a call of the sockets failed.
use socket_net::SocketStep;
use std::fs;
use std::io::ErrorKind;
use std::rt::Files;

/// What can be done where this step on a socket of the directory failed so.
pub(crate) fn net_advice<R: Files>(
    rt: &R,
    directory: &str,
    step: SocketStep,
    kind: ErrorKind,
) -> &'static str {
    if kind == ErrorKind::InvalidFilename {
        return "PRIVILEGE_DIR has to name a directory with a shorter path";
    }
    match step {
        SocketStep::Connect => {
            if is_directory(rt, directory) {
                connect_advice(kind)
            } else {
                "PRIVILEGE_DIR has to name the directory of the service's sockets"
            }
        }
        SocketStep::Send | SocketStep::Receive | SocketStep::AskWhetherUp | SocketStep::HoldEnd => {
            "try again once a service is there; whether a command without an answer was accepted, \
                ask before it is sent again"
        }
        _ => service_advice(kind),
    }
}

// What can be done where nobody answers, though the directory of the sockets is there.
fn connect_advice(kind: ErrorKind) -> &'static str {
    match kind {
        ErrorKind::NotFound => {
            "no service runs there: 'privilege serve 4' begins one, with the same PRIVILEGE_DIR"
        }
        ErrorKind::ConnectionRefused => {
            "the service there was cut off: 'privilege serve 4' begins it anew, and loses nothing that was answered"
        }
        ErrorKind::PermissionDenied => {
            "its owner and its group may open it: be one of them, or have it given to a group of this user"
        }
        _ => "ask again later",
    }
}

// What can be done where a service cannot have its sockets, or use them.
fn service_advice(kind: ErrorKind) -> &'static str {
    match kind {
        ErrorKind::AddrInUse => {
            "a directory has one service: ask that one, or end it by 'echo stop | privilege admin'"
        }
        ErrorKind::AlreadyExists => "move away what stands in the socket's place",
        ErrorKind::PermissionDenied | ErrorKind::ReadOnlyFilesystem => {
            "the sockets have to be where this user can make files"
        }
        _ => "each command that was answered is kept: begin the service anew once that is mended",
    }
}

fn is_directory<R: Files>(rt: &R, path: &str) -> bool {
    if path.is_empty() {
        return true;
    }
    match fs::metadata(rt, path) {
        Ok(seen) => seen.is_dir(),
        // It may be there, and not be looked at.
        Err(error) => error.kind() == ErrorKind::PermissionDenied,
    }
}
