// Why a call of the machine failed, in a few bytes.
ghost use Rattle.socket_net.specs.Faults.{Tells};

use std::io::{Error, ErrorKind};

/// Why a call of the machine failed. An `Error` has room for a text: 88 bytes, which each function that may hand one on
/// clears and copies, also where nothing failed. So what the machine answers is taken apart right behind its call.
#[derive(Clone, Copy)]
pub enum Fault {
    /// The machine's number of the error.
    Number(i32),
    /// The kind of an error that has no number. Its text is not kept.
    Kind(ErrorKind),
    /// The connection was closed when it was accepted.
    Closed,
}

impl Fault {
    /// That of this error.
    #[cold]
    #[inline(never)]
    pub fn of(error: &Error) -> Fault
        ensures { Tells result error.now }
    {
        match error.raw_os_error() {
            Some(number) => Fault::Number(number),
            None => Fault::Kind(error.kind()),
        }
    }

    /// The error.
    pub fn error(self) -> Error
        ensures { Tells self result }
    {
        match self {
            Fault::Number(number) => Error::from_raw_os_error(number),
            Fault::Kind(kind) => Error::from(kind),
            Fault::Closed => Error::new(ErrorKind::BrokenPipe, "the connection was closed"),
        }
    }
}

impl From<Error> for Fault {
    fn from(error: Error) -> Fault {
        Fault::of(&error)
    }
}
