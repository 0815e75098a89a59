// How a connection is made anew that the service has closed between two messages.
use crate::deadlines::Deadline;
use crate::faults::Fault;
use crate::paths::Path;
use std::io::ErrorKind;
use std::net::Net as HostNet;
use std::os::unix::net::UnixStream;
use std::time::Clock;

/// How the connection of an administrator is made anew. The service lets go of one that is silent, and what an
/// administrator sends depends on no message before it. A client's connection is never made anew under its link, since
/// its end is what tells the client to forget its answers.
#[derive(Drop)]
pub struct Renewal {
    path: Path,
}

impl Renewal {
    /// By connecting to this path.
    pub fn at(path: Path) -> Renewal {
        Renewal { path }
    }

    /// Sends all bytes before the deadline. Where the other end has closed the connection, so that none of them was
    /// taken, the connection is made anew, and they are sent on it. It may wait for room in the queue of connections.
    pub fn send<R: HostNet + Clock + Copy + Drop>(
        &self,
        deadline: &Deadline<R>,
        stream: &mut UnixStream,
        from: &[u8],
    ) -> Result<(), Fault> {
        match deadline.send_part(stream, from) {
            Ok(count) => deadline.send(stream, &from[count..]),
            Err(fault) if fault.error().kind() == ErrorKind::BrokenPipe => {
                *stream = deadline.connect(self.path.as_str())?;
                deadline.send(stream, from)
            }
            Err(fault) => Err(fault),
        }
    }
}
