// When what is asked over a connection that was dialled is over.
ghost use Rattle.std.specs.Prelude.{◌≤◌, length, IfOk};

use crate::faults::Fault;
use crate::{limits, steps};
use std::io::{Error, ErrorKind};
use std::net::Net as HostNet;
use std::os::unix::net::UnixStream;
use std::time::{Clock, Duration, Instant};
use std::{io, thread};

/// When the calls over a connection that was dialled are over, if they ever are. It is one time for all of them: a call
/// that began late has less time, and one that begins behind it fails as `TimedOut`.
#[derive(Clone, Copy)]
pub struct Deadline<R: Copy> {
    rt: R,
    // None: the calls may wait for ever.
    over_at: Option<Instant>,
}

impl<R: HostNet + Clock + Copy + Drop> Deadline<R> {
    /// This time, or none.
    pub fn of(rt: R, over_at: Option<Instant>) -> Deadline<R> {
        Deadline { rt, over_at }
    }

    /// A connection to the service behind the socket file. It may wait for room in the queue of connections: without a
    /// deadline in one call of the machine, and else by looking again each few milliseconds, since no call of the
    /// machine waits for that so long and no longer.
    pub fn connect(&self, path: &str) -> io::Result<UnixStream> {
        if self.over_at.is_none() {
            return steps::connect(&self.rt, path);
        }
        for _ in 0..steps::MOST_TRIES {
            let left = match self.left() {
                Ok(left) => left,
                Err(fault) => return Err(fault.error()),
            };
            if let Some(stream) = steps::connect_at_once(&self.rt, path)? {
                return Ok(stream);
            }
            thread::sleep(
                &self.rt,
                left.min(Duration::from_millis(limits::CONNECT_PAUSE)),
            );
        }
        Err(Error::from(ErrorKind::TimedOut))
    }

    /// The next bytes, at the front of the slice, as `steps::receive` gives them.
    pub fn receive(&self, stream: &mut UnixStream, into: &mut [u8]) -> Result<usize, Fault>
        ensures within { IfOk result (λ count. count ≤ length into.old) }
    {
        if self.over_at.is_none() {
            return steps::receive(stream, into);
        }
        for _ in 0..steps::MOST_TRIES {
            stream.set_read_timeout(Some(self.left()?))?;
            if let Some(count) = steps::receive_in_time(stream, into)? {
                return Ok(count);
            }
        }
        Err(Fault::Kind(ErrorKind::TimedOut))
    }

    /// Sends all bytes, as `steps::send` does.
    pub fn send(&self, stream: &mut UnixStream, from: &[u8]) -> Result<(), Fault> {
        if self.over_at.is_none() {
            return steps::send(stream, from);
        }
        let mut done = 0;
        for _ in 0..steps::MOST_TRIES {
            if done >= from.len() {
                return Ok(());
            }
            done += self.send_part(stream, &from[done..])?;
        }
        Err(Fault::Kind(ErrorKind::TimedOut))
    }

    /// Sends a part of the piece, and says how much: nothing where the time is over, or the call was interrupted.
    pub fn send_part(&self, stream: &mut UnixStream, from: &[u8]) -> Result<usize, Fault>
        ensures within { IfOk result (λ count. count ≤ length from.now) }
    {
        if self.over_at.is_some() {
            stream.set_write_timeout(Some(self.left()?))?;
        }
        steps::send_part(stream, from)
    }

    // The time that is left, which is some.
    fn left(&self) -> Result<Duration, Fault> {
        let Some(over_at) = self.over_at else {
            return Ok(Duration::MAX);
        };
        let left = over_at.saturating_duration_since(Instant::now(&self.rt)?);
        if left.is_zero() {
            return Err(Fault::Kind(ErrorKind::TimedOut));
        }
        Ok(left)
    }
}
