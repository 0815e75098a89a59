// What the doors of one kind share, with the links that came in there.
use crate::steps::Accepted;
use crate::{limits, steps};
use link_ports::DoorKind;
use std::io::{Error, ErrorKind};
use std::net::Net as HostNet;
use std::os::unix::net::{UnixListener, UnixStream};
use std::sync::atomic::{AtomicU64, Ordering};
use std::time::{Clock, Duration, Instant};
use std::{io, thread};

/// The socket that the doors of one kind share, the knocks that their accepts are still to answer, and how many accepts
/// wait for a connection.
#[derive(Drop)]
pub struct Commons {
    listener: UnixListener,
    // By this one all accepts are ended, where a knock can't connect.
    hold: UnixStream,
    kind: DoorKind,
    owed: AtomicU64,
    waiting: AtomicU64,
}

impl Commons {
    /// Over this listener. Each of its accepts waits for a tick at most.
    pub fn over(listener: UnixListener, kind: DoorKind) -> io::Result<Commons> {
        let hold = steps::hold_listener(&listener)?;
        hold.set_read_timeout(Some(Duration::from_millis(limits::TICK)))?;
        Ok(Commons {
            listener,
            hold,
            kind,
            owed: AtomicU64::new(0),
            waiting: AtomicU64::new(0),
        })
    }

    /// The kind of the doors.
    pub fn kind(&self) -> DoorKind {
        self.kind
    }

    /// One more accept is to answer a knock.
    pub fn owe(&self) {
        self.owed.fetch_add(1, Ordering::SeqCst);
    }

    /// Whether a knock waits for an accept, so that a worker whose link waits for bytes had better come to its door.
    pub fn is_knocked(&self) -> bool {
        self.owed.load(Ordering::SeqCst) > 0
    }

    // Whether a knock was there for this accept to answer, which then no other accept answers.
    fn take_knock(&self) -> bool {
        self.owed
            .fetch_update(Ordering::SeqCst, Ordering::SeqCst, |owed| {
                owed.checked_sub(1)
            })
            .is_ok()
    }

    /// Ends every accept that waits, and each later one that finds no connection: each returns a link that is closed.
    pub fn shut(&self) {
        // The call fails for no listener. If one did, there is no other way to wake anybody.
        let _ = steps::shut_down(&self.hold);
    }

    /// The next connection. Nothing where a knock is answered, and then a connection that was met is hung up, or where
    /// the listener was shut down. It waits for one, and tries again after an error that passes by itself.
    pub fn accept<R: Clock>(&self, rt: &R) -> io::Result<Option<Accepted>> {
        for _ in 0..steps::MOST_TRIES {
            let start = Instant::now(rt)?;
            match self.accept_once() {
                Ok(None) => {
                    let _ = self.take_knock();
                    return Ok(None);
                }
                Ok(Some(stream)) => {
                    if self.take_knock() {
                        return Ok(None);
                    }
                    let stood_in_line = start.elapsed(rt)?
                        < Duration::from_micros(limits::AT_ONCE_MICROS);
                    return Ok(Some(Accepted {
                        stream,
                        stood_in_line,
                    }));
                }
                Err(error) => {
                    if !steps::is_passing(&error) {
                        return Err(error);
                    }
                    if self.take_knock() {
                        return Ok(None);
                    }
                    if error.kind() != ErrorKind::WouldBlock {
                        thread::sleep(rt, Duration::from_millis(limits::ACCEPT_PAUSE));
                    }
                }
            }
        }
        Err(Error::from(ErrorKind::Interrupted))
    }

    // What one call finds, counted as one that waits.
    fn accept_once(&self) -> io::Result<Option<UnixStream>> {
        self.waiting.fetch_add(1, Ordering::SeqCst);
        let accepted = steps::accept(&self.listener);
        self.waiting.fetch_sub(1, Ordering::SeqCst);
        accepted
    }

    /// Whether no accept waits for a connection: all workers of the kind are taken.
    pub fn is_taken(&self) -> bool {
        self.waiting.load(Ordering::SeqCst) == 0
    }

    /// Whether all workers of the kind are taken, and a connection waits for one. Where the machine does not tell it,
    /// one may.
    pub fn has_line<R: HostNet + AllocGlobal>(&self, rt: &R) -> bool {
        if !self.is_taken() {
            return false;
        }
        steps::has_connection(rt, &self.listener).unwrap_or(true)
    }
}
