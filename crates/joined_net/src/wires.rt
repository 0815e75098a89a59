ghost use Rattle.std.specs.Prelude.{◌≡◌, ◌<◌, ◌≤◌, ◌↔◌, [], ◌++◌, min, length, take, drop, IsTrue, OnOk, OnErr};
ghost use Rattle.joined_net.specs.Wire.{new_wire, bytes_to, HasCome, with_written, with_read, with_closed};

use desk_ports::Bytes;
use std::alloc::{AllocError, Global};
use std::marker::Model;
use std::sync::{Arc, Condvar, Mutex, Wait};
use std::time::{Clock, Duration};

/// How long an end waits for bytes that looks whether some have come, in milliseconds.
const LOOK: u64 = 100;

/// Which of its two ends an end of a connection is.
#[derive(Clone, Copy, Debug, PartialEq, Eq)]
pub(crate) enum Side {
    Dialler,
    Door,
}

/// Bytes on their way in one direction.
#[derive(Drop)]
struct Pipe {
    bytes: Bytes,
    read: usize,
}

impl Model for Pipe {
    ghost use Rattle.std.specs.Prelude.{◌≤◌, List, ℕ, length, drop};

    ghost Value = { List ℕ };

    ghost view = { λ pipe. drop pipe.read pipe.bytes };

    ghost invariant = { λ pipe. pipe.read ≤ length pipe.bytes };
}

impl Pipe {
    fn new(alloc: Global) -> Pipe
        ensures { result ≡ [] }
    {
        Pipe {
            bytes: Bytes::new(alloc),
            read: 0,
        }
    }

    // Puts these bytes behind those on their way.
    fn write(&mut self, from: &[u8]) -> Result<(), AllocError>
        ensures ok { OnOk result (self.new ≡ self.old ++ from.now) }
        ensures err { OnErr result (self.new ≡ self.old) }
    {
        if self.read == self.bytes.len() {
            self.bytes.clear();
            self.read = 0;
        }
        self.bytes.append(from)
    }

    // Takes the next bytes, as many as there are and there is room for.
    fn read(&mut self, into: &mut [u8]) -> usize
        ensures count { result ≡ min (length self.old) (length into.old) }
        ensures given { take result into.new ≡ take result self.old }
        ensures rest { self.new ≡ drop result self.old }
    {
        let left = &self.bytes.as_slice()[self.read..];
        let count = left.len().min(into.len());
        into[..count].copy_from_slice(&left[..count]);
        self.read += count;
        count
    }

    // Whether bytes are on their way.
    fn has_bytes(&self) -> bool
        ensures { IsTrue result ↔ (0 < length self.now) }
    {
        self.read < self.bytes.len()
    }
}

/// What two joined ends share.
#[derive(Drop)]
pub(crate) struct Wire {
    to_dialler: Pipe,
    to_door: Pipe,
    is_closed: bool,
}

impl Model for Wire {
    ghost use Rattle.joined_net.specs.Wire.{WireBytes};

    ghost Value = { WireBytes };

    ghost view = { λ wire.
        record { to_dialler = wire.to_dialler; to_door = wire.to_door; is_closed = wire.is_closed } };
}

impl Wire {
    /// A connection over which nothing went yet. Takes no memory.
    pub(crate) fn new(alloc: Global) -> Wire
        ensures { result ≡ new_wire }
    {
        Wire {
            to_dialler: Pipe::new(alloc),
            to_door: Pipe::new(alloc),
            is_closed: false,
        }
    }

    /// This end writes the bytes. Those written to a closed connection go nowhere.
    pub(crate) fn write(&mut self, side: Side, from: &[u8]) -> Result<(), AllocError>
        ensures ok { OnOk result (self.new ≡ with_written side from.now self.old) }
        ensures err { OnErr result (self.new ≡ self.old) }
    {
        if self.is_closed {
            return Ok(());
        }
        match side {
            Side::Dialler => self.to_door.write(from),
            Side::Door => self.to_dialler.write(from),
        }
    }

    /// This end reads what is on its way to it, as much as there is room for, and says how many bytes.
    pub(crate) fn read(&mut self, side: Side, into: &mut [u8]) -> usize
        ensures count { result ≡ min (length (bytes_to side self.old)) (length into.old) }
        ensures given { take result into.new ≡ take result (bytes_to side self.old) }
        ensures wire { self.new ≡ with_read side result self.old }
    {
        match side {
            Side::Dialler => self.to_dialler.read(into),
            Side::Door => self.to_door.read(into),
        }
    }

    /// Whether bytes are on their way to this end, or the connection was closed.
    pub(crate) fn has_come(&self, side: Side) -> bool
        ensures { IsTrue result ↔ HasCome side self.now }
    {
        if self.is_closed {
            return true;
        }
        match side {
            Side::Dialler => self.to_dialler.has_bytes(),
            Side::Door => self.to_door.has_bytes(),
        }
    }

    /// Closes the connection. What was written before may still be read.
    pub(crate) fn close(&mut self)
        ensures { self.new ≡ with_closed self.old }
    {
        self.is_closed = true;
    }

    /// Whether it was closed.
    pub(crate) fn is_closed(&self) -> bool
        ensures { result ≡ self.now.is_closed }
    {
        self.is_closed
    }
}

/// A connection whose two ends may stand on two threads.
#[derive(Drop)]
pub(crate) struct SharedWire {
    wire: Mutex<Wire>,
    news: Condvar,
}

impl SharedWire {
    pub(crate) fn new(alloc: Global) -> Result<Arc<SharedWire, Global>, AllocError> {
        let shared = SharedWire {
            wire: Mutex::new(Wire::new(alloc)),
            news: Condvar::new(),
        };
        match Arc::new(alloc, shared) {
            Ok(shared) => Ok(shared),
            Err(_) => Err(AllocError),
        }
    }

    /// Writes the bytes, and wakes who waits for them.
    pub(crate) fn write<R: Wait>(&self, rt: &R, side: Side, from: &[u8]) -> Result<(), AllocError> {
        let written = self.wire.lock(rt).write(side, from);
        self.news.notify_all();
        written
    }

    /// Waits until there are bytes for this end, or the connection is closed, and reads them. 0 bytes, where there is
    /// room, say that it is closed and that all was read.
    pub(crate) fn read<R: Wait>(&self, rt: &R, side: Side, into: &mut [u8]) -> usize
        ensures { result ≤ length into.old }
    {
        if into.is_empty() {
            return 0;
        }
        let mut wire = self.wire.lock(rt);
        for _ in rt.forever() {
            let count = wire.read(side, into);
            if count > 0 {
                return count;
            }
            if wire.is_closed() {
                return 0;
            }
            wire = self.news.wait(rt, wire);
        }
        unreachable!()
    }

    /// Whether there are bytes for this end, or the connection is closed. It waits for that, a tenth of a second at
    /// most.
    pub(crate) fn has_come<R: Wait + Clock>(&self, rt: &R, side: Side) -> bool {
        let wire = self.wire.lock(rt);
        let tick = Duration::from_millis(LOOK);
        let wire = self
            .news
            .wait_timeout_while(rt, wire, tick, |lent| !lent.has_come(side))
            .0;
        wire.has_come(side)
    }

    /// Closes the connection, and wakes who waits for it.
    pub(crate) fn close<R: Wait>(&self, rt: &R) {
        self.wire.lock(rt).close();
        self.news.notify_all();
    }

    pub(crate) fn is_closed<R: Wait>(&self, rt: &R) -> bool {
        self.wire.lock(rt).is_closed()
    }
}
