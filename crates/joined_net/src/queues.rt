ghost use Rattle.std.specs.Prelude.{◌≡◌, ◌<◌};
ghost use Rattle.std.specs.Bool.{OnTrue, OnFalse};
ghost use Rattle.joined_net.specs.DoorQueue.{no_doors, with_door, without_door, with_knock, without_knock};

use crate::wires::SharedWire;
use std::alloc::{AllocError, Global};
use std::collections::VecDeque;
use std::marker::Model;
use std::mem;
use std::sync::{Arc, Condvar, Mutex, Wait};

/// What the doors of a kind count.
#[derive(Drop)]
struct DoorCounts {
    open_doors: u64,
    knocks: u64,
    is_shut: bool,
}

impl Model for DoorCounts {
    ghost use Rattle.joined_net.specs.DoorQueue.{OpenDoors};

    ghost Value = { OpenDoors };

    ghost view = { λ counts.
        record { open_doors = counts.open_doors; knocks = counts.knocks; is_shut = counts.is_shut } };
}

impl DoorCounts {
    fn new() -> DoorCounts
        ensures { result ≡ no_doors }
    {
        DoorCounts {
            open_doors: 0,
            knocks: 0,
            is_shut: false,
        }
    }

    fn open(&mut self)
        ensures { self.new ≡ with_door self.old }
    {
        self.open_doors = self.open_doors.saturating_add(1);
        self.is_shut = false;
    }

    fn close(&mut self)
        ensures { self.new ≡ without_door self.old }
    {
        self.open_doors = self.open_doors.saturating_sub(1);
        self.is_shut = false;
        if self.open_doors == 0 {
            self.knocks = 0;
            self.is_shut = true;
        }
    }

    fn knock(&mut self)
        ensures { self.new ≡ with_knock self.old }
    {
        self.knocks = self.knocks.saturating_add(1);
    }

    // Takes a knock, where there is one.
    fn take_knock(&mut self) -> bool
        ensures taken { OnTrue result ((0 < self.old.knocks) × (self.new ≡ without_knock self.old)) }
        ensures none { OnFalse result ((self.old.knocks ≡ 0) × (self.new ≡ self.old)) }
    {
        if self.knocks == 0 {
            return false;
        }
        self.knocks -= 1;
        true
    }

    fn is_shut(&self) -> bool
        ensures { result ≡ self.now.is_shut }
    {
        self.is_shut
    }
}

/// What an `accept` meets.
#[derive(Drop)]
pub(crate) enum Incoming {
    Link(Arc<SharedWire, Global>),
    Knock,
}

/// The connections that wait for an `accept` of a kind, and what the doors of that kind count.
#[derive(Drop)]
struct Queue {
    alloc: Global,
    waiting: VecDeque<Arc<SharedWire, Global>>,
    counts: DoorCounts,
}

impl Queue {
    fn new(alloc: Global) -> Queue {
        Queue {
            alloc,
            waiting: VecDeque::new(alloc),
            counts: DoorCounts::new(),
        }
    }

    // What the next `accept` meets: a knock before any connection.
    fn take(&mut self) -> Option<Incoming> {
        if self.counts.take_knock() {
            return Some(Incoming::Knock);
        }
        match self.waiting.pop_front() {
            Some(wire) => Some(Incoming::Link(wire)),
            None => None,
        }
    }

    // Puts a connection behind those that wait, unless the kind is shut. Whether it did.
    fn put(&mut self, wire: Arc<SharedWire, Global>) -> Result<bool, AllocError> {
        if self.counts.is_shut() {
            return Ok(false);
        }
        match self.waiting.push_back(wire) {
            Ok(()) => Ok(true),
            Err(_) => Err(AllocError),
        }
    }

    // Closes a door. The connections that wait are handed out where it was the last one.
    fn close(&mut self) -> VecDeque<Arc<SharedWire, Global>> {
        self.counts.close();
        let none = VecDeque::new(self.alloc);
        if !self.counts.is_shut() {
            return none;
        }
        mem::replace(&mut self.waiting, none)
    }
}

/// What a net's handles share of one kind of door.
#[derive(Drop)]
pub(crate) struct SharedQueue {
    queue: Mutex<Queue>,
    news: Condvar,
}

impl SharedQueue {
    pub(crate) fn new(alloc: Global) -> SharedQueue {
        SharedQueue {
            queue: Mutex::new(Queue::new(alloc)),
            news: Condvar::new(),
        }
    }

    /// Puts a connection behind those that wait, and wakes an `accept`. Where the kind is shut it is let go. Whether
    /// it was put.
    pub(crate) fn put<R: Wait>(
        &self,
        rt: &R,
        wire: Arc<SharedWire, Global>,
    ) -> Result<bool, AllocError> {
        let put = self.queue.lock(rt).put(wire);
        self.news.notify_all();
        put
    }

    /// Waits until there is something for an `accept`.
    pub(crate) fn take<R: Wait>(&self, rt: &R) -> Incoming {
        let mut queue = self.queue.lock(rt);
        for _ in rt.forever() {
            if let Some(incoming) = queue.take() {
                return incoming;
            }
            queue = self.news.wait(rt, queue);
        }
        unreachable!()
    }

    pub(crate) fn open<R: Wait>(&self, rt: &R) {
        self.queue.lock(rt).counts.open();
    }

    pub(crate) fn knock<R: Wait>(&self, rt: &R) {
        self.queue.lock(rt).counts.knock();
        self.news.notify_all();
    }

    /// Closes a door. With the last one of the kind all connections that wait are closed too.
    pub(crate) fn close<R: Wait>(&self, rt: &R) {
        let waiting = self.queue.lock(rt).close();
        for wire in waiting {
            wire.close(rt);
        }
    }
}

/// What a net's handles share.
#[derive(Drop)]
pub(crate) struct SharedDoors {
    pub(crate) client: SharedQueue,
    pub(crate) admin: SharedQueue,
    pub(crate) agent: SharedQueue,
}
