// What wakes the thread that waits for entries. No clause speaks of it.
use std::sync::Wait;
use std::sync::atomic::AtomicU64;
use std::sync::atomic::Ordering::SeqCst;
use std::time::{Clock, Duration};

/// The thread is awake, or has no wish to be woken.
const AWAKE: u64 = 0;

/// The thread sleeps, or is about to.
const ASLEEP: u64 = 1;

/// What wakes one thread that waits for work, and how many checks were missed in all. While that thread is awake, a
/// ring costs a look at a number.
#[derive(Drop)]
pub struct Alarm {
    ear: AtomicU64,
    missed: AtomicU64,
}

impl Alarm {
    /// Nobody waits, and no check was missed. Takes no memory.
    pub fn new() -> Alarm {
        Alarm {
            ear: AtomicU64::new(AWAKE),
            missed: AtomicU64::new(0),
        }
    }

    /// The thread is about to look for work a last time before it waits: each ring from now on ends that wait.
    pub fn arm(&self) {
        self.ear.store(ASLEEP, SeqCst);
    }

    /// Waits so long at most, or until a ring since `arm`. It may wake for no reason.
    pub fn wait<R: Wait + Clock>(&self, rt: &R, most: Duration) {
        self.ear.park_timeout(rt, ASLEEP as u32, most);
        self.ear.store(AWAKE, SeqCst);
    }

    /// Wakes the thread, where it waits or is about to.
    pub fn ring(&self) {
        if self.ear.load(SeqCst) != AWAKE {
            self.ear.store(AWAKE, SeqCst);
            self.ear.wake_all();
        }
    }

    /// How many checks were missed in all, by all recorders.
    pub fn missed(&self) -> u64 {
        self.missed.load(SeqCst)
    }

    /// A check was missed.
    pub(crate) fn miss(&self) {
        self.missed.fetch_add(1, SeqCst);
        self.ring();
    }
}
