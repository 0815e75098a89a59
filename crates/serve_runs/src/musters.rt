// Whether all threads of a service are there, and how many of its workers of clients are left. No clause speaks of it.
use std::sync::Wait;
use std::sync::atomic::AtomicU64;
use std::sync::atomic::Ordering::SeqCst;
use std::thread;
use std::time::{Clock, Duration};

/// It is not decided whether there is a service.
const UNDECIDED: u64 = 0;

const SERVES: u64 = 1;

const GIVES_UP: u64 = 2;

/// How often it is looked whether all threads have begun, a millisecond apart: for a second.
const LOOKS: u32 = 1_000;

const MILLISECOND: u64 = 1;

/// What the threads of a service share as they begin and end.
#[derive(Drop)]
pub(crate) struct Muster {
    begun: AtomicU64,
    decision: AtomicU64,
    clients: AtomicU64,
}

impl Muster {
    /// No thread has begun, of a service with so many workers of clients.
    pub fn new(clients: u32) -> Muster {
        Muster {
            begun: AtomicU64::new(0),
            decision: AtomicU64::new(UNDECIDED),
            clients: AtomicU64::new(u64::from(clients)),
        }
    }

    /// A thread begins. Whether there is a service, once that is decided. It may wait.
    pub fn begin<R: Wait>(&self, rt: &R) -> bool {
        self.begun.fetch_add(1, SeqCst);
        for _ in rt.forever() {
            let decision = self.decision.load(SeqCst);
            if decision != UNDECIDED {
                return decision == SERVES;
            }
            self.decision.park(rt, UNDECIDED as u32);
        }
        unreachable!()
    }

    /// Looks for up to a second whether so many threads have begun. There is a service if they have; whether there is.
    pub fn decide<R: Clock>(&self, rt: &R, threads: u64) -> bool {
        let complete = self.is_complete(rt, threads);
        let decision = if complete { SERVES } else { GIVES_UP };
        self.decision.store(decision, SeqCst);
        self.decision.wake_all();
        complete
    }

    fn is_complete<R: Clock>(&self, rt: &R, threads: u64) -> bool {
        for _ in 0..LOOKS {
            if self.begun.load(SeqCst) >= threads {
                return true;
            }
            thread::sleep(rt, Duration::from_millis(MILLISECOND));
        }
        self.begun.load(SeqCst) >= threads
    }

    /// A worker of clients has ended, though the service is not stopped. Whether none is left.
    pub fn leave(&self) -> bool {
        self.clients.fetch_sub(1, SeqCst) <= 1
    }
}
