// That checks were missed is told to a person at once, a line a second at most. No clause speaks of it.
use check_monitor::Alarm;
use desk_server::Notes;
use link_ports::{Gate, GateStep};
use std::sync::atomic::AtomicU64;
use std::sync::atomic::Ordering::SeqCst;
use std::time::{Clock, Instant};

/// The most that a time in milliseconds is told as.
const MOST_MILLIS: u128 = 18_446_744_073_709_551_615;

/// The least time between two lines, in milliseconds.
const APART: u64 = 1_000;

/// The gate of the workers of clients, at which a worker also tells of checks that were missed. So a person is told
/// while the thread that writes the lines waits for standard output.
#[derive(Drop)]
pub(crate) struct TellingGate<'a, R: Clock, G: Gate, T: Notes> {
    rt: &'a R,
    gate: &'a G,
    alarm: &'a Alarm,
    notes: &'a T,
    start: Option<Instant>,
    // How many missed checks were told of, and from which millisecond since the start on the next line is due.
    told: AtomicU64,
    due: AtomicU64,
}

impl<'a, R: Clock, G: Gate, T: Notes> TellingGate<'a, R, G, T> {
    /// None was told of.
    pub fn new(rt: &'a R, gate: &'a G, alarm: &'a Alarm, notes: &'a T) -> TellingGate<'a, R, G, T> {
        TellingGate {
            rt,
            gate,
            alarm,
            notes,
            start: Instant::now(rt).ok(),
            told: AtomicU64::new(0),
            due: AtomicU64::new(0),
        }
    }

    // Tells that checks are missed, where a line is due. One of several workers that come at once does.
    fn tell(&self, missed: u64) {
        let due = self.due.load(SeqCst);
        let now = self.millis();
        if now < due {
            return;
        }
        let next = now.saturating_add(APART);
        if self
            .due
            .compare_exchange(due, next, SeqCst, SeqCst)
            .is_err()
        {
            return;
        }
        self.told.store(missed, SeqCst);
        self.notes.note("privilege: checks are missed: more lines wait than are written");
    }

    // The milliseconds since the start. Where the clock can't be read, a line is due.
    fn millis(&self) -> u64 {
        let Some(start) = self.start else {
            return u64::MAX;
        };
        match start.elapsed(self.rt) {
            Ok(passed) => passed.as_millis().min(MOST_MILLIS) as u64,
            Err(_) => u64::MAX,
        }
    }
}

impl<'a, R: Clock, G: Gate, T: Notes> Gate for TellingGate<'a, R, G, T> {
    fn pass(&self, seat: u32, step: GateStep) {
        self.gate.pass(seat, step);
        let missed = self.alarm.missed();
        if missed != self.told.load(SeqCst) {
            self.tell(missed);
        }
    }
}
