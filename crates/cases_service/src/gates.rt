// What those who talk know of the service: how many of its steps are done. A gate may hold the first connection up.
use cases_words::Failure;
use link_ports::{Gate, GateStep};
use std::sync::{Mutex, Wait};
use std::thread;
use std::time::{Clock, Duration};

// How often those who talk look at most, how often a connection that is held, and the milliseconds between two looks.
const MOST_LOOKS: u32 = 2_000;

const MOST_TURNS: u32 = 1_000;

const TURN: u64 = 10;

/// A count that several threads raise and look at.
#[derive(Drop)]
pub struct Tally<W: Wait + Clock + Copy + Drop> {
    rt: W,
    count: Mutex<u32>,
}

impl<W: Wait + Clock + Copy + Drop> Tally<W> {
    fn new(rt: W) -> Tally<W> {
        Tally {
            rt,
            count: Mutex::new(0),
        }
    }

    /// The count.
    pub fn count(&self) -> u32 {
        *self.count.lock(&self.rt)
    }

    /// Raises it by one. The count behind that.
    pub fn raise(&self) -> u32 {
        let mut count = self.count.lock(&self.rt);
        *count = count.saturating_add(1);
        *count
    }

    /// Waits for at most twenty seconds until it has come so far. Where it has not, the talk is over.
    pub fn wait_for(&self, number: u32) -> Result<(), Failure> {
        if self.comes_to(number, MOST_LOOKS) {
            return Ok(());
        }
        Err(Failure::Refused)
    }

    // Whether it has come so far within so many looks.
    fn comes_to(&self, number: u32, looks: u32) -> bool {
        for _ in 0..looks {
            if self.count() >= number {
                return true;
            }
            thread::sleep(&self.rt, Duration::from_millis(TURN));
        }
        false
    }
}

/// A gate that holds the first connection that enters until one is answered, where it is to hold one. Beside what goes
/// through it, it counts what an agent heard, and whether the agent may begin.
#[derive(Drop)]
pub struct HoldingGate<W: Wait + Clock + Copy + Drop> {
    holds: bool,
    entered: Tally<W>,
    pub answered: Tally<W>,
    pub heard: Tally<W>,
    pub called: Tally<W>,
    /// Connections that were held to the last turn.
    pub given_up: Tally<W>,
}

impl<W: Wait + Clock + Copy + Drop> HoldingGate<W> {
    /// A gate that nobody has entered. `holds` says whether it holds the first connection that enters.
    pub fn new(rt: W, holds: bool) -> HoldingGate<W> {
        HoldingGate {
            holds,
            entered: Tally::new(rt),
            answered: Tally::new(rt),
            heard: Tally::new(rt),
            called: Tally::new(rt),
            given_up: Tally::new(rt),
        }
    }

    // Counts a connection that has entered. The first is held, where one is to be.
    fn enter(&self) {
        let entered = self.entered.raise();
        if entered == 1 && self.holds && !self.answered.comes_to(1, MOST_TURNS) {
            self.given_up.raise();
        }
    }
}

impl<W: Wait + Clock + Copy + Drop> Gate for HoldingGate<W> {
    fn pass(&self, _seat: u32, step: GateStep) {
        match step {
            GateStep::Entered => self.enter(),
            GateStep::Answered => {
                self.answered.raise();
            }
        }
    }
}
