ghost use Rattle.std.specs.Prelude.{◌≡◌, None};
ghost use Rattle.link_ports.specs.LinkTally.{fresh_tally};

use crate::wires::{SharedWire, Side};
use desk_ports::{Failed, PortFault};
use link_ports::{HangEnd, Link, LinkTally};
use std::alloc::{AllocError, Global};
use std::sync::{Arc, Wait};
use std::time::Clock;

/// Hangs up a joined link, from whatever thread.
#[derive(Drop)]
pub struct JoinedEnd<R: Wait + Drop> {
    rt: R,
    shared: Option<Arc<SharedWire, Global>>,
    used: bool,
}

impl<R: Wait + Drop> HangEnd for JoinedEnd<R> {
    ghost used = { λ end. end.used };

    fn hang_up(&mut self) {
        self.used = true;
        if let Some(shared) = &self.shared {
            shared.close(&self.rt);
        }
    }
}

/// One of two joined ends. It fails only in `send`, where it finds no memory. Bytes sent over a closed connection go
/// nowhere, and what was written before it was closed may still be read. Letting it go closes the connection.
pub struct JoinedLink<R: Wait + Clock + Copy + Drop> {
    rt: R,
    side: Side,
    shared: Option<Arc<SharedWire, Global>>,
    tally: LinkTally,
}

impl<R: Wait + Clock + Copy + Drop> JoinedLink<R> {
    /// This end of the connection.
    pub(crate) fn over(rt: R, side: Side, shared: Arc<SharedWire, Global>) -> JoinedLink<R>
        ensures { result.tally ≡ fresh_tally }
    {
        JoinedLink {
            rt,
            side,
            shared: Some(shared),
            tally: LinkTally::new(),
        }
    }

    /// A link that is already closed. Takes no memory.
    pub(crate) fn closed(rt: R, side: Side) -> JoinedLink<R>
        ensures { result.tally ≡ fresh_tally }
    {
        JoinedLink {
            rt,
            side,
            shared: None,
            tally: LinkTally::new(),
        }
    }

    /// What it counts of itself.
    pub fn tally(&self) -> &LinkTally
        ensures { result.now ≡ self.now.tally }
    {
        &self.tally
    }
}

impl<R: Wait + Clock + Copy + Drop> Drop for JoinedLink<R> {
    fn drop(self) {
        let JoinedLink {
            rt,
            side: _,
            shared,
            tally: _,
        } = self;
        if let Some(shared) = shared {
            shared.close(&rt);
        }
    }
}

impl<R: Wait + Clock + Copy + Drop> Link for JoinedLink<R> {
    type End = JoinedEnd<R>;

    ghost faults = { λ link. link.tally.faults };

    ghost marks = { λ link. link.tally.marks };

    ghost traffic = { λ _. None };

    ghost content = { λ _. None };

    fn send(&mut self, from: &[u8]) -> Result<(), Failed> {
        let _faults = self.tally.faults();
        let Some(shared) = &self.shared else {
            return Ok(());
        };
        match shared.write(&self.rt, self.side, from) {
            Ok(()) => Ok(()),
            Err(_) => Err(self.tally.fail()),
        }
    }

    fn receive(&mut self, into: &mut [u8]) -> Result<usize, Failed> {
        let _faults = self.tally.faults();
        let count = match &self.shared {
            Some(shared) => shared.read(&self.rt, self.side, into),
            None => 0,
        };
        self.tally.note_received(count, into.len());
        Ok(count)
    }

    fn is_up(&mut self) -> bool {
        let _faults = self.tally.faults();
        let is_up = match &self.shared {
            Some(shared) => !shared.is_closed(&self.rt),
            None => false,
        };
        self.tally.note_looked(is_up);
        is_up
    }

    fn has_come(&mut self) -> bool {
        let _faults = self.tally.faults();
        match &self.shared {
            Some(shared) => shared.has_come(&self.rt, self.side),
            None => true,
        }
    }

    fn hang_end(&mut self) -> Result<JoinedEnd<R>, PortFault> {
        let _faults = self.tally.faults();
        let shared = match &self.shared {
            Some(shared) => match Arc::try_clone(shared) {
                Ok(again) => Some(again),
                Err(_) => return Err(PortFault::Memory(AllocError)),
            },
            None => None,
        };
        self.tally.note_end_taken();
        Ok(JoinedEnd {
            rt: self.rt,
            shared,
            used: false,
        })
    }
}
