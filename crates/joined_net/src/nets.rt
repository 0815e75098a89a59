ghost use Rattle.std.specs.Prelude.{◌≡◌, None, IfOk};
ghost use Rattle.link_ports.specs.LinkTally.{fresh_tally};

use crate::doors::{JoinedDoor, queue_of};
use crate::links::JoinedLink;
use crate::queues::{SharedDoors, SharedQueue};
use crate::wires::{SharedWire, Side};
use desk_ports::PortFault;
use link_ports::{Dial, DoorKind, Net};
use std::alloc::{AllocError, Global};
use std::sync::{Arc, Wait};
use std::time::Clock;

/// A net whose links join threads of one process. A dial waits for nobody: its connection stands in line until a door
/// of that kind accepts it, also where no door is open yet. Once the doors of a kind were all closed, the connections
/// in line are closed, and a dial gives a link that is already closed, until a door is opened again.
#[derive(Drop)]
pub struct JoinedNet<R: Wait + Clock + Copy + Drop> {
    rt: R,
    alloc: Global,
    doors: Arc<SharedDoors, Global>,
    dials: u64,
    faults: u64,
}

impl<R: Wait + Clock + Copy + Drop> JoinedNet<R> {
    /// A net with no door open.
    pub fn new(rt: R, alloc: Global) -> Result<JoinedNet<R>, AllocError>
        ensures counts { IfOk result (λ net. (net.faults ≡ 0) × (net.dials ≡ 0)) }
    {
        let shared = SharedDoors {
            client: SharedQueue::new(alloc),
            admin: SharedQueue::new(alloc),
            agent: SharedQueue::new(alloc),
        };
        match Arc::new(alloc, shared) {
            Ok(doors) => Ok(JoinedNet {
                rt,
                alloc,
                doors,
                dials: 0,
                faults: 0,
            }),
            Err(_) => Err(AllocError),
        }
    }

    /// A further handle, for another thread, that dials the same doors. It has counts of its own.
    pub fn share(&self) -> Result<JoinedNet<R>, AllocError>
        ensures counts { IfOk result (λ net. (net.faults ≡ 0) × (net.dials ≡ 0)) }
    {
        let doors = Arc::try_clone(&self.doors)?;
        Ok(JoinedNet {
            rt: self.rt,
            alloc: self.alloc,
            doors,
            dials: 0,
            faults: 0,
        })
    }

    /// How many dials were made by this handle. The number stands still at the last value of a count.
    pub fn dials(&self) -> u64
        ensures { result ≡ self.now.dials }
    {
        self.dials
    }

    // A connection that stands in line at the doors of the kind.
    fn connect(&self, door: DoorKind) -> Result<JoinedLink<R>, AllocError>
        ensures { IfOk result (λ link. link.tally ≡ fresh_tally) }
    {
        let wire = SharedWire::new(self.alloc)?;
        let theirs = Arc::try_clone(&wire)?;
        let is_put = queue_of(&self.doors, door).put(&self.rt, theirs)?;
        if is_put {
            Ok(JoinedLink::over(self.rt, Side::Dialler, wire))
        } else {
            Ok(JoinedLink::closed(self.rt, Side::Dialler))
        }
    }
}

impl<R: Wait + Clock + Copy + Drop> Dial for JoinedNet<R> {
    type Link = JoinedLink<R>;

    ghost faults = { λ net. net.faults };

    ghost dials = { λ net. net.dials };

    ghost given_back = { λ _. None };

    fn dial(&mut self, door: DoorKind) -> Result<JoinedLink<R>, PortFault> {
        let _faults = self.faults;
        self.dials = self.dials.saturating_add(1);
        match self.connect(door) {
            Ok(link) => Ok(link),
            Err(failed) => Err(PortFault::Memory(failed)),
        }
    }

    fn give_back(&mut self, link: JoinedLink<R>) {
        let faults = self.faults;
        if link.tally().gave_trouble() {
            self.faults = faults.saturating_add(1);
        }
        drop(link);
    }
}

impl<R: Wait + Clock + Copy + Drop> Net for JoinedNet<R> {
    type Door = JoinedDoor<R>;

    ghost closed = { λ _. None };

    fn door(&mut self, door: DoorKind) -> Result<JoinedDoor<R>, PortFault> {
        let _faults = self.faults;
        match Arc::try_clone(&self.doors) {
            Ok(doors) => {
                queue_of(&doors, door).open(&self.rt);
                Ok(JoinedDoor::opened(self.rt, door, doors))
            }
            Err(failed) => Err(PortFault::Memory(failed)),
        }
    }

    fn knock(&mut self, door: DoorKind) {
        let _faults = self.faults;
        queue_of(&self.doors, door).knock(&self.rt);
    }

    fn close(&mut self, door: JoinedDoor<R>) {
        let _faults = self.faults;
        door.shut();
    }

    fn faults(&self) -> u64 {
        self.faults
    }
}
