ghost use Rattle.std.specs.Prelude.{◌≡◌, Some, None};

use crate::links::JoinedLink;
use crate::queues::{Incoming, SharedDoors, SharedQueue};
use crate::wires::Side;
use desk_ports::PortFault;
use link_ports::{Door, DoorKind};
use std::alloc::Global;
use std::sync::{Arc, Wait};
use std::time::Clock;

/// A door of a joined net. Doors of one kind share the connections that wait. Its `accept` never fails.
#[derive(Drop)]
pub struct JoinedDoor<R: Wait + Clock + Copy + Drop> {
    rt: R,
    kind: DoorKind,
    doors: Arc<SharedDoors, Global>,
}

impl<R: Wait + Clock + Copy + Drop> JoinedDoor<R> {
    /// A door of this kind that was opened.
    pub(crate) fn opened(rt: R, kind: DoorKind, doors: Arc<SharedDoors, Global>) -> JoinedDoor<R>
        ensures { result.kind ≡ kind }
    {
        JoinedDoor { rt, kind, doors }
    }

    /// Closes it.
    pub(crate) fn shut(self) {
        queue_of(&self.doors, self.kind).close(&self.rt);
    }
}

/// The queue of the kind.
pub(crate) fn queue_of(doors: &SharedDoors, kind: DoorKind) -> &SharedQueue {
    match kind {
        DoorKind::Client => &doors.client,
        DoorKind::Admin => &doors.admin,
        DoorKind::Agent => &doors.agent,
    }
}

impl<R: Wait + Clock + Copy + Drop> Door for JoinedDoor<R> {
    type Link = JoinedLink<R>;

    ghost faults = { λ _. 0 };

    ghost kind = { λ door. Some door.kind };

    ghost given_back = { λ _. None };

    fn accept(&mut self) -> Result<JoinedLink<R>, PortFault> {
        match queue_of(&self.doors, self.kind).take(&self.rt) {
            Incoming::Link(wire) => Ok(JoinedLink::over(self.rt, Side::Door, wire)),
            Incoming::Knock => Ok(JoinedLink::closed(self.rt, Side::Door)),
        }
    }

    fn give_back(&mut self, link: JoinedLink<R>) {
        drop(link);
    }
}
