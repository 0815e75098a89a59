ghost use Rattle.std.specs.Prelude.{◌≡◌, ◌↔◌, Ok, IfOk, IfErr, IsTrue, length};
ghost use Rattle.desk_world.specs.World.{fresh};
ghost use Rattle.desk_world.specs.Events.{run, HasRoom, Refuses};
ghost use Rattle.desk_world.specs.Grows.{Grows};
ghost use Rattle.desk_world.specs.Kept.{IsKept};
ghost use Rattle.desk_world.specs.Sound.{AllSound};

use crate::copies::world_copy;
use crate::events::Event;
use crate::parts::Parts;
use crate::refusals::WorldRefusal;
use crate::replies::Given;
use crate::running::{has_room, run_all};
use crate::states::State;
use desk_state::Desk;
use std::alloc::{AllocError, Global};
use std::marker::Model;

/// The world of the service: its committed policy states, its connections with what is on its way, its clients with
/// their caches, and its agents' log. Whatever led to it, each reply that a client was given is right.
#[derive(Drop)]
pub struct World {
    parts: Parts,
}

impl Model for World {
    ghost use Rattle.desk_world.specs.World.{World as Content};
    ghost use Rattle.desk_world.specs.Kept.{IsKept};
    ghost use Rattle.desk_world.specs.parts.Parts.{world_of};

    ghost Value = { Content };

    ghost view = { λ world. world_of world.parts };

    ghost invariant = { λ world. IsKept (world_of world.parts) };
}

impl World {
    /// The world of a service that has just started from this policy state, whose commit counts as acknowledged.
    pub fn fresh(alloc: Global, desk: &Desk) -> Result<World, AllocError>
        ensures fresh { IfOk result (λ world. world ≡ fresh desk.now) }
        ensures kept { IfOk result (λ world. IsKept world) }
    {
        let commit = desk.commit();
        let first = State::of(alloc, desk.copy()?)?;
        Ok(World {
            parts: Parts {
                first,
                later: Vec::new(alloc),
                acknowledged: commit,
                candidate: None,
                published: commit,
                note: commit,
                run: 0,
                links: Vec::new(alloc),
                clients: Vec::new(alloc),
                asks: Vec::new(alloc),
                given: Vec::new(alloc),
                agents: Vec::new(alloc),
                entries: Vec::new(alloc),
            },
        })
    }

    /// The replies that clients were given, in the order in which they were. Takes no memory.
    pub fn given(&self) -> &[Given]
        ensures given { result.now ≡ self.now.given }
        ensures sound { AllSound self.now }
    {
        &self.parts.given
    }

    /// Whether links, asks and stops still have numbers after so many events more, as `run` wants it. Takes no memory.
    pub fn has_room(&self, events: usize) -> bool
        ensures { IsTrue result ↔ HasRoom events self.now }
    {
        has_room(&self.parts, events)
    }
}

/// The world after the events, each of which is enabled in its turn; the world given stays as it is, and shares its
/// policy states with the new one. Refused with the place of the first event that is not enabled, from 0, and with want
/// of memory, which may come in its place.
pub fn run(world: &World, events: &[Event]) -> Result<World, WorldRefusal>
    requires { HasRoom (length events.now) world.now }
    ensures done { IfOk result (λ after. run world.now events.now ≡ Ok after) }
    ensures grows { IfOk result (λ after. Grows world.now after) }
    ensures kept { IfOk result (λ after. IsKept after) }
    ensures sound { IfOk result (λ after. AllSound after) }
    ensures refused { IfErr result (λ refusal. Refuses refusal (run world.now events.now)) }
{
    let mut parts = match world_copy(&world.parts) {
        Ok(parts) => parts,
        Err(error) => return Err(WorldRefusal::Memory(error)),
    };
    match run_all(&mut parts, events) {
        Ok(()) => Ok(World { parts }),
        Err(refusal) => Err(refusal),
    }
}
