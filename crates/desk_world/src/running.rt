// Lists of events, run from a world on.
ghost use Rattle.std.specs.Prelude.{◌≡◌, ◌<◌, ◌+◌, ◌^◌, ◌↔◌, Ok, IfOk, IfErr, IsTrue, length};
ghost use Rattle.desk_world.specs.Events.{run, HasRoom, Refuses};
ghost use Rattle.desk_world.specs.parts.Parts.{world_of};

use crate::events::Event;
use crate::parts::Parts;
use crate::refusals::WorldRefusal;
use crate::stepping::step;

// How many numbers of 32 bits there are.
const NUMBERS: usize = 4_294_967_296;

fn fits(count: usize, events: usize) -> bool
    ensures { IsTrue result ↔ count + events < 2 ^ 32 }
{
    count < NUMBERS && events < NUMBERS - count
}

/// Whether links, asks and stops still have numbers after so many events more.
pub fn has_room(world: &Parts, events: usize) -> bool
    ensures { IsTrue result ↔ HasRoom events (world_of world.now) }
{
    let links = fits(world.links.len(), events);
    let asks = fits(world.asks.len(), events);
    let run = fits(world.run as usize, events);
    links && asks && run
}

/// The world after the events; or the place of the first that is not enabled, or want of memory.
pub fn run_all(world: &mut Parts, events: &[Event]) -> Result<(), WorldRefusal>
    requires { HasRoom (length events.now) (world_of world.old) }
    ensures done { IfOk result (λ done. run (world_of world.old) events.now ≡ Ok (world_of world.new)) }
    ensures refused { IfErr result (λ refusal. Refuses refusal (run (world_of world.old) events.now)) }
{
    for (at, event) in events.iter().enumerate() {
        match step(world, event) {
            Ok(true) => {}
            Ok(false) => return Err(WorldRefusal::NotEnabled(at)),
            Err(error) => return Err(WorldRefusal::Memory(error)),
        }
    }
    Ok(())
}
