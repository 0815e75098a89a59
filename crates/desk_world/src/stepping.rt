// Each event, by its own call.
ghost use Rattle.std.specs.Prelude.{◌≡◌, ◌<◌, ◌+◌, ◌^◌, length, IfOk};
ghost use Rattle.desk_world.specs.Commits.{stop};
ghost use Rattle.desk_world.specs.Events.{connect, after};
ghost use Rattle.desk_world.specs.parts.Parts.{world_of, Becomes};

use crate::events::{Event, Half};
use crate::parts::Parts;
use crate::{agent_events, client_events, commit_events, link_events};
use desk_state::Command;
use std::alloc::AllocError;

// One half of the making of a connection.
fn connect(world: &mut Parts, half: Half) -> Result<bool, AllocError>
    requires { length world.old.links.items < 2 ^ 32 }
    ensures { IfOk result (λ enabled. Becomes (connect half (world_of world.old)) enabled (world_of world.new)) }
{
    match half {
        Half::Dial { client } => client_events::dial(world, client),
        Half::Enter { link } => Ok(link_events::enter(world, link)),
    }
}

// The service stops, while it stores the command's state if there is one.
fn stop(world: &mut Parts, command: &Option<Command>, kept: bool) -> Result<bool, AllocError>
    requires { world.old.run + 1 < 2 ^ 32 }
    ensures { IfOk result (λ enabled.
        Becomes (stop command.now kept (world_of world.old)) enabled (world_of world.new)) }
{
    match command {
        Some(command) => commit_events::stop_storing(world, command, kept),
        None => {
            commit_events::stop_alone(world, kept)?;
            Ok(true)
        }
    }
}

/// Whether the event is enabled; the world is then the one after it. After want of memory it is not used again.
pub fn step(world: &mut Parts, event: &Event) -> Result<bool, AllocError>
    requires links { length world.old.links.items < 2 ^ 32 }
    requires asks { length world.old.asks.items < 2 ^ 32 }
    requires run { world.old.run + 1 < 2 ^ 32 }
    ensures { IfOk result (λ enabled. Becomes (after event.now (world_of world.old)) enabled (world_of world.new)) }
{
    match event {
        Event::Connect { half } => connect(world, *half),
        Event::Ask {
            client,
            question,
            simple,
        } => {
            client_events::ask(world, *client, question, *simple)?;
            Ok(true)
        }
        Event::Hit { client, entry } => client_events::hit(world, *client, *entry),
        Event::Send { client } => Ok(client_events::send(world, *client)),
        Event::Read { link, commit } => Ok(link_events::read(world, *link, *commit)),
        Event::Write { link } => Ok(link_events::write(world, *link)),
        Event::Deliver { client } => client_events::deliver(world, *client),
        Event::Notice { client } => client_events::notice(world, *client),
        Event::Lose { link } => Ok(link_events::lose(world, *link)),
        Event::Stored { command } => commit_events::stored(world, command),
        Event::Undecided { command } => commit_events::undecided(world, command),
        Event::Decide { kept } => commit_events::decide(world, *kept),
        Event::Publish => Ok(commit_events::publish(world)),
        Event::Hang => {
            commit_events::hang(world);
            Ok(true)
        }
        Event::Acknowledge => Ok(commit_events::acknowledge(world)),
        Event::AgentJoin { kind } => agent_events::join(world, *kind),
        Event::AgentPut { link, full } => agent_events::put(world, *link, *full),
        Event::AgentReply { number, allowed } => {
            Ok(agent_events::answer(world, *number, *allowed))
        }
        Event::AgentWithdraw { link } => Ok(agent_events::withdraw(world, *link)),
        Event::AgentLeave { kind } => agent_events::leave(world, *kind),
        Event::Stop { command, kept } => stop(world, command, *kept),
        Event::Tell { client, commit } => client_events::tell(world, *client, *commit),
    }
}
