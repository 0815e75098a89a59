// What the admin worker and the disk do, and stops.
ghost use Rattle.std.specs.Prelude.{◌≡◌, ◌<◌, ◌^◌, ◌+◌, if◌then◌else◌, is_none, length, map, Some, None, IfOk};
ghost use Rattle.desk_state.specs.Next.{next};
ghost use Rattle.desk_state.specs.Rules.{fault};
ghost use Rattle.desk_world.specs.World.{latest_of, last};
ghost use Rattle.desk_world.specs.Commits.{stored, undecided, decide, publish, hang, acknowledge, restarted, stop};
ghost use Rattle.desk_world.specs.Commits.{may_store, committed};
ghost use Rattle.desk_world.specs.parts.Parts.{world_of, Becomes};

use crate::agent_events::stop_all;
use crate::link_events::{close_all, hang_up};
use crate::parts::Parts;
use crate::states::State;
use desk_state::{Applied, Command, Desk, Refusal};
use std::alloc::AllocError;

// The last of a state and those after it.
fn latest<'a>(first: &'a State, later: &'a [State]) -> &'a State
    ensures { result.now ≡ latest_of first.now later.now }
{
    let mut latest = first;
    for state in later {
        latest = state;
    }
    latest
}

fn last(world: &Parts) -> u64
    ensures { result ≡ last (world_of world.now) }
{
    latest(&world.first, &world.later).desk().commit()
}

// The state that the command leads to, if no rule refuses it.
fn next_state(desk: &Desk, command: &Command) -> Result<Option<Desk>, AllocError>
    ensures { IfOk result (λ made. made
        ≡ (if is_none (fault desk.now command.now) then Some (next desk.now command.now) else None)) }
{
    match desk.apply(command) {
        Ok(Applied { desk, erased: _ }) => Ok(Some(desk)),
        Err(Refusal::Memory(error)) => Err(error),
        Err(_) => Ok(None),
    }
}

// The state that the command leads to, if it may be stored.
fn proposed(world: &Parts, command: &Command) -> Result<Option<State>, AllocError>
    ensures { IfOk result (λ made. made ≡ (if may_store command.now (world_of world.now)
        then Some (next (latest_of world.now.first world.now.later.items) command.now) else None)) }
{
    let alloc = *world.later.allocator();
    if world.acknowledged != last(world) || world.candidate.is_some() {
        return Ok(None);
    }
    let latest = latest(&world.first, &world.later);
    match next_state(latest.desk(), command)? {
        Some(desk) => {
            let state = State::of(alloc, desk)?;
            Ok(Some(state))
        }
        None => Ok(None),
    }
}

/// The command's state is stored. Says whether that event is enabled.
pub fn stored(world: &mut Parts, command: &Command) -> Result<bool, AllocError>
    ensures { IfOk result (λ enabled. Becomes (stored command.now (world_of world.old)) enabled (world_of world.new)) }
{
    let Some(state) = proposed(world, command)? else {
        return Ok(false);
    };
    world.later.push(state)?;
    Ok(true)
}

/// It is not known whether the command's state is stored. Says whether that event is enabled.
pub fn undecided(world: &mut Parts, command: &Command) -> Result<bool, AllocError>
    ensures { IfOk result
        (λ enabled. Becomes (undecided command.now (world_of world.old)) enabled (world_of world.new)) }
{
    let Some(state) = proposed(world, command)? else {
        return Ok(false);
    };
    world.candidate = Some(state);
    Ok(true)
}

/// The candidate is committed or given up. Says whether that event is enabled.
pub fn decide(world: &mut Parts, kept: bool) -> Result<bool, AllocError>
    ensures { IfOk result (λ enabled. Becomes (decide kept (world_of world.old)) enabled (world_of world.new)) }
{
    let Some(state) = world.candidate.take() else {
        return Ok(false);
    };
    if kept {
        world.later.push(state)?;
    }
    Ok(true)
}

/// The last state is published. Says whether that event is enabled.
pub fn publish(world: &mut Parts) -> bool
    ensures { Becomes (publish (world_of world.old)) result (world_of world.new) }
{
    let last = last(world);
    if world.candidate.is_some() || world.published >= last {
        return false;
    }
    world.published = last;
    true
}

/// Links that entered before the published commit are hung up.
pub fn hang(world: &mut Parts)
    ensures { world_of world.new ≡ hang (world_of world.old) }
{
    let published = world.published;
    world.note = published;
    hang_up(&mut world.links, published);
}

/// What was hung up for is acknowledged. Says whether that event is enabled.
pub fn acknowledge(world: &mut Parts) -> bool
    ensures { Becomes (acknowledge (world_of world.old)) result (world_of world.new) }
{
    if world.acknowledged >= world.note {
        return false;
    }
    world.acknowledged = world.note;
    true
}

// The service has started again from the last state.
fn restart(world: &mut Parts)
    requires { world.old.run + 1 < 2 ^ 32 }
    ensures { world_of world.new ≡ restarted (world_of world.old) }
{
    let last = last(world);
    world.acknowledged = last;
    world.candidate = None;
    world.published = last;
    world.note = last;
    world.run += 1;
    close_all(&mut world.links);
    world.agents.clear();
    stop_all(&mut world.entries);
}

// The service stops while this state is under way, which is kept or not.
fn restart_with(world: &mut Parts, state: State, kept: bool) -> Result<(), AllocError>
    requires { world.old.run + 1 < 2 ^ 32 }
    ensures { IfOk result (λ done. world_of world.new
        ≡ restarted (committed (if kept then Some state else None) (world_of world.old))) }
{
    if !kept {
        restart(world);
        return Ok(());
    }
    world.later.push(state)?;
    restart(world);
    Ok(())
}

/// The service stops, and the candidate, if there is one, is kept or not.
pub fn stop_alone(world: &mut Parts, kept: bool) -> Result<(), AllocError>
    requires { world.old.run + 1 < 2 ^ 32 }
    ensures { IfOk result (λ done. world_of world.new
        ≡ restarted (committed (if kept then world.old.candidate else None) (world_of world.old))) }
{
    if !kept {
        restart(world);
        return Ok(());
    }
    let Some(state) = world.candidate.take() else {
        restart(world);
        return Ok(());
    };
    world.later.push(state)?;
    restart(world);
    Ok(())
}

/// The service stops while it stores the command's state, which is kept or not. Says whether that event is enabled.
pub fn stop_storing(world: &mut Parts, command: &Command, kept: bool) -> Result<bool, AllocError>
    requires { world.old.run + 1 < 2 ^ 32 }
    ensures { IfOk result (λ enabled.
        Becomes (stop (Some command.now) kept (world_of world.old)) enabled (world_of world.new)) }
{
    let Some(state) = proposed(world, command)? else {
        return Ok(false);
    };
    restart_with(world, state, kept)?;
    Ok(true)
}
