// What clients do.
ghost use Rattle.std.specs.Prelude.{◌≡◌, ◌<◌, ◌^◌, length, IfOk};
ghost use Rattle.desk_world.specs.Clients.{dial, asked, send, hit, given, received, deliver, notice, tell, new_link};
ghost use Rattle.desk_world.specs.parts.Parts.{world_of, Becomes};

use crate::link_events::{ask_at, link_at, set_link};
use crate::links::{Asked, Link, Reading};
use crate::parts::Parts;
use crate::replies::{Given, Reply};
use crate::slots;
use cynara_keys::Question;
use std::alloc::AllocError;

fn new_link(client: u32, run: u32) -> Link
    ensures { result ≡ new_link client run }
{
    Link {
        client,
        run,
        entered: None,
        seen: 0,
        up: true,
        question: None,
        reading: Reading::Nothing,
        reply: None,
    }
}

/// The client dials a link, if it has none. Says whether that event is enabled.
pub fn dial(world: &mut Parts, client: u32) -> Result<bool, AllocError>
    requires { length world.old.links.items < 2 ^ 32 }
    ensures { IfOk result (λ enabled. Becomes (dial client (world_of world.old)) enabled (world_of world.new)) }
{
    if slots::link(&world.clients, client).is_some() {
        return Ok(false);
    }
    let link = world.links.len() as u32;
    world
        .links
        .extend_from_slice(&[new_link(client, world.run)])?;
    let changed = slots::take_out(&mut world.clients, client).linked(Some(link));
    slots::put(&mut world.clients, client, changed)?;
    Ok(true)
}

/// The client asks.
pub fn ask(
    world: &mut Parts,
    client: u32,
    question: &Question,
    simple: bool,
) -> Result<(), AllocError>
    requires { length world.old.asks.items < 2 ^ 32 }
    ensures { IfOk result (λ done.
        world_of world.new ≡ asked client question.now simple (world_of world.old)) }
{
    let ask = world.asks.len() as u32;
    let floor = world.acknowledged.max(slots::told(&world.clients, client));
    let question = question.copy()?;
    world.asks.push(Asked {
        client,
        question,
        simple,
        floor,
    })?;
    let changed = slots::take_out(&mut world.clients, client).asking(Some(ask));
    slots::put(&mut world.clients, client, changed)?;
    Ok(())
}

/// The client sends its question. Says whether that event is enabled.
pub fn send(world: &mut Parts, client: u32) -> bool
    ensures { Becomes (send client (world_of world.old)) result (world_of world.new) }
{
    let Some(ask) = slots::asking(&world.clients, client) else {
        return false;
    };
    let Some(link) = slots::link(&world.clients, client) else {
        return false;
    };
    let Some(found) = world.links.get_mut(link as usize) else {
        return false;
    };
    if !found.up || found.question.is_some() || found.reply.is_some() {
        return false;
    }
    found.question = Some(ask);
    true
}

// The client has this reply.
fn give(world: &mut Parts, client: u32, new: Given) -> Result<(), AllocError>
    ensures { IfOk result (λ done.
        world_of world.new ≡ given client new.ask new.run new.reply (world_of world.old)) }
{
    world.given.extend_from_slice(&[new])?;
    let changed = slots::take_out(&mut world.clients, client).asking(None);
    slots::put(&mut world.clients, client, changed)?;
    Ok(())
}

/// The client takes an entry of its cache. Says whether that event is enabled.
pub fn hit(world: &mut Parts, client: u32, entry: u32) -> Result<bool, AllocError>
    ensures { IfOk result (λ enabled. Becomes (hit client entry (world_of world.old)) enabled (world_of world.new)) }
{
    let Some(ask) = slots::asking(&world.clients, client) else {
        return Ok(false);
    };
    let Some(asked) = world.asks.get(ask as usize) else {
        return Ok(false);
    };
    let Some(link) = slots::link(&world.clients, client) else {
        return Ok(false);
    };
    let Some(found) = world.links.get(link as usize) else {
        return Ok(false);
    };
    let Some(known) = slots::known(&world.clients, client, entry) else {
        return Ok(false);
    };
    if !found.up || known.question != asked.question {
        return Ok(false);
    }
    if known.verdict.commit < slots::told(&world.clients, client) {
        return Ok(false);
    }
    let run = found.run;
    let reply = Reply::Judged(known.verdict);
    give(world, client, Given { ask, run, reply })?;
    Ok(true)
}

/// The client receives the reply to its ask. Says whether that event is enabled.
pub fn deliver(world: &mut Parts, client: u32) -> Result<bool, AllocError>
    ensures { IfOk result (λ enabled. Becomes (deliver client (world_of world.old)) enabled (world_of world.new)) }
{
    let Some(ask) = slots::asking(&world.clients, client) else {
        return Ok(false);
    };
    let Some(asked) = ask_at(&world.asks, ask) else {
        return Ok(false);
    };
    let Some(link) = slots::link(&world.clients, client) else {
        return Ok(false);
    };
    let Some(found) = link_at(&world.links, link) else {
        return Ok(false);
    };
    let Some(transit) = found.reply else {
        return Ok(false);
    };
    if transit.ask != ask {
        return Ok(false);
    }
    let run = found.run;
    let reply = transit.reply;
    let changed = Link {
        reply: None,
        ..*found
    };
    let question = asked.question.copy()?;
    set_link(world, link, changed);
    receive(world, client, question, Given { ask, run, reply })?;
    Ok(true)
}

// The client has this reply to its question, also in its cache if it is a verdict.
fn receive(world: &mut Parts, client: u32, question: Question, new: Given) -> Result<(), AllocError>
    ensures { IfOk result (λ done. world_of world.new ≡ received client question new (world_of world.old)) }
{
    world.given.extend_from_slice(&[new])?;
    let changed = slots::take_out(&mut world.clients, client)
        .asking(None)
        .receiving(question, &new.reply)?;
    slots::put(&mut world.clients, client, changed)?;
    Ok(())
}

/// The client gives its closed link back. Says whether that event is enabled.
pub fn notice(world: &mut Parts, client: u32) -> Result<bool, AllocError>
    ensures { IfOk result (λ enabled. Becomes (notice client (world_of world.old)) enabled (world_of world.new)) }
{
    let Some(link) = slots::link(&world.clients, client) else {
        return Ok(false);
    };
    let Some(found) = world.links.get(link as usize) else {
        return Ok(false);
    };
    if found.up {
        return Ok(false);
    }
    let changed = slots::take_out(&mut world.clients, client).linked(None);
    slots::put(&mut world.clients, client, changed)?;
    Ok(true)
}

/// The client is told of an acknowledged commit. Says whether that event is enabled.
pub fn tell(world: &mut Parts, client: u32, commit: u64) -> Result<bool, AllocError>
    ensures { IfOk result (λ enabled. Becomes (tell client commit (world_of world.old)) enabled (world_of world.new)) }
{
    if commit > world.acknowledged {
        return Ok(false);
    }
    let changed = slots::take_out(&mut world.clients, client).told(commit);
    slots::put(&mut world.clients, client, changed)?;
    Ok(true)
}
