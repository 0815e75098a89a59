// Copies of a world, which share the policy states and the texts.
ghost use Rattle.std.specs.Prelude.{◌≡◌, IfOk};
ghost use Rattle.desk_world.specs.parts.Parts.{world_of};

use crate::agent_entries::AgentEntry;
use crate::clients::{Client, Slot};
use crate::known::Known;
use crate::links::Asked;
use crate::parts::Parts;
use crate::states::State;
use std::alloc::{AllocError, Global};

fn states_copy(alloc: Global, states: &[State]) -> Result<Vec<State>, AllocError>
    ensures { IfOk result (λ copies. copies.items ≡ states.now) }
{
    let mut copies = Vec::with_capacity(alloc, states.len())?;
    for state in states {
        copies.push(state.share()?)?;
    }
    Ok(copies)
}

fn candidate_copy(candidate: &Option<State>) -> Result<Option<State>, AllocError>
    ensures { IfOk result (λ copy. copy ≡ candidate.now) }
{
    match candidate {
        Some(state) => {
            let copy = state.share()?;
            Ok(Some(copy))
        }
        None => Ok(None),
    }
}

fn asked_copy(asked: &Asked) -> Result<Asked, AllocError>
    ensures { IfOk result (λ copy. copy ≡ asked.now) }
{
    let question = asked.question.copy()?;
    Ok(Asked {
        client: asked.client,
        question,
        simple: asked.simple,
        floor: asked.floor,
    })
}

fn asks_copy(alloc: Global, asks: &[Asked]) -> Result<Vec<Asked>, AllocError>
    ensures { IfOk result (λ copies. copies.items ≡ asks.now) }
{
    let mut copies = Vec::with_capacity(alloc, asks.len())?;
    for asked in asks {
        copies.push(asked_copy(asked)?)?;
    }
    Ok(copies)
}

fn entry_copy(entry: &AgentEntry) -> Result<AgentEntry, AllocError>
    ensures { IfOk result (λ copy. copy ≡ entry.now) }
{
    let question = entry.question.copy()?;
    Ok(AgentEntry {
        run: entry.run,
        number: entry.number,
        ask: entry.ask,
        question,
        kind: entry.kind,
        commit: entry.commit,
        state: entry.state,
    })
}

fn entries_copy(alloc: Global, entries: &[AgentEntry]) -> Result<Vec<AgentEntry>, AllocError>
    ensures { IfOk result (λ copies. copies.items ≡ entries.now) }
{
    let mut copies = Vec::with_capacity(alloc, entries.len())?;
    for entry in entries {
        copies.push(entry_copy(entry)?)?;
    }
    Ok(copies)
}

fn known_copy(known: &Known) -> Result<Known, AllocError>
    ensures { IfOk result (λ copy. copy ≡ known.now) }
{
    let question = known.question.copy()?;
    Ok(Known {
        question,
        verdict: known.verdict,
    })
}

fn log_copy(alloc: Global, log: &[Known]) -> Result<Vec<Known>, AllocError>
    ensures { IfOk result (λ copies. copies.items ≡ log.now) }
{
    let mut copies = Vec::with_capacity(alloc, log.len())?;
    for known in log {
        copies.push(known_copy(known)?)?;
    }
    Ok(copies)
}

fn client_copy(alloc: Global, client: &Client) -> Result<Client, AllocError>
    ensures { IfOk result (λ copy. copy ≡ client.now) }
{
    let log = log_copy(alloc, &client.log)?;
    Ok(Client {
        told: client.told,
        link: client.link,
        log,
        asking: client.asking,
    })
}

fn slot_copy(alloc: Global, slot: &Slot) -> Result<Slot, AllocError>
    ensures { IfOk result (λ copy. copy ≡ slot.now) }
{
    let client = client_copy(alloc, &slot.client)?;
    Ok(Slot {
        number: slot.number,
        client,
    })
}

fn slots_copy(alloc: Global, slots: &[Slot]) -> Result<Vec<Slot>, AllocError>
    ensures { IfOk result (λ copies. copies.items ≡ slots.now) }
{
    let mut copies = Vec::with_capacity(alloc, slots.len())?;
    for slot in slots {
        copies.push(slot_copy(alloc, slot)?)?;
    }
    Ok(copies)
}

/// The same world once more.
pub fn world_copy(world: &Parts) -> Result<Parts, AllocError>
    ensures { IfOk result (λ copy. world_of copy ≡ world_of world.now) }
{
    let alloc = *world.links.allocator();
    let first = world.first.share()?;
    let later = states_copy(alloc, &world.later)?;
    let candidate = candidate_copy(&world.candidate)?;
    let links = Vec::from_slice(alloc, &world.links)?;
    let clients = slots_copy(alloc, &world.clients)?;
    let asks = asks_copy(alloc, &world.asks)?;
    let given = Vec::from_slice(alloc, &world.given)?;
    let agents = Vec::from_slice(alloc, &world.agents)?;
    let entries = entries_copy(alloc, &world.entries)?;
    Ok(Parts {
        first,
        later,
        acknowledged: world.acknowledged,
        candidate,
        published: world.published,
        note: world.note,
        run: world.run,
        links,
        clients,
        asks,
        given,
        agents,
        entries,
    })
}
