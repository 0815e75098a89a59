// What agents do.
ghost use Rattle.std.specs.Prelude.{◌≡◌, ◌<◌, ◌^◌, ◌&&◌, ◌==◌, [], ◌∷◌, ◌++◌};
ghost use Rattle.std.specs.Prelude.{not, filter, map, length, None, IfOk, IsTrue};
ghost use Rattle.std.specs.List.{list_any, count_by};
ghost use Rattle.desk_world.specs.Agents.{join, put, put_to, put_with, put_down, answer};
ghost use Rattle.desk_world.specs.Agents.{leave, fits, is_open, is_waiting, count_of, waiting_in};
ghost use Rattle.desk_world.specs.Agents.{ended, withdraw, gone_if_open, once_stopped, once_left};
ghost use Rattle.desk_world.specs.parts.Parts.{world_of, Becomes};

use crate::agent_entries::{AgentEntry, EntryState};
use crate::link_events::{ask_at, entry_at, link_at, set_link};
use crate::links::{Link, Reading};
use crate::parts::Parts;
use crate::refusals::{MOST_ENTRIES, MOST_WAITING};
use crate::replies::Reply;
use cynara_keys::{Kind, Question};
use std::alloc::{AllocError, Global};

fn has_agent(agents: &[u16], kind: Kind) -> bool
    ensures { result ≡ list_any (λ other. other == kind.0) agents.now }
{
    agents.iter().any(|other| *other == kind.0)
}

/// An agent registers. Says whether that event is enabled.
pub fn join(world: &mut Parts, kind: Kind) -> Result<bool, AllocError>
    ensures { IfOk result (λ enabled. Becomes (join kind (world_of world.old)) enabled (world_of world.new)) }
{
    if !kind.is_agent() || has_agent(&world.agents, kind) {
        return Ok(false);
    }
    world.agents.push(kind.0)?;
    Ok(true)
}

fn count_of(entries: &[AgentEntry], run: u32) -> usize
    ensures { result ≡ count_of run entries.now }
{
    entries.iter().filter(|entry| entry.run == run).count()
}

fn is_waiting(reading: &Reading) -> bool
    ensures { result ≡ is_waiting reading.now }
{
    matches!(reading, Reading::Waiting { .. })
}

fn waiting_in(links: &[Link], run: u32) -> usize
    ensures { result ≡ waiting_in run links.now }
{
    links
        .iter()
        .filter(|link| link.run == run && is_waiting(&link.reading))
        .count()
}

fn fits(world: &Parts, full: Option<u32>) -> bool
    ensures { result ≡ fits full (world_of world.now) }
{
    let count = count_of(&world.entries, world.run);
    match full {
        None => count < MOST_ENTRIES as usize,
        Some(most) => {
            (most == MOST_WAITING && waiting_in(&world.links, world.run) >= MOST_WAITING as usize)
                || (most == MOST_ENTRIES && count == MOST_ENTRIES as usize)
        }
    }
}

/// The worker puts its question to the agent. Says whether that event is enabled.
pub fn put(world: &mut Parts, link: u32, full: Option<u32>) -> Result<bool, AllocError>
    ensures { IfOk result (λ enabled. Becomes (put link full (world_of world.old)) enabled (world_of world.new)) }
{
    let fits = fits(world, full);
    let Some(found) = link_at(&world.links, link) else {
        return Ok(false);
    };
    let Some(ask) = found.question else {
        return Ok(false);
    };
    let Some(asked) = ask_at(&world.asks, ask) else {
        return Ok(false);
    };
    let Reading::Due { commit, kind, .. } = found.reading else {
        return Ok(false);
    };
    if found.run != world.run || !fits {
        return Ok(false);
    }
    let question = asked.question.copy()?;
    let found = *found;
    put_to(world, link, found, ask, &question, full, commit, kind)?;
    Ok(true)
}

// The question goes to the agent of the kind, or is refused.
fn put_to(
    world: &mut Parts,
    link: u32,
    found: Link,
    ask: u32,
    question: &Question,
    full: Option<u32>,
    commit: u64,
    kind: Kind,
) -> Result<(), AllocError>
    requires link { link < length world.old.links.items }
    requires fits { IsTrue (fits full (world_of world.old)) }
    ensures { IfOk result (λ done.
        world_of world.new ≡ put_to link found ask question.now full commit kind (world_of world.old)) }
{
    if !has_agent(&world.agents, kind) {
        let reading = Reading::Ready(Reply::NoAgent { commit, kind });
        set_link(world, link, Link { reading, ..found });
        return Ok(());
    }
    put_with(world, link, found, ask, question, full, commit, kind)
}

// The question goes to the agent of the kind, or is refused at a limit.
fn put_with(
    world: &mut Parts,
    link: u32,
    found: Link,
    ask: u32,
    question: &Question,
    full: Option<u32>,
    commit: u64,
    kind: Kind,
) -> Result<(), AllocError>
    requires link { link < length world.old.links.items }
    requires fits { IsTrue (fits full (world_of world.old)) }
    ensures { IfOk result (λ done.
        world_of world.new ≡ put_with link found ask question.now full commit kind (world_of world.old)) }
{
    match full {
        Some(most) => {
            let reading = Reading::Ready(Reply::AgentFull { commit, kind, most });
            set_link(world, link, Link { reading, ..found });
            Ok(())
        }
        None => put_down(world, link, found, ask, question, commit, kind),
    }
}

// The question goes to the agent of the kind.
fn put_down(
    world: &mut Parts,
    link: u32,
    found: Link,
    ask: u32,
    question: &Question,
    commit: u64,
    kind: Kind,
) -> Result<(), AllocError>
    requires link { link < length world.old.links.items }
    requires fits { IsTrue (fits None (world_of world.old)) }
    ensures { IfOk result (λ done.
        world_of world.new ≡ put_down link found ask question.now commit kind (world_of world.old)) }
{
    let run = world.run;
    let question = question.copy()?;
    let number = log_entry(&mut world.entries, run, ask, question, kind, commit)?;
    let reading = Reading::Waiting {
        commit,
        kind,
        number,
    };
    set_link(world, link, Link { reading, ..found });
    Ok(())
}

// A new open entry, under the next number of the run.
fn log_entry(
    entries: &mut Vec<AgentEntry>,
    run: u32,
    ask: u32,
    question: Question,
    kind: Kind,
    commit: u64,
) -> Result<u32, AllocError>
    requires { count_of run entries.old.items < 2 ^ 32 }
    ensures number { IfOk result (λ number. number ≡ count_of run entries.old.items) }
    ensures entries { IfOk result (λ number. entries.new.items ≡ entries.old.items ++ record {
      run = run;
      number = count_of run entries.old.items;
      ask = ask;
      question = question;
      kind = kind;
      commit = commit;
      state = EntryState.Open;
    } ∷ []) }
{
    let number = count_of(entries, run) as u32;
    entries.push(AgentEntry {
        run,
        number,
        ask,
        question,
        kind,
        commit,
        state: EntryState::Open,
    })?;
    Ok(number)
}

fn is_open(state: EntryState) -> bool
    ensures { result ≡ is_open state }
{
    matches!(state, EntryState::Open)
}

/// An agent answers. Says whether that event is enabled.
pub fn answer(world: &mut Parts, number: u32, allowed: bool) -> bool
    ensures { Becomes (answer number allowed (world_of world.old)) result (world_of world.new) }
{
    let run = world.run;
    let Some(entry) = entry_at(&world.entries, run, number) else {
        return false;
    };
    if !is_open(entry.state) {
        return false;
    }
    end_all(
        &mut world.entries,
        run,
        number,
        EntryState::Answered(allowed),
    );
    true
}

/// The worker of a closed link withdraws the question that it waits with. Says whether that event is enabled.
pub fn withdraw(world: &mut Parts, link: u32) -> bool
    ensures { Becomes (withdraw link (world_of world.old)) result (world_of world.new) }
{
    let run = world.run;
    let Some(found) = link_at(&world.links, link) else {
        return false;
    };
    let Reading::Waiting { number, .. } = found.reading else {
        return false;
    };
    let Some(entry) = entry_at(&world.entries, run, number) else {
        return false;
    };
    if found.run != run || found.up || !is_open(entry.state) {
        return false;
    }
    end_all(&mut world.entries, run, number, EntryState::Gone);
    true
}

fn end_all(entries: &mut [AgentEntry], run: u32, number: u32, state: EntryState)
    ensures { entries.new ≡ map (ended run number state) entries.old }
{
    for entry in entries.iter_mut() {
        end_one(entry, run, number, state);
    }
}

fn end_one(entry: &mut AgentEntry, run: u32, number: u32, state: EntryState)
    ensures { entry.new ≡ ended run number state entry.old }
{
    if entry.run == run && entry.number == number {
        entry.state = state;
    }
}

fn gone_if_open(state: EntryState) -> EntryState
    ensures { result ≡ gone_if_open state }
{
    match state {
        EntryState::Open => EntryState::Gone,
        EntryState::Gone | EntryState::Answered(_) => state,
    }
}

/// The agent of the kind leaves. Says whether that event is enabled.
pub fn leave(world: &mut Parts, kind: Kind) -> Result<bool, AllocError>
    ensures { IfOk result (λ enabled. Becomes (leave kind (world_of world.old)) enabled (world_of world.new)) }
{
    if !has_agent(&world.agents, kind) {
        return Ok(false);
    }
    let alloc = *world.agents.allocator();
    let left = without(alloc, &world.agents, kind)?;
    world.agents = left;
    leave_all(&mut world.entries, kind);
    Ok(true)
}

fn without(alloc: Global, agents: &[u16], kind: Kind) -> Result<Vec<u16>, AllocError>
    ensures { IfOk result (λ left. left.items ≡ filter (λ other. not (other == kind.0)) agents.now) }
{
    agents
        .iter()
        .copied()
        .filter(|other| *other != kind.0)
        .collect(alloc)
}

fn leave_all(entries: &mut [AgentEntry], kind: Kind)
    ensures { entries.new ≡ map (once_left kind.0) entries.old }
{
    for entry in entries.iter_mut() {
        leave_one(entry, kind);
    }
}

fn leave_one(entry: &mut AgentEntry, kind: Kind)
    ensures { entry.new ≡ once_left kind.0 entry.old }
{
    if entry.kind == kind {
        entry.state = gone_if_open(entry.state);
    }
}

/// The service has stopped: what is open is gone.
pub fn stop_all(entries: &mut [AgentEntry])
    ensures { entries.new ≡ map once_stopped entries.old }
{
    for entry in entries.iter_mut() {
        stop_one(entry);
    }
}

fn stop_one(entry: &mut AgentEntry)
    ensures { entry.new ≡ once_stopped entry.old }
{
    entry.state = gone_if_open(entry.state);
}
